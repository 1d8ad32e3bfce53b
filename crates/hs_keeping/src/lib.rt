//! What a region keeps of the identifiers of a stream, read where a write begins and written where it ends; what is
//! known of them in between; and what only the end of the stream decides of them.
#![tactic(auto)]

mod finishing;
mod keeping;
mod known;
mod leaving;

pub use finishing::{report_ends, report_lasts};
pub use known::Known;
pub use leaving::{fill_last, forget_finals, leave_none};
