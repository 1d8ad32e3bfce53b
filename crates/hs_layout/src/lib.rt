//! The layout of a region: its size, and its header and fields, read and written. `specs/Regions` of hs_base says what
//! stands in each.
#![tactic(auto)]

mod bits;
mod checking;
mod fields;
mod header;
pub mod laws;
mod layout;
mod rows;
mod starts;
mod word_rows;

pub use layout::{HISTORY_SIZE, Layout, MAX_SIZE};
