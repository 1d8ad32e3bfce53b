//! A script as it comes: what a reader has ahead, and the first bytes of each line. `specs/Reading.antt` says what is
//! taken of it.
#![tactic(auto)]

mod fault;
mod line;
mod reader;

pub use fault::Break;
pub use line::Line;
pub use reader::Reader;
