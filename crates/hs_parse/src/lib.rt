//! The parser of expressions. `specs/Grammar.antt` says which tree a text is read as, `specs/Faults.antt` which refusal
//! a text has that isn't read.
#![tactic(auto)]

mod class;
mod fault;
mod item;
pub mod laws;
mod named_set;
mod parser;
mod point_set;
mod points;
mod quantifier;
mod set;
mod spot;
mod token;

pub use fault::ParseFault;
pub use parser::{MAX_DEPTH, MAX_TEXT_LEN, parse};
