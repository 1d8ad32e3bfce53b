//! The next place of a text that holds a byte of a set: `few` has sets of up to three bytes by name, `search` takes the
//! fastest way for a set. `specs/Places.antt` says what a least place is.
#![tactic(auto)]

mod few;
mod search;

pub use search::next_in;
