//! What a block of bytes tells: the reports that it decides, by words, from where matches of each identifier end.
#![tactic(auto)]

mod block;
pub mod chunk_laws;
mod end_words;
mod events;
pub mod gathering_laws;
mod identifier;
mod identifier_ends;
mod settling;
mod telling;
mod tellings;
mod terminal;
pub mod terminal_laws;
pub mod word_laws;

pub use block::tell_block;
pub use end_words::EndWords;
pub use events::Events;
pub use identifier::Identifier;
pub use identifier_ends::IdentifierEnds;
pub use settling::settle_block;
pub use telling::{Telling, is_left_to_end, told_words};
pub use tellings::Tellings;
pub use terminal::{Terminal, bound_word};
