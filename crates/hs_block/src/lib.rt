//! Engines that take a block of up to 64 bytes at once: the places of a block are the bits of words.
#![tactic(auto)]

mod before_tables;
pub mod block_laws;
mod by_steps;
mod class_words;
mod engine;
mod literal;
mod mask_places;
mod mask_words;
mod position_words;
mod set_tables;
mod streams;

pub use by_steps::run_by_steps;
pub use engine::BlockEngine;
pub use literal::{Hits, LiteralRun, entries_from, run_literal};
pub use streams::{MAX_STREAMS, Streams};
