//! The position automaton as data with its laws, and what every engine does that runs an expression.
#![tactic(auto)]

mod automaton;
mod ends;
mod engine;
mod firsts;
mod follow_rows;
pub mod laws;
mod steps;
mod timeless;

pub use automaton::Automaton;
pub use ends::{BlockEnds, ByteEnds};
pub use engine::Engine;
pub use firsts::first_bytes;
pub use follow_rows::{CLASS_COUNT, FollowRows};
pub use steps::Steps;
pub use timeless::TimelessEngine;
