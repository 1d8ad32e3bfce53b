//! The states in which single engines were met, and the steps that bytes were met to make of them: what an engine does
//! with a block is looked up, and only a step that wasn't met yet is asked of the engine.
#![tactic(auto)]

mod credit;
mod following;
mod pool;
mod running;
mod state;

pub use pool::StatePool;
