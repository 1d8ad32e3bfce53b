//! Small deterministic automata by subset construction, as an engine that keeps one byte.
#![tactic(auto)]

mod dfa;
mod set_dfa;
mod state_ends;

pub use dfa::Dfa;
pub use set_dfa::SetDfa;
