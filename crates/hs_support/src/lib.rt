//! Which expressions are supported: the refusals that go by an expression's flags, parameters and tree, and the count
//! of its positions by pieces.
#![tactic(auto)]

mod checking;
mod fault;
pub mod laws;
mod outside;
mod pieces;
mod walk;

pub use checking::check;
pub use fault::{SUPPORTED_FLAGS, SUPPORTED_PARAMETERS, flags_fault};
pub use pieces::excess_positions;
