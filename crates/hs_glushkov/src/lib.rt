//! The position automaton of an expression (Glushkov, "The abstract theory of automata"), with tests of the context at
//! each transition for its assertions.
#![tactic(auto)]

mod assertion_test;
mod builder;
mod follow_masks;
pub mod laws;
mod parts;
mod row_filling;

pub use assertion_test::has_assertion;
pub use builder::build;
