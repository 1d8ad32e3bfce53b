//! The states of an expression's subset construction, which an automaton is in behind streams of bytes.
#![tactic(auto)]

mod byte_classes;
mod footing;
pub mod laws;
mod leads;
mod state_sets;
mod subsets;

pub use byte_classes::{ByteClasses, CLASSED_BYTES};
pub use footing::{Footing, WIDTH, kept_prev};
pub use state_sets::StateSets;
pub use subsets::Subsets;
