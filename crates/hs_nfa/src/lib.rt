//! The slow twin of the engines of position automata: it goes through the positions one by one.
#![tactic(auto)]

mod plain;

pub use plain::Plain;
