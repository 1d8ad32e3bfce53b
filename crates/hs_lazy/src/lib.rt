//! States of many engines at once, which are made when bytes first lead to them.
#![tactic(auto)]

mod budget;
mod cache;
mod dfa;
mod end_table;
mod laws;
mod parts;
mod running;
mod steps;

pub use cache::{Cache, ToldEnds};
pub use laws::loaded_regions;
