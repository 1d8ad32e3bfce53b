//! What streams keep of their regions.
#![tactic(auto)]

mod builder;
mod field_bytes;
pub mod laws;
mod packing;
pub mod packing_laws;
mod rests;

pub use builder::PackingBuilder;
pub use packing::{Packing, StateField};
