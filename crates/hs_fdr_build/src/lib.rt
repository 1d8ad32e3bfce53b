//! The masks of a list of literals, for the block kernel of a literal scanner. `grouping` puts each literal into one of
//! eight buckets and picks a width, `masks` makes the masks, `building` does both. `specs/Asking.antt` says which bits
//! are 0, and `laws` that no literal end is masked out.
#![tactic(auto)]

mod building;
mod clear;
mod grouping;
mod laws;
mod masks;

pub use building::build;
pub use laws::{no_end_is_masked, no_end_is_masked_in_blocks};
