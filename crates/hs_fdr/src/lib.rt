//! Which buckets of literals may end at each place of a block of a text, 64 places at a time. `tables` has the masks,
//! `block` the scan by lanes, and `plain` the same place by place, for comparison. `specs/Blocks.antt` has the formula.
#![tactic(auto)]

mod block;
mod lanes;
mod plain;
mod tables;

pub use block::scan_block;
pub use plain::plain_block;
pub use tables::{BLOCK_LEN, MAX_WIDTH, MIN_WIDTH, PLACES, Tables};
