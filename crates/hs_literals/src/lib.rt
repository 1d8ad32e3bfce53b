//! Every place at which one of many literals ends, by lanes: `literals` has the tables, `blocks` the masks of 64
//! places, `marks` which of them may have an end, `places` goes to the next one that may, and `scan` tells the ends.
//! `specs/ScanEnds.antt` says what an end is. `hit_rows` has the ends in a chunk as rows of bits, and `hit_laws` says
//! what that tells of a stream.
#![tactic(auto)]

mod blocks;
pub mod hit_laws;
mod hit_rows;
mod literals;
mod marks;
mod places;
mod scan;

pub use hit_rows::HitRows;
pub use literals::Literals;
pub use scan::LitScan;
