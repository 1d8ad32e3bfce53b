//! The plain runner of a program: bytes to reports, byte by byte over all roles, with all that is kept of a stream in
//! one region.
#![tactic(auto)]

mod chains;
mod checking;
mod ends;
mod fields;
mod kept;
pub mod laws;
mod laying;
mod literals;
mod look_back;
mod moving;
mod reporting;
mod roles;
mod runner;
mod scratch;
mod settling;
mod spot;
mod way;

pub use checking::{first_fault, well_formed};
pub use laying::{clear, lay_out, region_size};
pub use runner::{feed, finish};
pub use scratch::Scratch;
