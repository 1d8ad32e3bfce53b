//! The regions of a graph of nodes and what is kept of them: whether bytes may be that, and that of the empty stream.
#![tactic(auto)]

mod checking;
mod clearing;
mod header;
pub mod laws;

pub use checking::{first_fault, well_formed};
pub use clearing::clear;
pub use header::offset_in;
