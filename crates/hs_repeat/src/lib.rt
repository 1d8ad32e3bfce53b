//! Engines of long repeats of one set of bytes. Each keeps of its entries only what tells where the repeat may be left,
//! and takes no memory of its own.
#![tactic(auto)]

mod distance;
mod first;
mod last;
mod last_block;
pub mod laws;
mod ring;

pub use first::First;
pub use last::Last;
pub use ring::Ring;
