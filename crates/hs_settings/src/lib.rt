//! What a row of a whole run says that the program is run on, and what it answers. Tests alone use it.
#![tactic(auto)]

mod judging;
mod leaving;
mod names;
mod setting;

pub use judging::{RunsRow, World};
pub use leaving::Leaving;
pub use setting::{Answer, Faults, Setting};
