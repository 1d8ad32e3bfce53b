//! Sets of code points in UTF-8: an expression over code points becomes one over bytes (`lower`), and a set of code
//! points is closed under case (`folds`).
#![tactic(auto)]

mod byte_range;
mod folding;
mod laws;
mod length;
mod lowering;
mod runs;
mod set;

pub use folding::folds;
pub use laws::{folds_once, lowered_trees};
pub use lowering::lower;
