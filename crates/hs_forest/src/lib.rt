//! Equal beginnings of chains as one: a forest with a node for each beginning of a chain of keys; and numbers grouped
//! by their owners.
#![tactic(auto)]

mod builder;
mod forest;
mod groups;
mod growing;
mod laws;

pub use builder::Builder;
pub use forest::Forest;
pub use groups::{Groups, group};
pub use laws::equal_beginnings_are_one_node;
