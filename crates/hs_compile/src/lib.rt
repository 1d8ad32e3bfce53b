//! From a list of expressions to what scans them: the first refusal of the list, or a database with its graph of nodes.
#![tactic(auto)]

mod arranging;
mod building;
mod compiler;
mod counts;
mod database;
mod entry;
mod fault;
mod graph_kinds;
mod graph_numbers;
mod graph_tables;
mod graph_terminals;
mod graph_wakes;
mod laying;
mod node_lists;
mod reading;
mod seen;
mod step;
mod steps;

pub use compiler::{MAX_ENTRIES, compile};
pub use database::Database;
pub use fault::CompileFault;
