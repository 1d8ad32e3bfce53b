//! The plain program: what a match is, computed from the definitions by sets of offsets. It is slow, and shares nothing
//! with any automaton: faster programs are compared with it.
#![tactic(auto)]

mod assertions;
mod ends;
mod offsets;
mod pair_list;
mod pattern;
mod points;
mod report_list;

pub use assertions::holds;
pub use ends::{ends_from, ends_of};
pub use offsets::Offsets;
pub use pair_list::pairs;
pub use pattern::Pattern;
pub use report_list::{MatchReports, match_reports, reports, told};
