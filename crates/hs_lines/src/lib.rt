//! Lines on their way to a sink that may fail: those that wait, and those of the reports of a stream, with its name if
//! it has one. `specs/Passing.antt` says what a call passes on, `specs/Printing.antt` what the lines of reports are.
#![tactic(auto)]

mod name;
mod pending;
mod report_lines;

pub use name::Name;
pub use pending::Pending;
pub use report_lines::ReportLines;
