//! The words of a command line as a request, read by `clap`. `specs/Requests.antt` says which command line that is, and
//! what its words ask for.
#![tactic(auto)]

mod command_line;
pub mod laws;
mod request;

pub use request::{Request, request_of};
