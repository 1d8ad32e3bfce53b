//! The files of lists and of streams, written and read. `specs/Files.antt` says which bytes are the database file of
//! which list, whose encoding has a digest, and `specs/States.antt` which bytes are the state file of a stream over a
//! list.
#![tactic(auto)]

mod digesting;
mod fault;
mod field;
pub mod laws;
mod parts;
mod reading;
mod state;
mod writing;

pub use digesting::digest;
pub use fault::DecodeFault;
pub use reading::decode_file;
pub use state::{StateFault, encode_state, read_state};
pub use writing::{encode_file, encode_list};
