//! Lists of expressions: from the file that holds one to what scans it, and the commands that are about a list alone.
//! `specs/Causes.antt` says why a command isn't done, `specs/Endings.antt` how these commands may end.
#![tactic(auto)]

mod check_command;
mod compile_command;
mod early;
mod fault;
mod form;
mod info_command;
mod loading;
mod reading;
mod skipping;

pub use check_command::check_list;
pub use compile_command::compile_list;
pub use fault::Fault;
pub use info_command::tell_database;
pub use loading::{ListKind, Loaded, load};
