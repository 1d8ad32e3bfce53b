//! The outside: sources, sinks and stores, with a meaning that contracts can speak of; versions of them over memory,
//! adapters over the real thing, and the loops that read to an end and write a whole text.
#![tactic(auto)]

mod chunk;
mod fault;
mod fault_plan;
mod folder_store;
mod mem_file;
mod mem_sink;
mod mem_source;
mod mem_store;
mod sink;
mod source;
mod std_sink;
mod std_source;
mod store;
mod sure_sink;
mod sure_source;
mod sure_store;
mod transfer;

pub use fault::{Failed, FileFault, SourceFault, StoreFault};
pub use folder_store::FolderStore;
pub use mem_sink::MemSink;
pub use mem_source::MemSource;
pub use mem_store::MemStore;
pub use sink::Sink;
pub use source::Source;
pub use std_sink::StdSink;
pub use std_source::StdSource;
pub use store::Store;
pub use sure_sink::SureSink;
pub use sure_source::SureSource;
pub use sure_store::SureStore;
pub use transfer::{PIECE_LEN, read_file, read_to_end, write_all};
