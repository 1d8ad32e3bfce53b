//! The scan of a stream by nodes: chunks of bytes to reports, and from a region to that of the longer stream.
#![tactic(auto)]

mod asking;
mod copying;
mod course;
mod feeding;
mod finishing;
mod hits;
mod last_byte;
mod line_feed;
mod node_cache;
mod past;
mod running;
mod scanning;
mod scratch;
mod tables;
mod telling;
mod waking;
mod writing;

pub use feeding::scan;
pub use finishing::finish;
pub use node_cache::NodeCache;
pub use scratch::Scratch;
pub use tables::Tables;
