//! Streams over a database: each is opened, written in pieces, reset and closed, and tells what its bytes decide when
//! they decide it. All that is kept of one is a packed form of its region and the digest of its database, so it can be
//! saved as a few bytes and gone on with elsewhere. `specs/Streams.antt` says what a stream is seen as, `laws` what
//! follows for any list of writes, and `saving_laws` what follows where streams are saved in between. `run` scans what
//! is drawn from a seed (`Drawn`) as one stream, cut and saved in between or not, and counts what that reports.
#![tactic(auto)]

mod cache;
mod collected;
mod drawing;
mod fault;
mod generator;
pub mod laws;
mod packed;
mod running;
mod runs;
mod saving;
pub mod saving_laws;
mod scratch;
mod stream;
mod summaries;
mod swapping;
mod tally;

pub use cache::Cache;
pub use collected::Collected;
pub use drawing::Drawn;
pub use fault::ExpandFault;
pub use generator::Generator;
pub use hs_reports::Events;
pub use runs::{Cutting, run};
pub use scratch::Scratch;
pub use stream::{Stream, StreamFull, has_room};
pub use summaries::summary;
pub use swapping::{InMemory, Keeper};
pub use tally::Tally;
