//! What every other crate speaks of: identifiers, sets of bytes, assertions, reports and refusals. `specs/` says
//! what a match is.
#![tactic(auto)]

mod assertion;
mod byte_set;
mod construct;
mod context;
pub mod context_laws;
mod entry;
mod ext;
mod flags;
pub mod kept_laws;
pub mod laws;
pub mod leaving_laws;
mod literal;
pub mod literal_laws;
mod members;
mod refusal;
pub mod region_laws;
pub mod stream_laws;
pub mod written_out_laws;

pub use assertion::Assertion;
pub use byte_set::ByteSet;
pub use construct::Construct;
pub use context::{LINE_FEED, Mask, Next, NextSet, Prev};
pub use entry::{ExprId, MAX_OFFSET, Report};
pub use ext::{Entry, Ext};
pub use flags::Flags;
pub use literal::{BUCKETS, CASE_DISTANCE, LitByte};
pub use members::Members;
pub use refusal::{MAX_POSITIONS, Refusal};
