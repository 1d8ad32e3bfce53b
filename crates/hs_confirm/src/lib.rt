//! Which literals end at a place: exact answers where a faster search says that some may. `confirm` has the table,
//! `ends` the iteration over its answers for one bucket, `place_ends` that for several buckets in order, `plain` the
//! slow twin. `specs/BucketEnds.antt` says what an end is.
#![tactic(auto)]

mod chains;
mod confirm;
mod ends;
mod entry;
mod filing;
mod head;
mod keys;
mod place_ends;
mod plain;
mod taking;
mod widths;

pub use confirm::Confirm;
pub use ends::Ends;
pub use keys::full_text_key;
pub use place_ends::PlaceEnds;
pub use plain::plain_ends;
