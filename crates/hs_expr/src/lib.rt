//! The tree of an expression. `specs/Meaning.antt` says which plain tree it stands for, and that crate's definitions
//! what the tree matches.
#![tactic(auto)]

mod counts;
mod empty_span;
mod ends;
mod expr;
mod items;
mod kind;
mod laws;
mod literal_set;
mod plain;

pub use counts::{GREATEST_COUNT, LONGEST_ENCODING, greatest_width, least_width, positions};
pub use empty_span::matches_empty;
pub use ends::has_embedded_end;
pub use expr::Expr;
pub use hs_base::Assertion;
pub use items::{flatten, is_once};
pub use kind::{Kind, LEAST_LONG_REPEAT, MOST_LITERAL_BYTES, kind_of};
pub use laws::{items_stay_as_they_are, spans_are_within_widths};
pub use plain::is_plain;
