//! The split of an expression into chains of pieces, at its literals and its long repeats of one set, and whether two
//! pieces are equal. hs_base's `specs/Chains.antt` says what the chains of an expression are.
#![tactic(auto)]

mod laws;
mod parts;
mod piece;
mod same;
mod splitting;

pub use laws::{chains_are_fit, chains_have_spans, pieces_have_no_more_positions};
pub use piece::{Chain, LOOK_BACK_WINDOW, Piece};
pub use same::same_piece;
pub use splitting::split;
