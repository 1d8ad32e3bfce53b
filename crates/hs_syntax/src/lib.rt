//! What the bytes of an expression begin, under the options in force: the tables of the pattern syntax. Which tree they
//! make together is said by the crate above.
#![tactic(auto)]

mod character;
mod escape;
mod form;
mod group;
mod laws;
mod mode;
mod name;
mod named;
mod number;
mod piece;
mod quantifier;
mod wrong;

pub use form::{Form, form_at};
pub use laws::characters_are_encodings;
pub use mode::Mode;
pub use named::Named;
pub use piece::{Piece, piece_at};
pub use wrong::Wrong;
