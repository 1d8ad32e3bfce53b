//! Where the reading of an expression is.
ghost use Rattle.std.specs.Prelude.{◌≡◌, ◌≤◌, ◌+◌};
ghost use Rattle.hs_syntax.specs.Lengths.{WrongFits};
ghost use Rattle.hs_parse.specs.Spots.{start_of, refusal_at};

use crate::parser::MAX_TEXT_LEN;
use hs_base::{Flags, Refusal};
use hs_syntax::{Mode, Wrong};

/// A place of an expression, an offset in bytes, and the options in force there.
#[derive(Clone, Copy)]
pub(crate) struct Spot {
    /// The place.
    pub(crate) place: usize,
    /// The options.
    pub(crate) mode: Mode,
}

impl Spot {
    /// Where an expression with the flags begins.
    pub(crate) fn of(flags: Flags) -> Spot
        ensures { result ≡ start_of flags }
    {
        Spot {
            place: 0,
            mode: Mode::of(flags),
        }
    }
}

/// The refusal of a form that begins at a place.
pub(crate) fn refusal_at(wrong: Wrong, at: usize) -> Refusal
    requires near { at ≤ MAX_TEXT_LEN + 3 }
    requires fits { WrongFits MAX_TEXT_LEN wrong }
    ensures { result ≡ refusal_at wrong at }
{
    match wrong {
        Wrong::Syntax => Refusal::Syntax(at as u32),
        Wrong::UnknownEscape => Refusal::UnknownEscape(at as u32),
        Wrong::IllFormed(place) => Refusal::Syntax((at + place) as u32),
        Wrong::Unsupported(construct) => Refusal::Unsupported(construct, at as u32),
    }
}
