//! The items of a class.
ghost use Rattle.std.specs.Prelude.{◌≡◌, ◌+◌, ◌-◌, ◌≤◌, if◌then◌else◌, length, slice_get};
ghost use Rattle.hs_syntax.specs.Bytes.{is_byte};
ghost use Rattle.hs_syntax.specs.Lengths.{PieceFits};
ghost use Rattle.hs_parse.specs.Classes.{hyphen, class_piece, range_of, item_at};

use crate::parser::MAX_TEXT_LEN;
use crate::set::Test;
use crate::spot::refusal_at;
use hs_base::Refusal;
use hs_syntax::{Mode, Piece, piece_at};

/// The item that stands at a place of a class.
#[derive(Clone, Copy)]
pub(crate) enum Item {
    /// Nothing: the text ends there.
    End,
    /// The `]` that closes the class.
    Close,
    /// The bytes that pass the test, and the place behind the item.
    Bytes(Test, usize),
    /// An item that is refused.
    Refused(Refusal),
}

/// Whether a hyphen stands at a place.
fn is_hyphen_at(text: &[u8], at: usize) -> bool
    ensures { result ≡ is_byte hyphen (slice_get text.now at) }
{
    matches!(text.get(at), Some(b'-'))
}

/// What stands at a place of the class whose items begin at the start.
fn class_piece(text: &[u8], mode: Mode, start: usize, at: usize) -> Piece
    requires within { at ≤ length text.now }
    ensures is { result ≡ class_piece text.now mode start at }
    ensures fits { PieceFits (length text.now - at) result }
{
    piece_at(mode, at == start, &text[at..])
}

/// The item at a place of the class whose items begin at the start.
#[tactic(auto, unfolding(crate::specs::Classes::item_at))]
pub(crate) fn item_at(text: &[u8], mode: Mode, start: usize, at: usize) -> Item
    requires within { at ≤ length text.now }
    requires short { length text.now ≤ MAX_TEXT_LEN }
    ensures { result ≡ item_at text.now mode start at }
{
    match class_piece(text, mode, start, at) {
        Piece::End => Item::End,
        Piece::Close => Item::Close,
        Piece::Character(code, length) => character_at(text, mode, start, at, code, at + length),
        Piece::Class(class, negated, length) => {
            Item::Bytes(Test::Class(class, negated), at + length)
        }
        Piece::Refused(reason) => Item::Refused(refusal_at(reason, at)),
    }
}

/// The item that begins at a place with a character, by the place behind that.
fn character_at(text: &[u8], mode: Mode, start: usize, at: usize, code: u32, middle: usize) -> Item
    requires order { at ≤ middle }
    requires within { middle ≤ length text.now }
    requires short { length text.now ≤ MAX_TEXT_LEN }
    ensures { result ≡ (if is_byte hyphen (slice_get text.now middle)
        then range_of mode.caseless at code middle (class_piece text.now mode start (middle + 1))
        else Item.Bytes (Test.Range mode.caseless code code) middle) }
{
    if !is_hyphen_at(text, middle) {
        return Item::Bytes(Test::Range(mode.caseless, code, code), middle);
    }
    match class_piece(text, mode, start, middle + 1) {
        Piece::End | Piece::Close | Piece::Class(_, _, _) => {
            Item::Bytes(Test::Range(mode.caseless, code, code), middle)
        }
        Piece::Character(last, length) => {
            if last < code {
                return Item::Refused(Refusal::Syntax(at as u32));
            }
            Item::Bytes(Test::Range(mode.caseless, code, last), middle + 1 + length)
        }
        Piece::Refused(reason) => Item::Refused(refusal_at(reason, middle + 1)),
    }
}
