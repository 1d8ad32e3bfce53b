//! What stands in a class.
ghost use Rattle.std.specs.Prelude.{◌≡◌, ◌≤◌, ◌<◌, ◌+◌, length, slice_get};
ghost use Rattle.hs_syntax.specs.Lengths.{PieceFits};
ghost use Rattle.hs_syntax.specs.Names.{name_end};
ghost use Rattle.hs_syntax.specs.Pieces.{escaped_of, collating_of, posix_at, bracket_at, piece_at, character_piece};

use crate::character::character_of;
use crate::escape::{Escape, escape_at};
use crate::mode::Mode;
use crate::name::{is_byte_at, name_end};
use crate::named::{Named, class_of_name};
use crate::wrong::Wrong;
use hs_base::Construct;

/// What stands at a place of a class.
#[derive(Clone, Copy, Debug, PartialEq, Eq)]
pub enum Piece {
    /// Nothing: the text ends there.
    End,
    /// The `]` that closes the class.
    Close,
    /// A character, and the length in bytes.
    Character(u32, usize),
    /// The bytes of a class, or those that it hasn't, and the length in bytes.
    Class(Named, bool, usize),
    /// A form that is refused.
    Refused(Wrong),
}

/// What the bytes begin with in a class, as its first piece or as a later one.
pub fn piece_at(mode: Mode, first: bool, bytes: &[u8]) -> Piece
    ensures is { result ≡ piece_at mode first bytes.now }
    ensures fits { PieceFits (length bytes.now) result }
{
    piece_by(mode, first, bytes)
}

/// What the bytes begin with in a class, by the first one.
#[tactic(auto, unfolding(crate::specs::Pieces::piece_at))]
fn piece_by(mode: Mode, first: bool, bytes: &[u8]) -> Piece
    ensures { result ≡ piece_at mode first bytes.now }
{
    let Some(byte) = bytes.get(0) else {
        return Piece::End;
    };
    match *byte {
        b'\\' => escaped_of(escape_at(mode.utf8, bytes)),
        b'[' => bracket_at(mode.caseless, bytes),
        b']' if !first => Piece::Close,
        other => character_piece(character_of(mode.utf8, bytes, other)),
    }
}

/// A character that stands for itself.
fn character_piece(character: Option<(u32, usize)>) -> Piece
    ensures { result ≡ character_piece character }
{
    match character {
        Some((code, length)) => Piece::Character(code, length),
        None => Piece::Refused(Wrong::IllFormed(0)),
    }
}

/// An escape in a class.
fn escaped_of(escape: Escape) -> Piece
    ensures { result ≡ escaped_of escape }
{
    match escape {
        Escape::Character(code, length) => Piece::Character(code, length),
        Escape::Class(class, negated) => Piece::Class(class, negated, 2),
        Escape::Other(b'b') => Piece::Character(0x08, 2),
        Escape::Other(_) => Piece::Refused(Wrong::UnknownEscape),
        Escape::Refused(reason) => Piece::Refused(reason),
    }
}

/// What a `[` in a class begins.
#[tactic(auto, unfolding(crate::specs::Pieces::bracket_at))]
fn bracket_at(caseless: bool, bytes: &[u8]) -> Piece
    requires { 1 ≤ length bytes.now }
    ensures { result ≡ bracket_at caseless bytes.now }
{
    match bytes.get(1) {
        Some(b':') => posix_at(caseless, bytes),
        Some(b'.') => collating_at(b'.', bytes),
        Some(b'=') => collating_at(b'=', bytes),
        _ => Piece::Character(b'[' as u32, 1),
    }
}

/// What `[.` or `[=` begins.
fn collating_at(mark: u8, bytes: &[u8]) -> Piece
    requires { 2 ≤ length bytes.now }
    ensures { result ≡ collating_of (name_end mark bytes.now 2) }
{
    match name_end(mark, bytes, 2) {
        Some(_) => Piece::Refused(Wrong::Unsupported(Construct::Collating)),
        None => Piece::Character(b'[' as u32, 1),
    }
}

/// What `[:` begins.
#[tactic(auto, unfolding(crate::specs::Pieces::posix_at))]
fn posix_at(caseless: bool, bytes: &[u8]) -> Piece
    requires { 2 ≤ length bytes.now }
    ensures { result ≡ posix_at caseless bytes.now }
{
    let negated = is_byte_at(b'^', bytes, 2);
    let at = if negated { 3 } else { 2 };
    let Some(end) = name_end(b':', bytes, at) else {
        return Piece::Character(b'[' as u32, 1);
    };
    match class_of_name(caseless, &bytes[at..end]) {
        Some(class) => Piece::Class(class, negated, end + 2),
        None => Piece::Refused(Wrong::Syntax),
    }
}
