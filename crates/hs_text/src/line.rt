//! The lines of a pattern file: where they end, and what they say.
ghost use Rattle.std.specs.Prelude.{◌≡◌, ◌≢◌, ℕ, [], ◌^◌, List, MatchOption, MatchBool};
ghost use Rattle.hs_base.specs.declared.ext.Ext.{Ext};
ghost use Rattle.hs_text.specs.Numbers.{IsNumber};
ghost use Rattle.hs_text.specs.Lines.{Begins, IsLineOf};
ghost use Rattle.hs_base.specs.Entries.{ListedEntry};
ghost use Rattle.hs_text.specs.EntryLines.{HasTail, IsEntryLine};
ghost use Rattle.hs_text.specs.PatternFile.{IsSkipped, IsBad};
ghost use Rattle.hs_text.specs.Reading.{listed_parts, IsReadAs};

use crate::cut::{cut_at_first, cut_at_last};
use crate::flag::flags_of;
use crate::number::number_of;
use crate::parameter::parameters_of;
use hs_base::{ExprId, Ext, Flags};

/// How many digits an identifier has at most.
const MAX_ID_DIGITS: usize = 10;

/// What a line of the form says.
#[derive(Clone, Copy)]
pub enum Line<'a> {
    /// Nothing: the line is empty or a comment.
    Skipped,
    /// An expression, with what is asked of its matches.
    Entry(EntryParts<'a>),
}

/// The parts of an entry's line.
#[derive(Clone, Copy)]
pub struct EntryParts<'a> {
    pub id: ExprId,
    pub flags: Flags,
    pub ext: Ext,
    /// The bytes between `:/` and the line's last `/`.
    pub text: &'a [u8],
}

/// The first line of a file that isn't empty, and what stands behind the line's end.
pub fn first_line(file: &[u8]) -> (&[u8], &[u8])
    requires { file.now ≢ [] }
    ensures { Begins result.0.now result.1.now file.now }
{
    match cut_at_first(file, b'\n') {
        None => (without_return(file), &file[file.len()..]),
        Some((raw, rest)) => (without_return(raw), rest),
    }
}

/// The line without the one carriage return that may stand at its end.
fn without_return(raw: &[u8]) -> &[u8]
    ensures { IsLineOf raw.now result.now }
{
    match raw.strip_suffix(b"\r") {
        None => raw,
        Some(line) => line,
    }
}

/// What the line says, where it is of the form.
pub fn read_line(line: &[u8]) -> Option<Line<'_>>
    ensures { MatchOption result (IsBad line.now) (λ read. IsReadAs line.now read) }
{
    if is_skipped(line) {
        return Some(Line::Skipped);
    }
    match parts_of(line) {
        None => None,
        Some(parts) => Some(Line::Entry(parts)),
    }
}

/// Whether the line is empty or a comment.
fn is_skipped(line: &[u8]) -> bool
    ensures { MatchBool result (IsSkipped line.now) (IsSkipped line.now → ⊥) }
{
    match line {
        [] => true,
        [first, ..] => *first == b'#',
    }
}

/// The parts of a line `ID:/expression/flags{name=N,..}`.
fn parts_of(line: &[u8]) -> Option<EntryParts<'_>>
    ensures { MatchOption result
        ((entry : ListedEntry) → IsEntryLine line.now entry → ⊥)
        (λ parts. IsEntryLine line.now (listed_parts parts)) }
{
    let (digits, behind) = cut_at_first(line, b':')?;
    let expression = behind.strip_prefix(b"/")?;
    let (text, tail) = cut_at_last(expression, b'/')?;
    let id = identifier_of(digits)?;
    let (flags, ext) = tail_of(tail)?;
    Some(EntryParts {
        id,
        flags,
        ext,
        text,
    })
}

/// The identifier that 1 to 10 decimal digits spell, where it has 32 bits.
fn identifier_of(digits: &[u8]) -> Option<ExprId>
    ensures { MatchOption result
        ((id : ℕ) → IsNumber 10 (2 ^ 32) digits.now id → ⊥)
        (λ id. IsNumber 10 (2 ^ 32) digits.now id.0) }
{
    let value = number_of(digits, MAX_ID_DIGITS)?;
    match u32::try_from(value) {
        Ok(id) => Some(ExprId(id)),
        Err(_) => None,
    }
}

/// The flags and the parameters behind an expression.
fn tail_of(tail: &[u8]) -> Option<(Flags, Ext)>
    ensures { MatchOption result
        ((flags : ℕ) (ext : Ext) → HasTail tail.now flags ext → ⊥)
        (λ asked. HasTail tail.now asked.0.0 asked.1) }
{
    match cut_at_first(tail, b'{') {
        None => Some((flags_of(tail)?, Ext::NONE)),
        Some((letters, behind)) => {
            let flags = flags_of(letters)?;
            let settings = behind.strip_suffix(b"}")?;
            Some((flags, parameters_of(settings)?))
        }
    }
}
