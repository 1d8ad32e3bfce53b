//! What the bytes of an expression begin outside of classes.
ghost use Rattle.std.specs.Prelude.{◌≡◌, ◌≤◌, ◌<◌, length, drop, slice_get};
ghost use Rattle.hs_base.specs.Assertions.{line_feed};
ghost use Rattle.hs_base.specs.ByteSets.{is_space};
ghost use Rattle.hs_syntax.specs.Bytes.{place_on};
ghost use Rattle.hs_syntax.specs.Lengths.{FormFits};
ghost use Rattle.hs_syntax.specs.Escapes.{assertion_letter, construct_letter};
ghost use Rattle.hs_syntax.specs.Forms.{letter_of, escaped_of, quoted_of, line_of, marked_by, plain_of, bracket_of};
ghost use Rattle.hs_syntax.specs.Forms.{start_of, end_of, character_form, form_at};

use crate::character::{character_of, ill_formed_of};
use crate::escape::{Escape, assertion_letter, construct_letter, escape_at};
use crate::group::{comment, group_at};
use crate::mode::Mode;
use crate::name::{is_byte_at, name_end, place_of};
use crate::named::Named;
use crate::quantifier::{brace_at, quantifier_at};
use crate::wrong::Wrong;
use hs_base::Assertion;

/// What some bytes of an expression begin. A number behind it is the length in bytes, which is 1 where none is.
#[derive(Clone, Copy, Debug, PartialEq, Eq)]
pub enum Form {
    /// Nothing: the text ends there.
    End,
    /// Bytes that have no meaning, and the options behind them.
    Skipped(Mode, usize),
    /// A change of options to the end of the group.
    Setting(Mode, usize),
    /// The opening of a group, with the options inside.
    Opening(Mode, usize),
    /// `)`
    Closing,
    /// `|`
    Bar,
    /// `.`
    Any,
    /// A character.
    Character(u32, usize),
    /// The bytes of a class, or those that it hasn't.
    Class(Named, bool, usize),
    /// `[`, which begins a class.
    Bracket,
    /// An assertion.
    Assert(Assertion, usize),
    /// A quantifier: the least and the greatest number of copies, and whether it is possessive.
    Quantifier(u32, Option<u32>, bool, usize),
    /// A form that is refused.
    Refused(Wrong),
}

/// What the bytes begin with under the options.
pub fn form_at(mode: Mode, bytes: &[u8]) -> Form
    ensures is { result ≡ form_at mode bytes.now }
    ensures fits { FormFits (length bytes.now) result }
{
    form_of(mode, bytes)
}

/// What the bytes begin with under the options, by the first one.
#[tactic(auto, unfolding(crate::specs::Forms::form_at))]
fn form_of(mode: Mode, bytes: &[u8]) -> Form
    ensures { result ≡ form_at mode bytes.now }
{
    let Some(byte) = bytes.get(0) else {
        return Form::End;
    };
    if mode.quoted {
        quoted_of(mode, bytes, *byte)
    } else {
        plain_of(mode, bytes, *byte)
    }
}

/// What a byte begins within a quote.
fn quoted_of(mode: Mode, bytes: &[u8], byte: u8) -> Form
    ensures { result ≡ quoted_of mode bytes.now (Some byte) (slice_get bytes.now 1) }
{
    if byte == b'\\' && is_byte_at(b'E', bytes, 1) {
        Form::Skipped(mode.with_quote(false), 2)
    } else {
        character_form(character_of(mode.utf8, bytes, byte))
    }
}

/// A character that stands for itself.
fn character_form(character: Option<(u32, usize)>) -> Form
    ensures { result ≡ character_form character }
{
    match character {
        Some((code, length)) => Form::Character(code, length),
        None => Form::Refused(Wrong::IllFormed(0)),
    }
}

/// What a byte begins outside of quotes.
fn plain_of(mode: Mode, bytes: &[u8], byte: u8) -> Form
    requires { 1 ≤ length bytes.now }
    ensures { result ≡ plain_of mode bytes.now (Some byte) }
{
    if mode.extended && is_space(byte) {
        return Form::Skipped(mode, 1);
    }
    if mode.extended && byte == b'#' {
        return line_of(mode, bytes);
    }
    marked_by(mode, bytes, byte)
}

/// Whether the byte is skipped under x.
fn is_space(byte: u8) -> bool
    ensures { result ≡ is_space byte }
{
    matches!(byte, 0x09..=0x0D | b' ')
}

/// A comment, to the end of its line or of the text.
fn line_of(mode: Mode, bytes: &[u8]) -> Form
    requires { 1 ≤ length bytes.now }
    ensures { result ≡ line_of mode bytes.now (place_on line_feed 1 (drop 1 bytes.now)) }
{
    match place_of(b'\n', bytes, 1) {
        Some(at) => comment(mode, at + 1, ill_formed_of(mode.utf8, &bytes[..at])),
        None => comment(mode, bytes.len(), ill_formed_of(mode.utf8, bytes)),
    }
}

/// What a byte begins where nothing is skipped.
#[tactic(auto, unfolding(crate::specs::Forms::marked_by))]
fn marked_by(mode: Mode, bytes: &[u8], byte: u8) -> Form
    requires { 1 ≤ length bytes.now }
    ensures { result ≡ marked_by mode bytes.now byte }
{
    match byte {
        b'\\' => escaped_of(mode, escape_at(mode.utf8, bytes)),
        b'[' => bracket_of(bytes),
        b'(' => group_at(mode, bytes),
        b')' => Form::Closing,
        b'|' => Form::Bar,
        b'*' => quantifier_at(0, None, bytes, 1),
        b'+' => quantifier_at(1, None, bytes, 1),
        b'?' => quantifier_at(0, Some(1), bytes, 1),
        b'{' => brace_at(bytes),
        b'.' => Form::Any,
        b'^' => Form::Assert(start_of(mode), 1),
        b'$' => Form::Assert(end_of(mode), 1),
        _ => character_form(character_of(mode.utf8, bytes, byte)),
    }
}

/// What `^` asserts.
fn start_of(mode: Mode) -> Assertion
    ensures { result ≡ start_of mode }
{
    if mode.multiline {
        Assertion::LineStart
    } else {
        Assertion::StreamStart
    }
}

/// What `$` asserts.
fn end_of(mode: Mode) -> Assertion
    ensures { result ≡ end_of mode }
{
    if mode.multiline {
        Assertion::LineEnd
    } else {
        Assertion::EndOrFinalNewline
    }
}

/// What a `[` begins outside of classes, where the name of a class has no place.
fn bracket_of(bytes: &[u8]) -> Form
    requires { 1 ≤ length bytes.now }
    ensures { result ≡ bracket_of bytes.now }
{
    if is_byte_at(b':', bytes, 1) && name_end(b':', bytes, 2).is_some() {
        Form::Refused(Wrong::Syntax)
    } else {
        Form::Bracket
    }
}

/// What an escape means outside of classes.
fn escaped_of(mode: Mode, escape: Escape) -> Form
    ensures { result ≡ escaped_of mode escape }
{
    match escape {
        Escape::Character(code, length) => Form::Character(code, length),
        Escape::Class(class, negated) => Form::Class(class, negated, 2),
        Escape::Other(letter) => letter_of(mode, letter),
        Escape::Refused(reason) => Form::Refused(reason),
    }
}

/// What a letter behind a backslash means that has its meaning outside of classes alone.
fn letter_of(mode: Mode, letter: u8) -> Form
    ensures { result ≡ letter_of mode letter (assertion_letter letter) (construct_letter letter) }
{
    if let Some(assertion) = assertion_letter(letter) {
        return Form::Assert(assertion, 2);
    }
    if let Some(construct) = construct_letter(letter) {
        return Form::Refused(Wrong::Unsupported(construct));
    }
    match letter {
        b'Q' => Form::Skipped(mode.with_quote(true), 2),
        b'E' => Form::Skipped(mode, 2),
        _ => Form::Refused(Wrong::UnknownEscape),
    }
}
