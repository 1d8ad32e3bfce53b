//! What stands behind a backslash.
ghost use Rattle.std.specs.Prelude.{◌≡◌, ◌<◌, ◌≤◌, length, slice_get, IfSome};
ghost use Rattle.hs_syntax.specs.Escapes.{character_letter, construct_letter, assertion_letter, turned_over};
ghost use Rattle.hs_syntax.specs.Escapes.{control_of, coded, braced_at, short_at, hexadecimal_at, letter_of, itself_of};
ghost use Rattle.hs_syntax.specs.Escapes.{escape_by, escape_at};
ghost use Rattle.hs_syntax.specs.Names.{named_letter};

use crate::character::{character_of, is_code};
use crate::name::is_byte_at;
use crate::named::{Named, named_letter};
use crate::number::number_at;
use crate::wrong::Wrong;
use hs_base::{Assertion, Construct};

/// What stands behind a backslash, in classes and outside of them. It takes two bytes where nothing else is said.
#[derive(Clone, Copy)]
pub(crate) enum Escape {
    /// A character, and the length of the escape in bytes.
    Character(u32, usize),
    /// The bytes of a class, or those that it hasn't.
    Class(Named, bool),
    /// Another letter.
    Other(u8),
    /// An escape that is refused.
    Refused(Wrong),
}

/// The greatest number of digits in braces.
const MAX_DIGITS: usize = 8;

/// The character that a letter stands for.
#[tactic(auto, unfolding(crate::specs::Escapes::character_letter))]
fn character_letter(byte: u8) -> Option<u32>
    ensures { result ≡ character_letter byte }
{
    match byte {
        b'a' => Some(0x07),
        b'e' => Some(0x1B),
        b'f' => Some(0x0C),
        b'n' => Some(0x0A),
        b'r' => Some(0x0D),
        b't' => Some(0x09),
        _ => None,
    }
}

/// The construct of a letter that isn't supported.
#[tactic(auto, unfolding(crate::specs::Escapes::construct_letter))]
pub(crate) fn construct_letter(byte: u8) -> Option<Construct>
    ensures { result ≡ construct_letter byte }
{
    match byte {
        b'R' => Some(Construct::NewlineSequence),
        b'C' => Some(Construct::AnyByte),
        b'K' => Some(Construct::Keep),
        b'N' => Some(Construct::NotNewline),
        b'X' => Some(Construct::Grapheme),
        b'G' => Some(Construct::MatchStart),
        _ => None,
    }
}

/// The assertion of a letter.
#[tactic(auto, unfolding(crate::specs::Escapes::assertion_letter))]
pub(crate) fn assertion_letter(byte: u8) -> Option<Assertion>
    ensures { result ≡ assertion_letter byte }
{
    match byte {
        b'A' => Some(Assertion::StreamStart),
        b'Z' => Some(Assertion::EndOrFinalNewline),
        b'z' => Some(Assertion::StreamEnd),
        b'b' => Some(Assertion::WordBoundary),
        b'B' => Some(Assertion::NotWordBoundary),
        _ => None,
    }
}

/// The control character of the byte behind a `\c`.
fn control_of(bytes: &[u8]) -> Escape
    ensures { result ≡ control_of (slice_get bytes.now 2) }
{
    let Some(byte) = bytes.get(2) else {
        return Escape::Refused(Wrong::Syntax);
    };
    if !matches!(*byte, 0x20..=0x7E) {
        return Escape::Refused(Wrong::Syntax);
    }
    Escape::Character(turned_over(byte.to_ascii_uppercase()) as u32, 3)
}

/// The byte with bit 40 turned over.
fn turned_over(byte: u8) -> u8
    requires { byte < 0x80 }
    ensures { result ≡ turned_over byte }
{
    if byte < 0x40 {
        byte + 0x40
    } else {
        byte - 0x40
    }
}

/// The character of a code.
fn coded(utf8: bool, code: u32, length: usize) -> Escape
    ensures { result ≡ coded utf8 code length }
{
    if is_code(utf8, code) {
        Escape::Character(code, length)
    } else {
        Escape::Refused(Wrong::Syntax)
    }
}

/// The character of digits in braces.
#[tactic(auto, unfolding(crate::specs::Escapes::braced_at))]
fn braced_at(utf8: bool, radix: u32, bytes: &[u8]) -> Escape
    requires positive { 0 < radix }
    requires base { radix ≤ 16 }
    ensures { result ≡ braced_at utf8 radix bytes.now }
{
    if !is_byte_at(b'{', bytes, 2) {
        return Escape::Refused(Wrong::Syntax);
    }
    let number = number_at(radix, MAX_DIGITS, bytes, 3);
    if number.count > 0 && is_byte_at(b'}', bytes, number.count + 3) {
        coded(utf8, number.value, number.count + 4)
    } else {
        Escape::Refused(Wrong::Syntax)
    }
}

/// The character of up to two digits that stand behind a letter or a `0`.
#[tactic(auto, unfolding(crate::specs::Escapes::short_at))]
fn short_at(utf8: bool, radix: u32, bytes: &[u8]) -> Escape
    requires positive { 0 < radix }
    requires base { radix ≤ 16 }
    requires there { 2 ≤ length bytes.now }
    ensures { result ≡ short_at utf8 radix bytes.now }
{
    let number = number_at(radix, 2, bytes, 2);
    coded(utf8, number.value, number.count + 2)
}

/// What stands behind the backslash, by the byte there.
#[tactic(auto, unfolding(crate::specs::Escapes::escape_by))]
fn escape_by(utf8: bool, bytes: &[u8], byte: u8) -> Escape
    requires there { 2 ≤ length bytes.now }
    ensures { result ≡ escape_by utf8 bytes.now byte }
{
    match byte {
        b'c' => control_of(bytes),
        b'x' => hexadecimal_at(utf8, bytes),
        b'o' => braced_at(utf8, 8, bytes),
        b'0' => short_at(utf8, 8, bytes),
        b'1'..=b'9' | b'g' | b'k' => Escape::Refused(Wrong::Unsupported(Construct::Backreference)),
        b'p' | b'P' => Escape::Refused(Wrong::Unsupported(Construct::Property)),
        _ => letter_of(byte, character_of(utf8, &bytes[1..], byte)),
    }
}

/// The character of a `\x` and its digits.
fn hexadecimal_at(utf8: bool, bytes: &[u8]) -> Escape
    requires there { 2 ≤ length bytes.now }
    ensures { result ≡ hexadecimal_at utf8 bytes.now }
{
    if is_byte_at(b'{', bytes, 2) {
        braced_at(utf8, 16, bytes)
    } else {
        short_at(utf8, 16, bytes)
    }
}

/// What another byte behind a backslash means, by the character that begins there.
fn letter_of(byte: u8, itself: Option<(u32, usize)>) -> Escape
    requires { IfSome itself (λ character. character.1 ≤ 4) }
    ensures { result ≡ letter_of byte itself (character_letter byte) (named_letter byte) }
{
    if let Some(code) = character_letter(byte) {
        return Escape::Character(code, 2);
    }
    if let Some(class) = named_letter(byte) {
        return Escape::Class(class, byte.is_ascii_uppercase());
    }
    if byte.is_ascii_alphabetic() {
        return Escape::Other(byte);
    }
    itself_of(itself)
}

/// A character that stands for itself behind a backslash.
fn itself_of(character: Option<(u32, usize)>) -> Escape
    requires { IfSome character (λ character. character.1 ≤ 4) }
    ensures { result ≡ itself_of character }
{
    match character {
        Some((code, length)) => Escape::Character(code, length + 1),
        None => Escape::Refused(Wrong::IllFormed(1)),
    }
}

/// What stands behind the backslash that the bytes begin with.
#[tactic(auto, unfolding(crate::specs::Escapes::escape_at))]
pub(crate) fn escape_at(utf8: bool, bytes: &[u8]) -> Escape
    requires { 0 < length bytes.now }
    ensures { result ≡ escape_at utf8 bytes.now }
{
    match bytes.get(1) {
        None => Escape::Refused(Wrong::Syntax),
        Some(byte) => escape_by(utf8, bytes, *byte),
    }
}
