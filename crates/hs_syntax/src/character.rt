//! Characters: single bytes, or in UTF-8 code points.
ghost use Rattle.std.specs.Prelude.{◌≡◌, ◌<◌, ◌≤◌, length, IfSome};
ghost use Rattle.hs_syntax.specs.Characters.{is_code, is_beyond_ascii, encoding_length, encoded, character_of};
ghost use Rattle.hs_syntax.specs.Characters.{ill_formed_of};

use std::str;

/// The length of the longest encodings, in bytes.
const MAX_ENCODING_LEN: usize = 4;

/// Whether the code is that of a character: of a byte, or in UTF-8 of a code point that is no surrogate.
pub(crate) fn is_code(utf8: bool, code: u32) -> bool
    ensures { result ≡ is_code utf8 code }
{
    if utf8 {
        matches!(code, 0..=0xD7FF | 0xE000..=0x10_FFFF)
    } else {
        code <= 0xFF
    }
}

/// Whether the byte isn't ASCII.
fn is_beyond_ascii(byte: u8) -> bool
    ensures { result ≡ is_beyond_ascii byte }
{
    byte >= 0x80
}

/// How many bytes an encoding has that begins with the byte.
fn encoding_length(byte: u8) -> usize
    ensures is { result ≡ encoding_length byte }
    ensures short { result ≤ MAX_ENCODING_LEN }
{
    if byte <= 0x7F {
        1
    } else if byte <= 0xDF {
        2
    } else if byte <= 0xEF {
        3
    } else {
        MAX_ENCODING_LEN
    }
}

/// The code point that so many bytes at the front encode, and their number.
fn encoded(bytes: &[u8], length: usize) -> Option<(u32, usize)>
    ensures is { result ≡ encoded bytes.now length }
    ensures as_long { IfSome result (λ character. character.1 ≡ length) }
{
    if length > bytes.len() {
        return None;
    }
    let Ok(encoding) = str::from_utf8(&bytes[..length]) else {
        return None;
    };
    match encoding.chars().next() {
        Some(character) => Some((character as u32, length)),
        None => None,
    }
}

/// The character that the bytes begin with, of which this is the first: its code, and how many bytes it has. `None`
/// where they begin no well-formed encoding.
pub(crate) fn character_of(utf8: bool, bytes: &[u8], byte: u8) -> Option<(u32, usize)>
    ensures is { result ≡ character_of utf8 bytes.now byte }
    ensures short { IfSome result (λ character. character.1 ≤ MAX_ENCODING_LEN) }
{
    if utf8 && is_beyond_ascii(byte) {
        encoded(bytes, encoding_length(byte))
    } else {
        Some((byte as u32, 1))
    }
}

/// The place of the first byte that begins no character, where there is one.
pub(crate) fn ill_formed_of(utf8: bool, bytes: &[u8]) -> Option<usize>
    ensures is { result ≡ ill_formed_of utf8 bytes.now }
    ensures within { IfSome result (λ place. place < length bytes.now) }
{
    if !utf8 {
        return None;
    }
    match str::from_utf8(bytes) {
        Ok(_) => None,
        Err(error) => Some(error.valid_up_to()),
    }
}
