//! The lines of a script, each of which is one command.
ghost use Rattle.std.specs.Prelude.{◌≡◌, ◌≢◌, ℕ, ◌^◌, ◌<◌, List, ◌≤◌, length, get_or, MatchOption, MatchBool, decimal};
ghost use Rattle.hs_text.specs.ReplyLines.{verb_text};
ghost use Rattle.hs_base.specs.Lists.{Each};
ghost use Rattle.hs_text.specs.Commands.{IsNameByte, IsFirstByte, IsName, IsFileName, Order, IsCommand, ordered};
ghost use Rattle.hs_text.specs.CommandParts.{AreOperands, HasFileParts, HasParts};

use crate::commands::{Command, Verb};
use crate::cut::cut_at_first;
use crate::number::number_of;
use crate::reply_lines::verb_bytes;
use crate::report_lines::NAME_LEN;
use hs_base::MAX_OFFSET;

/// How many digits the number of bytes of a write has at most.
const MAX_COUNT_DIGITS: usize = 20;

/// The greatest length in bytes of the name of a file.
const FILE_LEN: usize = 64;

/// The command that a line is, which ends before its line feed. There is none exactly where the line isn't a command.
pub fn command<'a>(line: &'a [u8]) -> Option<Command<'a>>
    ensures { MatchOption result
        ((order : Order) → IsCommand line.now order → ⊥)
        (λ command. IsCommand line.now (ordered command)) }
{
    let Some((word, operands)) = cut_at_first(line, b' ') else {
        return None;
    };
    let Some(verb) = verb_of(word) else {
        return None;
    };
    with_operands(verb, operands)
}

/// The command of a word.
fn verb_of(word: &[u8]) -> Option<Verb>
    ensures { MatchOption result
        ((verb : Verb) → word.now ≢ verb_text verb)
        (λ verb. word.now ≡ verb_text verb) }
{
    if word == verb_bytes(Verb::Open) {
        Some(Verb::Open)
    } else if word == verb_bytes(Verb::Write) {
        Some(Verb::Write)
    } else if word == verb_bytes(Verb::Reset) {
        Some(Verb::Reset)
    } else if word == verb_bytes(Verb::Close) {
        Some(Verb::Close)
    } else if word == verb_bytes(Verb::Save) {
        Some(Verb::Save)
    } else if word == verb_bytes(Verb::Expand) {
        Some(Verb::Expand)
    } else {
        None
    }
}

/// The command of this word with what stands behind it.
fn with_operands<'a>(verb: Verb, operands: &'a [u8]) -> Option<Command<'a>>
    ensures { MatchOption result
        ((order : Order) → AreOperands verb operands.now order → ⊥)
        (λ command. AreOperands verb operands.now (ordered command)) }
{
    match verb {
        Verb::Open => Some(Command::Open(name_of(operands)?)),
        Verb::Write => {
            let (name, count) = name_and_count(operands)?;
            Some(Command::Write(name, count))
        }
        Verb::Reset => Some(Command::Reset(name_of(operands)?)),
        Verb::Close => Some(Command::Close(name_of(operands)?)),
        Verb::Save => {
            let (name, file) = name_and_file(operands)?;
            Some(Command::Save(name, file))
        }
        Verb::Expand => {
            let (name, file) = name_and_file(operands)?;
            Some(Command::Expand(name, file))
        }
    }
}

/// The bytes, where they are a stream's name.
fn name_of(bytes: &[u8]) -> Option<&[u8]>
    ensures { MatchOption result (IsName bytes.now → ⊥) (λ name. (name.now ≡ bytes.now) × IsName bytes.now) }
{
    if is_name(bytes) { Some(bytes) } else { None }
}

/// The name and the number of bytes behind the word of a write.
fn name_and_count(operands: &[u8]) -> Option<(&[u8], u64)>
    ensures { MatchOption result
        ((name : List ℕ) (count : ℕ) → HasParts operands.now name count → ⊥)
        (λ parts. HasParts operands.now parts.0.now parts.1) }
{
    let Some((name, digits)) = cut_at_first(operands, b' ') else {
        return None;
    };
    if !is_name(name) {
        return None;
    }
    match count_of(digits) {
        None => None,
        Some(count) => Some((name, count)),
    }
}

/// The name of the stream and that of the file behind the word of a save or of an expansion.
fn name_and_file(operands: &[u8]) -> Option<(&[u8], &[u8])>
    ensures { MatchOption result
        ((name : List ℕ) (file : List ℕ) → HasFileParts operands.now name file → ⊥)
        (λ parts. HasFileParts operands.now parts.0.now parts.1.now) }
{
    let Some((name, file)) = cut_at_first(operands, b' ') else {
        return None;
    };
    if !is_name(name) {
        return None;
    }
    if !is_file_name(file) {
        return None;
    }
    Some((name, file))
}

/// Whether the bytes are the name of a file.
fn is_file_name(bytes: &[u8]) -> bool
    ensures { MatchBool result (IsFileName bytes.now) (IsFileName bytes.now → ⊥) }
{
    if bytes.is_empty() || bytes.len() > FILE_LEN {
        return false;
    }
    is_first_byte(bytes[0]) && are_name_bytes(bytes)
}

/// Whether the name of a file may begin with the byte.
fn is_first_byte(byte: u8) -> bool
    ensures { MatchBool result (IsFirstByte byte) (IsFirstByte byte → ⊥) }
{
    matches!(byte, b'A'..=b'Z' | b'a'..=b'z' | b'0'..=b'9' | b'_')
}

/// Whether the bytes are the name of a stream.
fn is_name(bytes: &[u8]) -> bool
    ensures { MatchBool result (IsName bytes.now) (IsName bytes.now → ⊥) }
{
    !bytes.is_empty() && bytes.len() <= NAME_LEN && are_name_bytes(bytes)
}

/// Whether each byte may stand in a name.
fn are_name_bytes(bytes: &[u8]) -> bool
    ensures { MatchBool result (Each IsNameByte bytes.now) (Each IsNameByte bytes.now → ⊥) }
{
    for byte in bytes {
        if !is_name_byte(*byte) {
            return false;
        }
    }
    true
}

/// Whether the byte may stand in a name.
fn is_name_byte(byte: u8) -> bool
    ensures { MatchBool result (IsNameByte byte) (IsNameByte byte → ⊥) }
{
    matches!(byte, b'A'..=b'Z' | b'a'..=b'z' | b'0'..=b'9' | b'_' | b'.' | b'-')
}

/// The number below 2^63 that digits spell without a zero before it.
fn count_of(digits: &[u8]) -> Option<u64>
    ensures { MatchOption result
        ((count : ℕ) → count < 2 ^ 63 → digits.now ≢ decimal count)
        (λ count. (count < 2 ^ 63) × (digits.now ≡ decimal count)) }
{
    if has_zero_before(digits) {
        return None;
    }
    let Some(count) = number_of(digits, MAX_COUNT_DIGITS) else {
        return None;
    };
    if count > MAX_OFFSET {
        None
    } else {
        Some(count)
    }
}

/// Whether a zero stands before other digits.
fn has_zero_before(digits: &[u8]) -> bool
    ensures { MatchBool result
        ((1 < length digits.now) × (get_or digits.now 0 0 ≡ 48))
        (get_or digits.now 0 0 ≡ 48 → length digits.now ≤ 1) }
{
    digits.len() > 1 && digits[0] == b'0'
}
