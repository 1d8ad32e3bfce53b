//! Whether an assertion holds at an offset.

ghost use Rattle.std.specs.Prelude.{◌≡◌, ◌+◌, ◌<◌, ◌≤◌, ◌≢◌, ◌⊎◌, ◌↔◌, length, IsTrue};
ghost use Rattle.hs_base.specs.Assertions.{line_feed, is_word, byte_before, byte_after, IsEnd, IsKnown, Holds};

use hs_base::{Assertion, LINE_FEED};

/// Whether the assertion holds at an offset of the stream.
pub fn holds(assertion: Assertion, stream: &[u8], ended: bool, at: usize) -> bool
    ensures { IsTrue result ↔ Holds stream.now ended assertion at }
{
    match assertion {
        Assertion::StreamStart => at == 0,
        Assertion::LineStart => is_line_start(stream, at),
        Assertion::LineEnd => is_before_line_feed(stream, at) || is_end(stream, ended, at),
        Assertion::EndOrFinalNewline => is_end(stream, ended, at)
            || is_final_newline(stream, ended, at),
        Assertion::StreamEnd => is_end(stream, ended, at),
        Assertion::WordBoundary => is_known(stream, ended, at) && !is_inside(stream, at),
        Assertion::NotWordBoundary => is_known(stream, ended, at) && is_inside(stream, at),
    }
}

fn before(stream: &[u8], at: usize) -> Option<u8>
    ensures { result ≡ byte_before stream.now at }
{
    if at == 0 {
        None
    } else {
        stream.get(at - 1).copied()
    }
}

fn after(stream: &[u8], at: usize) -> Option<u8>
    ensures { result ≡ byte_after stream.now at }
{
    stream.get(at).copied()
}

fn is_word_byte(byte: Option<u8>) -> bool
    ensures { result ≡ is_word byte }
{
    match byte {
        Some(byte) => {
            (65 <= byte && byte <= 90)
                || (97 <= byte && byte <= 122)
                || (48 <= byte && byte <= 57)
                || byte == 95
        }
        None => false,
    }
}

fn is_line_feed(byte: Option<u8>) -> bool
    ensures { IsTrue result ↔ (byte ≡ Some line_feed) }
{
    match byte {
        Some(byte) => byte == LINE_FEED,
        None => false,
    }
}

fn is_line_start(stream: &[u8], at: usize) -> bool
    ensures { IsTrue result ↔ ((at ≡ 0) ⊎ ((byte_before stream.now at ≡ Some line_feed) × (at < length stream.now))) }
{
    at == 0 || (is_line_feed(before(stream, at)) && at < stream.len())
}

fn is_before_line_feed(stream: &[u8], at: usize) -> bool
    ensures { IsTrue result ↔ (byte_after stream.now at ≡ Some line_feed) }
{
    is_line_feed(after(stream, at))
}

fn is_end(stream: &[u8], ended: bool, at: usize) -> bool
    ensures { IsTrue result ↔ IsEnd stream.now ended at }
{
    ended && at == stream.len()
}

fn is_final_newline(stream: &[u8], ended: bool, at: usize) -> bool
    ensures { IsTrue result ↔
        (IsTrue ended × (byte_after stream.now at ≡ Some line_feed) × (at + 1 ≡ length stream.now)) }
{
    ended && at < stream.len() && is_before_line_feed(stream, at) && at + 1 == stream.len()
}

fn is_known(stream: &[u8], ended: bool, at: usize) -> bool
    ensures { IsTrue result ↔ IsKnown stream.now ended at }
{
    at < stream.len() || is_end(stream, ended, at)
}

/// Whether both neighbours are word bytes, or neither is.
fn is_inside(stream: &[u8], at: usize) -> bool
    ensures { IsTrue result ↔ (is_word (byte_before stream.now at) ≡ is_word (byte_after stream.now at)) }
{
    is_word_byte(before(stream, at)) == is_word_byte(after(stream, at))
}
