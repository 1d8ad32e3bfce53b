//! Where the encodings of code points end.

ghost use Rattle.std.specs.Prelude.{◌≡◌, ℕ, ◌+◌, ◌<◌, ◌≤◌, ◌⊎◌, ◌↔◌, [], ◌∷◌, length, IfOk, IsTrue, MatchOption};
ghost use Rattle.hs_base.specs.Spans.{HasBytesAt, IsPointOf};
ghost use Rattle.hs_plain.specs.OffsetSets.{room, has, AreEnds, AddsOffsets};
ghost use Rattle.hs_plain.specs.Points.{IsCodePointAt};

use crate::offsets::Offsets;
use std::alloc::{AllocError, Global};

/// The last code point of Unicode.
const LAST_CODE_POINT: u32 = 0x10FFFF;

/// The ends of a code point of the ranges.
pub fn point_ends(
    alloc: Global,
    ranges: &[(u32, u32)],
    stream: &[u8],
    starts: &Offsets,
) -> Result<Offsets, AllocError>
    requires { room starts.now ≡ length stream.now + 1 }
    ensures { IfOk result (λ ends. AreEnds (IsPointOf ranges.now stream.now) starts.now ends) }
{
    let mut ends = Offsets::none(alloc, starts.room())?;
    for at in 0..starts.room() {
        if starts.contains(at) {
            add_points(ranges, stream, at, &mut ends);
        }
    }
    Ok(ends)
}

fn add_points(ranges: &[(u32, u32)], stream: &[u8], at: usize, ends: &mut Offsets)
    requires within { at ≤ length stream.now }
    requires size { room ends.old ≡ length stream.now + 1 }
    ensures { AddsOffsets (IsPointOf ranges.now stream.now at) ends.old ends.new }
{
    for i in 0..ranges.len() {
        let (first, last) = ranges[i];
        add_range(first, last, stream, at, ends);
    }
}

fn add_range(first: u32, last: u32, stream: &[u8], at: usize, ends: &mut Offsets)
    requires within { at ≤ length stream.now }
    requires size { room ends.old ≡ length stream.now + 1 }
    ensures { AddsOffsets (IsPointOf ((first, last) ∷ []) stream.now at) ends.old ends.new }
{
    for code_point in first..last.min(LAST_CODE_POINT) + 1 {
        add_code_point(code_point, stream, at, ends);
    }
}

fn add_code_point(code_point: u32, stream: &[u8], at: usize, ends: &mut Offsets)
    requires within { at ≤ length stream.now }
    requires size { room ends.old ≡ length stream.now + 1 }
    ensures { AddsOffsets (IsCodePointAt stream.now code_point at) ends.old ends.new }
{
    match encoded_end(code_point, stream, at) {
        Some(end) => ends.insert(end),
        None => (),
    }
}

/// Where the encoding of the code point ends that stands at the offset.
fn encoded_end(code_point: u32, stream: &[u8], at: usize) -> Option<usize>
    requires { at ≤ length stream.now }
    ensures { MatchOption result
        ((j : ℕ) → ¬ IsCodePointAt stream.now code_point at j)
        (λ end. IsCodePointAt stream.now code_point at end) }
{
    let character = char::from_u32(code_point)?;
    let mut buffer = [0; 4];
    let text = character.encode_utf8(&mut buffer).as_bytes();
    if has_bytes(stream, at, text) {
        Some(at + text.len())
    } else {
        None
    }
}

fn has_bytes(stream: &[u8], at: usize, text: &[u8]) -> bool
    requires { at ≤ length stream.now }
    ensures { IsTrue result ↔ HasBytesAt stream.now at text.now }
{
    text.len() <= stream.len() - at && &stream[at..at + text.len()] == text
}
