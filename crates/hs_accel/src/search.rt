//! The search, by the fastest way for the set.

ghost use Rattle.std.specs.Prelude.{◌≡◌, ◌≤◌, ◌<◌, ◌+◌, ◌^◌, ℕ, length, IfSome};
ghost use Rattle.std.specs.Option.{option_map};
ghost use Rattle.hs_base.specs.ByteSets.{has};
ghost use Rattle.hs_accel.specs.Places.{IsLeastPlace, IsFirstOf};

use crate::few::{Few, few_of};
use hs_base::ByteSet;
use hs_bits::{WORD_BITS, lowest_bit, member_places};
use memchr::{memchr, memchr2, memchr3};

/// How many bytes are looked at one by one before the set is looked through: a hit is often near.
const NEAR: usize = 64;

/// The least place at or after `from` that holds a byte of the set; None exactly where there is none.
pub fn next_in(set: &ByteSet, bytes: &[u8], from: usize) -> Option<usize>
    ensures { IsLeastPlace (has set.now) bytes.now from result }
{
    if bytes.len() <= from {
        return None;
    }
    let near = from + (bytes.len() - from).min(NEAR);
    match first_plain(set, bytes, from, near) {
        Some(at) => Some(at),
        None => far(set, bytes, near),
    }
}

/// The least place at or after `from`, by the fastest way for the set.
fn far(set: &ByteSet, bytes: &[u8], from: usize) -> Option<usize>
    requires { from ≤ length bytes.now }
    ensures { IsLeastPlace (has set.now) bytes.now from result }
{
    let rest = &bytes[from..];
    match few_of(set) {
        Few::Never => None,
        Few::One(first) => behind(memchr(first, rest), rest, from),
        Few::Two(first, second) => behind(memchr2(first, second, rest), rest, from),
        Few::Three(first, second, third) => {
            behind(memchr3(first, second, third, rest), rest, from)
        }
        Few::Many => first_by_blocks(set, bytes, from),
    }
}

/// A place of the rest of a text behind its first `start` bytes, counted from the first byte of the text.
fn behind(place: Option<usize>, rest: &[u8], start: usize) -> Option<usize>
    requires within { IfSome place (λ at. at < length rest.now) }
    requires fits { start + length rest.now < 2 ^ 64 }
    ensures { result ≡ option_map (λ at. start + at) place }
{
    place.map(|at| start + at)
}

/// The least place at or after `from`, by up to 64 bytes at a time.
fn first_by_blocks(set: &ByteSet, bytes: &[u8], from: usize) -> Option<usize>
    requires { from ≤ length bytes.now }
    ensures { IsLeastPlace (has set.now) bytes.now from result }
{
    let mut at = from;
    while at < bytes.len() {
        let end = at + (bytes.len() - at).min(WORD_BITS);
        let places = member_places(set, &bytes[at..end]);
        if places != 0 {
            return Some(at + lowest_bit(places));
        }
        at = end;
    }
    None
}

/// The first place from one on and before another, byte by byte.
fn first_plain(set: &ByteSet, bytes: &[u8], from: usize, to: usize) -> Option<usize>
    requires { (from ≤ to) × (to ≤ length bytes.now) }
    ensures { IsFirstOf (has set.now) bytes.now from to result }
{
    for at in from..to {
        if set.contains(bytes[at]) {
            return Some(at);
        }
    }
    None
}
