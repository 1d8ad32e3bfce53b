//! Where a stream stands, by its offset and its last bytes.

ghost use Rattle.std.specs.Prelude.{◌≡◌, ◌-◌, ◌≤◌, ℕ, List, ◌++◌, drop, length, take};
ghost use Rattle.hs_base.specs.Literals.{LiteralByte};
ghost use Rattle.hs_base.specs.Regions.{history_size, last_bytes};
ghost use Rattle.hs_literals.specs.HitLaws.{ReachesBack};
ghost use Rattle.hs_nodes.specs.Blocks.{EndsBehind};
ghost use Rattle.hs_scan.specs.Past.{prev_from};

use hs_base::Prev;
use hs_layout::HISTORY_SIZE;

/// What stands before the next byte of a stream, where so many bytes have come and those are the last ones.
pub(crate) fn prev_of(at: u64, past: &[u8]) -> Prev
    requires { length past.now ≡ history_size }
    ensures { (u : List ℕ) → at ≡ length u → past.now ≡ last_bytes history_size u → EndsBehind u result at }
{
    prev_behind(at, past[HISTORY_SIZE - 1])
}

/// What stands before the next byte, where so many bytes have come and that was the last one.
fn prev_behind(at: u64, last: u8) -> Prev
    ensures { result ≡ prev_from at last }
{
    if at == 0 {
        Prev::Start
    } else {
        Prev::behind(last)
    }
}

/// The last bytes of a stream that has so many, without the zeros before its first one.
pub(crate) fn seen_of(at: u64, past: &[u8]) -> &[u8]
    requires { length past.now ≡ history_size }
    ensures { (u : List ℕ) (literal : List LiteralByte) → at ≡ length u → past.now ≡ last_bytes history_size u →
        length literal ≤ 32 → ReachesBack literal u result.now }
{
    let seen = at.min(HISTORY_SIZE as u64) as usize;
    &past[HISTORY_SIZE - seen..]
}

/// Moves the bytes so many places to the front, over the first ones.
fn shift_past(past: &mut [u8], count: usize)
    requires within { count ≤ length past.old }
    ensures len { length past.new ≡ length past.old }
    ensures front { take (length past.old - count) past.new ≡ drop count past.old }
{
    past.copy_within(count.., 0);
}

/// Puts bytes behind the last ones, of which the first ones go.
pub(crate) fn push_past(past: &mut [u8], bytes: &[u8])
    requires { length past.old ≡ history_size }
    ensures { past.new ≡ drop (length bytes.now) (past.old ++ bytes.now) }
{
    let count = bytes.len().min(HISTORY_SIZE);
    shift_past(past, count);
    past[HISTORY_SIZE - count..].copy_from_slice(&bytes[bytes.len() - count..]);
}
