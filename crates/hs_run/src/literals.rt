//! Literals: whether one ends where a stream stands, and the bits of its entries.

ghost use Rattle.std.specs.Prelude.{◌≡◌, ◌↔◌, ℕ, ◌-◌, ◌*◌, ◌<◌, ◌≤◌, Bool, true, List, length, map};
ghost use Rattle.hs_base.specs.Bits.{has_bit};
ghost use Rattle.hs_base.specs.LiteralEnds.{EndsAt};
ghost use Rattle.hs_base.specs.LiteralRows.{shifted};
ghost use Rattle.hs_base.specs.LiteralView.{literal_byte};
ghost use Rattle.hs_run.specs.Pieces.{takes_all};
ghost use Rattle.hs_run.specs.Spots.{IsSpot};

use crate::spot::Spot;
use hs_base::LitByte;
use hs_bits::{contains_bit, write_bit};
use hs_layout::HISTORY_SIZE;

/// Whether the literal ends where the stream stands.
pub(crate) fn ends_here(literal: &[LitByte], spot: &Spot) -> bool
    requires { length literal.now ≤ 32 }
    ensures short { result ≡ true → length literal.now ≤ spot.now.at }
    ensures ends { (u : List ℕ) → IsSpot u spot.now → (result ≡ true) ↔
        EndsAt (map literal_byte literal.now) u (length u) }
{
    literal.len() as u64 <= spot.at
        && takes_all(literal, &spot.history[HISTORY_SIZE - literal.len()..])
}

/// Whether the literal ends where the stream stands, and was entered before its first byte, by the row of its entries.
pub(crate) fn is_completed(literal: &[LitByte], row: &[u8], spot: &Spot) -> bool
    requires some { 1 ≤ length literal.now }
    requires short { length literal.now ≤ 32 }
    requires row { length row.now ≡ 4 }
    ensures { (u : List ℕ) → IsSpot u spot.now → (result ≡ true) ↔
        ((has_bit row.now (length literal.now - 1) ≡ true) × EndsAt (map literal_byte literal.now) u (length u)) }
{
    contains_bit(row, literal.len() - 1) && ends_here(literal, spot)
}

/// Whether each place of the literal takes the byte that stands there.
fn takes_all(literal: &[LitByte], bytes: &[u8]) -> bool
    requires { length literal.now ≡ length bytes.now }
    ensures { result ≡ takes_all (map literal_byte literal.now) bytes.now }
{
    for at in 0..literal.len() {
        if !literal[at].contains(bytes[at]) {
            return false;
        }
    }
    true
}

/// Moves the bits of a literal of so many bytes by one, behind a byte before which it is entered or not.
pub(crate) fn shift_entries(row: &mut [u8], count: usize, enters: bool)
    requires room { count ≤ 8 * length row.old }
    ensures len { length row.new ≡ length row.old }
    ensures moved { (k : ℕ) → k < count → has_bit row.new k ≡ shifted count enters (has_bit row.old) k }
    ensures others { (k : ℕ) → count ≤ k → has_bit row.new k ≡ has_bit row.old k }
{
    let mut carried = enters;
    for k in 0..count {
        let moving = contains_bit(row, k);
        write_bit(row, k, carried);
        carried = moving;
    }
}
