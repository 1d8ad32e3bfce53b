//! Which bucket a literal goes into, and how wide a super-character is. The literals are put in order, by length and
//! then by their last bytes, so that those of a bucket are of like length and end alike. Each weighs the double of one
//! that has a byte more, up to eight, and every bucket gets an eighth of the weight: so short ones, which are found by
//! chance most often, are few in a bucket and don't spoil one of long ones.

ghost use Rattle.std.specs.Prelude.{◌≡◌, ◌≤◌, ◌<◌, ℕ, All, IfOk, length, vec_len};

use hs_base::{BUCKETS, LitByte};
use hs_fdr::{MAX_WIDTH, MIN_WIDTH, PLACES};
use std::alloc::{AllocError, Global};

/// Where a literal stands among the others: by length, as far as masks see it, and then by its last bytes.
#[derive(Clone, Copy, Debug, PartialEq, Eq, PartialOrd, Ord)]
struct Rank {
    /// The length, at most eight.
    length: usize,
    /// The last bytes, the last one first.
    ending: [u8; PLACES],
    /// The number of the literal.
    number: usize,
    ghost counted: { length ≤ 8 },
}

/// The width of a super-character for so many literals: the more there are, the more further bits tell them apart.
pub(crate) fn width_for(count: usize) -> u8
    ensures { (9 ≤ result) × (result ≤ 15) }
{
    match count {
        0..=7 => MIN_WIDTH,
        8..=31 => 10,
        32..=127 => 11,
        128..=511 => 12,
        512..=4095 => 13,
        4096..=16383 => 14,
        _ => MAX_WIDTH,
    }
}

/// The last bytes of a literal, the last one first.
fn ending_of(literal: &[LitByte]) -> [u8; PLACES] {
    let mut ending = [0; PLACES];
    for (slot, place) in ending.iter_mut().zip(literal.iter().rev()) {
        *slot = place.byte;
    }
    ending
}

/// The literals in order.
fn ranks_of(alloc: Global, literals: &[Vec<LitByte>]) -> Result<Vec<Rank>, AllocError>
    ensures { IfOk result (λ ranks. All (λ rank. rank.number < length literals.now) ranks.items) }
{
    let mut ranks = Vec::with_capacity(alloc, literals.len())?;
    for number in 0..literals.len() {
        let literal = literals[number].as_slice();
        ranks.push(Rank {
            length: literal.len().min(PLACES),
            ending: ending_of(literal),
            number,
        })?;
    }
    ranks.sort()?;
    Ok(ranks)
}

/// How much a literal of that length adds to the false alarms of its bucket: the double for each byte less.
fn weight_of(length: usize) -> u64
    requires { length ≤ 8 }
{
    1 << (PLACES - length)
}

/// What all of them weigh.
fn total_of(ranks: &[Rank]) -> u64 {
    let mut total = 0u64;
    for rank in ranks {
        total = total.saturating_add(weight_of(rank.length));
    }
    total
}

/// The bucket of each literal.
///
/// # Errors
///
/// There may be no memory.
pub(crate) fn buckets_of(alloc: Global, literals: &[Vec<LitByte>]) -> Result<Vec<u8>, AllocError>
    ensures one_each { IfOk result (λ buckets. vec_len buckets ≡ length literals.now) }
    ensures below { IfOk result (λ buckets. All (λ b. b < 8) buckets.items) }
{
    let ranks = ranks_of(alloc, literals)?;
    let total = total_of(ranks.as_slice()).max(1);
    let mut buckets = vec![in alloc; 0u8; literals.len()]?;
    let mut before = 0u64;
    for rank in ranks.iter() {
        let bucket = before.saturating_mul(BUCKETS as u64) / total;
        buckets[rank.number] = bucket.min(BUCKETS as u64 - 1) as u8;
        before = before.saturating_add(weight_of(rank.length));
    }
    Ok(buckets)
}
