//! Which positions those that are live lead to, by words.

ghost use Rattle.std.specs.Prelude.{◌≡◌, ℕ, ◌+◌, ◌*◌, ◌%◌, ◌<◌, ◌≤◌, Bool, true, ◌&&◌, ◌||◌, length};
ghost use Rattle.hs_engine.specs.AnyBelow.{any_below};
ghost use Rattle.hs_base.specs.Bits.{has_word_bit};
ghost use Rattle.hs_engine.specs.Between.{between};
ghost use Rattle.hs_limex.specs.WordTables.{RowsFit, in_table};
ghost use Rattle.hs_limex.specs.Leading.{far_leads, near_leads};

use crate::far_filling::DISTANCE_COUNT;
use crate::region_words::unite_region;
use crate::word_rows::{EXACT_WIDTH, MAX_WIDTH, WordRows};
use hs_base::{Next, Prev};
use hs_bits::{WORD_BITS, are_apart, lowest_bit, shift_in, without_lowest_bit};
use hs_engine::FollowRows;

/// How many rows there are of what follows near by.
const ROW_COUNT: usize = 192;

/// How many distances are used in the rows, from 0 on.
pub(crate) fn span_of(near: &WordRows) -> usize
    requires { near.now.count ≡ 192 }
    ensures used { (n k : ℕ) → n < 192 → in_table near.now n k ≡ true → n % 8 < result }
    ensures few { result ≤ 8 }
{
    let mut span = 0;
    for number in 0..ROW_COUNT {
        if number % DISTANCE_COUNT >= span && !has_no_bit(near.row_in::<MAX_WIDTH>(number)) {
            span = number % DISTANCE_COUNT + 1;
        }
    }
    span
}

/// Whether no bit is set.
fn has_no_bit(row: &[u64]) -> bool
    ensures { result ≡ true → (k : ℕ) → has_word_bit row.now k ≡ true → ⊥ }
{
    are_apart(row, row)
}

/// Sets the bits of the positions that follow near by those that are live, in the context of that number.
#[inline(always)]
pub(crate) fn lead_near<const W: usize>(
    near: &WordRows,
    span: usize,
    number: usize,
    live: &[u64],
    led: &mut [u64],
)
    requires fits { RowsFit near.now.width W }
    requires near { near.now.count ≡ 192 }
    requires span { span ≤ 8 }
    requires used { (n k : ℕ) → n < 192 → in_table near.now n k ≡ true → n % 8 < span }
    requires number { number < 24 }
    requires live { near.now.width ≤ length live.now }
    requires led { near.now.width ≤ length led.old }
    ensures len { length led.new ≡ length led.old }
    ensures bits { (k : ℕ) →
        has_word_bit led.new k ≡ (any_below span (near_leads near.now live.now number k) || has_word_bit led.old k) }
{
    for distance in 0..distances_in::<W>(span) {
        let row = near.row_in::<W>(DISTANCE_COUNT * number + distance);
        shift_in(live, row, distance, led);
    }
}

/// How many distances are looked at. In a program for rows of few words it is all that there are: it then knows by how
/// much each shift is.
#[inline(always)]
fn distances_in<const W: usize>(span: usize) -> usize
    requires { span ≤ 8 }
    ensures least { span ≤ result }
    ensures most { result ≤ 8 }
{
    if W <= EXACT_WIDTH {
        DISTANCE_COUNT
    } else {
        span
    }
}

/// Sets the bits of the positions that follow those that are live, of those in the row.
#[inline(always)]
pub(crate) fn lead_far(
    follows: &FollowRows,
    live: &[u64],
    far: &[u64],
    prev: Prev,
    next: Next,
    led: &mut [u64],
)
    requires few { (x : ℕ) → has_word_bit far.now x ≡ true → x < follows.now.size }
    requires live { length far.now ≤ length live.now }
    requires far { length far.now ≤ 8 }
    requires led { follows.now.size ≤ 64 * length led.old }
    ensures len { length led.new ≡ length led.old }
    ensures bits { (k : ℕ) →
        has_word_bit led.new k ≡
        (any_below (64 * length far.now)
        (far_leads follows.now live.now far.now (between prev next) k)
        || has_word_bit led.old k) }
{
    for place in 0..far.len() {
        lead_word(follows, live, far, place, prev, next, led);
    }
}

/// Sets the bits of the positions that follow those that are live, of those in one word of the row.
#[inline(always)]
fn lead_word(
    follows: &FollowRows,
    live: &[u64],
    far: &[u64],
    place: usize,
    prev: Prev,
    next: Next,
    led: &mut [u64],
)
    requires few { (x : ℕ) → has_word_bit far.now x ≡ true → x < follows.now.size }
    requires live { length far.now ≤ length live.now }
    requires far { length far.now ≤ 8 }
    requires place { place < length far.now }
    requires led { follows.now.size ≤ 64 * length led.old }
    ensures len { length led.new ≡ length led.old }
    ensures bits { (k : ℕ) (first : Bool) →
        has_word_bit led.old k ≡
        (any_below (64 * place) (far_leads follows.now live.now far.now (between prev next) k)
        || first) →
        has_word_bit led.new k ≡
        (any_below (64 * place + 64)
        (far_leads follows.now live.now far.now (between prev next) k)
        || first) }
{
    let mut left = live[place] & far[place];
    while left != 0 {
        let position = WORD_BITS * place + lowest_bit(left);
        unite_region(led, follows.row(prev, next, position));
        left = without_lowest_bit(left);
    }
}
