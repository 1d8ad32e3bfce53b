//! The engine that goes through the positions one by one: it keeps one bit for each position that is reached.

ghost use Rattle.std.specs.Prelude.{◌≡◌, ◌↔◌, ℕ, ◌+◌, ◌*◌, ◌/◌, ◌^◌, ◌<◌, ◌≤◌, Bool, true, false, ◌&&◌, ◌||◌, ◌==◌};
ghost use Rattle.std.specs.Prelude.{nat_lt, length, vec_len, IsTrue, IfOk, slice_get};
ghost use Rattle.hs_base.specs.declared.context.Next.{Next};
ghost use Rattle.hs_base.specs.Contexts.{Context};
ghost use Rattle.hs_base.specs.ContextSets.{has_context, has_next};
ghost use Rattle.hs_base.specs.ByteSets.{has};
ghost use Rattle.hs_engine.specs.Automata.{in_mask, in_set};
ghost use Rattle.hs_base.specs.Bits.{AreZero, has_bit};
ghost use Rattle.hs_engine.specs.RowSizes.{row_len};
ghost use Rattle.hs_engine.specs.AnyBelow.{any_below};
ghost use Rattle.hs_engine.specs.Tables.{AreFirst, IsClearFrom, is_moved, leads_to};
ghost use Rattle.hs_engine.specs.Between.{between};

use hs_base::{ByteSet, MAX_POSITIONS, Mask, Next, NextSet, Prev};
use hs_bits::{BYTE_BITS, clear_bits, contains_bit, has_bit_in, insert_bit, is_zero, unite_bits};
use hs_engine::{Automaton, Engine, FollowRows, Steps, first_bytes};
use hs_limex::is_clear_from;
use std::alloc::{AllocError, Global};
use std::sync::ledger::Ledger;

/// The bytes that hold a bit for each of the most positions.
const MAX_REGION_LEN: usize = MAX_POSITIONS as usize / BYTE_BITS;

/// Runs a position automaton, one position after the other.
#[derive(Debug, Drop)]
pub struct Plain {
    automaton: Automaton,
    /// The bytes that positions take which may be entered: any other byte leads nowhere from a region at rest.
    first: ByteSet,
    ghost begins: { AreFirst automaton first },
}

impl Plain {
    ghost use Rattle.hs_base.specs.Trees.{Tree};
    ghost use Rattle.hs_engine.specs.Tables.{IsCopy, Runs};
    ghost use Rattle.hs_nfa.specs.PlainEngines.{automaton_of, meaning_of_plain};

    /// The engine of an automaton.
    pub fn new(automaton: Automaton) -> Plain
        ensures of { automaton_of result ≡ automaton }
        ensures width { (meaning_of_plain result).width ≤ 64 }
    {
        let first = first_bytes(automaton.sets(), automaton.enters());
        Plain { automaton, first }
    }

    /// The engine of an automaton, whose tables it copies.
    pub fn build(alloc: Global, automaton: &Automaton) -> Result<Plain, AllocError>
        ensures copied { IfOk result (λ plain. IsCopy (automaton_of plain) automaton.now) }
        ensures runs { IfOk result (λ plain. (tree : Tree) → Runs automaton.now tree → Runs (automaton_of plain) tree) }
        ensures width { IfOk result (λ plain. (meaning_of_plain plain).width ≤ 64) }
    {
        Ok(Plain::new(automaton.copy(alloc)?))
    }
}

impl Engine for Plain {
    ghost use Rattle.hs_limex.specs.AutomatonMeanings.{automaton_meaning};

    ghost meaning = { λ e. automaton_meaning e.automaton };

    fn size(&self) -> usize {
        (self.automaton.size() + (BYTE_BITS - 1)) / BYTE_BITS
    }

    fn clear(&self, region: &mut [u8]) {
        clear_bits(region);
    }

    fn step<L: Ledger>(
        &self,
        region: &mut [u8],
        prev: Prev,
        _at: u64,
        enter: NextSet,
        byte: u8,
        steps: &mut Steps<L>,
    ) {
        steps.tick();
        let next = Next::class_of(byte);
        let entering = enter.contains(next);
        if self.stays_at_rest(region, entering, byte) {
            return;
        }
        let mut led = [0u8; MAX_REGION_LEN];
        follow(self.automaton.follows(), region, prev, next, &mut led);
        clear_bits(region);
        settle(&self.automaton, &led, prev, next, entering, byte, region);
    }

    fn out(&self, region: &[u8], prev: Prev, _at: u64) -> NextSet {
        if is_zero(region) {
            return NextSet::empty();
        }
        accepted(self.automaton.accepts(), region, prev)
    }

    fn at_rest(&self, region: &[u8]) -> bool {
        is_zero(region)
    }

    fn wakers(&self) -> &ByteSet {
        &self.first
    }

    fn well_formed(&self, region: &[u8], _at: u64) -> bool {
        is_clear_from(region, self.automaton.size())
    }
}

impl Plain {
    ghost use Rattle.hs_base.specs.ByteSets.{has};

    /// Whether the region is at rest and stays so over the byte.
    fn stays_at_rest(&self, region: &[u8], entering: bool, byte: u8) -> bool
        ensures zero { IsTrue result → AreZero region.now }
        ensures outside { IsTrue result → (entering && has self.now.first byte) ≡ false }
    {
        !(entering && self.first.contains(byte)) && is_zero(region)
    }
}

/// Sets the bits of the positions that may follow those whose bits are set in the region.
fn follow(follows: &FollowRows, region: &[u8], prev: Prev, next: Next, led: &mut [u8])
    requires clear { IsClearFrom region.now follows.now.size }
    requires short { length region.now ≤ 64 }
    requires room { row_len follows.now.size ≤ length led.old }
    ensures len { length led.new ≡ length led.old }
    ensures bits { (k : ℕ) →
        has_bit led.new k ≡
        (any_below (8 * length region.now) (leads_to follows.now region.now (between prev next) k)
        || has_bit led.old k) }
{
    for place in 0..region.len() {
        follow_byte(follows, region, place, prev, next, led);
    }
}

/// Sets the bits of the positions that may follow those whose bits are set in one byte of the region.
fn follow_byte(
    follows: &FollowRows,
    region: &[u8],
    place: usize,
    prev: Prev,
    next: Next,
    led: &mut [u8],
)
    requires clear { IsClearFrom region.now follows.now.size }
    requires short { length region.now ≤ 64 }
    requires place { place < length region.now }
    requires room { row_len follows.now.size ≤ length led.old }
    ensures len { length led.new ≡ length led.old }
    ensures bits { (k : ℕ) (first : Bool) →
        has_bit led.old k ≡
        (any_below (8 * place) (leads_to follows.now region.now (between prev next) k) || first) →
        has_bit led.new k ≡
        (any_below (8 * place + 8) (leads_to follows.now region.now (between prev next) k)
        || first) }
{
    if region[place] == 0 {
        return;
    }
    for position in BYTE_BITS * place..BYTE_BITS * place + BYTE_BITS {
        follow_one(follows, region, position, prev, next, led);
    }
}

/// Sets the bits of the positions that may follow that one, if its bit is set in the region.
fn follow_one(
    follows: &FollowRows,
    region: &[u8],
    position: usize,
    prev: Prev,
    next: Next,
    led: &mut [u8],
)
    requires clear { IsClearFrom region.now follows.now.size }
    requires position { position < 8 * length region.now }
    requires room { row_len follows.now.size ≤ length led.old }
    ensures len { length led.new ≡ length led.old }
    ensures bits { (k : ℕ) →
        has_bit led.new k ≡
        (leads_to follows.now region.now (between prev next) k position || has_bit led.old k) }
{
    if contains_bit(region, position) {
        unite_bits(led, follows.row(prev, next, position));
    }
}

/// Sets the bits of the positions that take the byte, of those to which another has led or which are entered.
fn settle(
    automaton: &Automaton,
    led: &[u8],
    prev: Prev,
    next: Next,
    entering: bool,
    byte: u8,
    region: &mut [u8],
)
    requires zero { AreZero region.old }
    requires led { vec_len automaton.now.sets ≤ 8 * length led.now }
    requires room { vec_len automaton.now.sets ≤ 8 * length region.old }
    ensures len { length region.new ≡ length region.old }
    ensures bits { (k : ℕ) →
        has_bit region.new k ≡
        (nat_lt k (vec_len automaton.now.sets)
        && is_moved automaton.now led.now (between prev next) entering byte k) }
    ensures stays { ((k : ℕ) →
        is_moved automaton.now led.now (between prev next) entering byte k ≡ false) →
        region.new ≡ region.old }
{
    for position in 0..automaton.size() {
        settle_one(automaton, led, position, prev, next, entering, byte, region);
    }
}

/// Sets the bit of the position, if the byte leads to it.
fn settle_one(
    automaton: &Automaton,
    led: &[u8],
    position: usize,
    prev: Prev,
    next: Next,
    entering: bool,
    byte: u8,
    region: &mut [u8],
)
    requires position { position < vec_len automaton.now.sets }
    requires led { position < 8 * length led.now }
    requires room { position < 8 * length region.old }
    ensures len { length region.new ≡ length region.old }
    ensures bits { (k : ℕ) →
        has_bit region.new k ≡
        (((k == position) && is_moved automaton.now led.now
        (between prev next) entering byte position)
        || has_bit region.old k) }
    ensures stays { is_moved automaton.now led.now (between prev next) entering byte position ≡ false →
        region.new ≡ region.old }
{
    if leads(automaton, led, position, prev, next, entering, byte) {
        insert_bit(region, position);
    }
}

/// Whether the byte leads to the position.
fn leads(
    automaton: &Automaton,
    led: &[u8],
    position: usize,
    prev: Prev,
    next: Next,
    entering: bool,
    byte: u8,
) -> bool
    requires position { position < vec_len automaton.now.sets }
    requires led { position < 8 * length led.now }
    ensures { result ≡ is_moved automaton.now led.now (between prev next) entering byte position }
{
    let entered = entering && mask_contains(automaton.enters(), position, prev, next);
    (contains_bit(led, position) || entered) && set_contains(automaton.sets(), position, byte)
}

/// Whether the mask of that number has the context.
fn mask_contains(masks: &[Mask], number: usize, prev: Prev, next: Next) -> bool
    requires { number < length masks.now }
    ensures { result ≡ in_mask (slice_get masks.now number) (between prev next) }
{
    masks[number].contains(prev, next)
}

/// Whether the set of that number has the byte.
fn set_contains(sets: &[ByteSet], number: usize, byte: u8) -> bool
    requires { number < length sets.now }
    ensures { result ≡ in_set (slice_get sets.now number) byte }
{
    sets[number].contains(byte)
}

/// What may come next where a position whose bit is set accepts.
fn accepted(accepts: &[Mask], region: &[u8], prev: Prev) -> NextSet
    requires { length accepts.now ≤ 8 * length region.now }
    ensures sound { (next : Next) →
        has_next result next ≡ true →
        (x : ℕ) × (has_bit region.now x ≡ true)
        × (in_mask (slice_get accepts.now x) (between prev next) ≡ true) }
    ensures whole { (next : Next) (x : ℕ) →
        has_bit region.now x ≡ true →
        in_mask (slice_get accepts.now x) (between prev next) ≡ true →
        has_next result next ≡ true }
{
    let mut all = NextSet::empty();
    for position in 0..accepts.len() {
        all = all.union(accepted_at(accepts, position, region, prev));
    }
    all
}

/// What may come next where that position accepts, if its bit is set.
fn accepted_at(accepts: &[Mask], position: usize, region: &[u8], prev: Prev) -> NextSet
    requires position { position < length accepts.now }
    requires room { position < 8 * length region.now }
    ensures { (next : Next) →
        has_next result next ≡
        (has_bit region.now position
        && in_mask (slice_get accepts.now position) (between prev next)) }
{
    if contains_bit(region, position) {
        accepts[position].row(prev)
    } else {
        NextSet::empty()
    }
}
