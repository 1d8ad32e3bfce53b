//! The sets of positions, each once.

ghost use Rattle.std.specs.Prelude.{◌≡◌, ℕ, ◌+◌, ◌<◌, ◌≤◌, true, Some, IfOk, IfSome, length, slice_get, vec_len};
ghost use Rattle.hs_base.specs.ByteSets.{has};
ghost use Rattle.hs_engine.specs.Automata.{in_mask, in_set};
ghost use Rattle.hs_block.specs.StreamSets.{AreSetTables};

use hs_base::ByteSet;
use std::alloc::{AllocError, Global};

/// The tables of sets.
#[derive(Drop)]
pub(crate) struct SetTables {
    /// The sets, each once, behind that of the first bytes.
    pub sets: Vec<ByteSet>,
    /// For each position the number of its set.
    pub numbers: Vec<usize>,
}

impl SetTables {
    /// The tables of the sets of positions, and first of the bytes with which a match may begin.
    pub(crate) fn build(
        alloc: Global,
        first: &ByteSet,
        given: &[ByteSet],
    ) -> Result<SetTables, AllocError>
        requires { length given.now ≤ 512 }
        ensures tables { IfOk result (λ tables.
            AreSetTables tables.sets.items tables.numbers.items first.now given.now) }
        ensures count { IfOk result (λ tables. vec_len tables.numbers ≡ length given.now) }
    {
        let mut sets = Vec::new(alloc);
        number_of(&mut sets, first)?;
        let mut numbers = Vec::new(alloc);
        for position in 0..given.len() {
            let number = number_of(&mut sets, &given[position])?;
            numbers.push(number)?;
        }
        Ok(SetTables { sets, numbers })
    }
}

/// The number of the set among those that are kept: it is put behind them where none is equal.
fn number_of(kept: &mut Vec<ByteSet>, set: &ByteSet) -> Result<usize, AllocError>
    requires { vec_len kept.old ≤ 512 }
    ensures within { IfOk result (λ number. number < vec_len kept.new) }
    ensures few { IfOk result (λ number. vec_len kept.new ≤ vec_len kept.old + 1) }
    ensures more { IfOk result (λ number. vec_len kept.old ≤ vec_len kept.new) }
    ensures stay { IfOk result (λ number. (k : ℕ) → k < vec_len kept.old →
        slice_get kept.new.items k ≡ slice_get kept.old.items k) }
    ensures members { IfOk result (λ number. (b : ℕ) → b < 256 →
        in_set (slice_get kept.new.items number) b ≡ has set.now b) }
{
    if let Some(number) = find(kept, set) {
        return Ok(number);
    }
    let number = kept.len();
    kept.push(*set)?;
    Ok(number)
}

/// The number of an equal set among those that are kept.
fn find(kept: &[ByteSet], set: &ByteSet) -> Option<usize>
    ensures { IfSome result (λ number. slice_get kept.now number ≡ Some set.now) }
{
    for number in 0..kept.len() {
        if kept[number] == *set {
            return Some(number);
        }
    }
    None
}
