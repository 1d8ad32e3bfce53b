//! The words of the tables of an automaton in which no context matters, made once.

ghost use Rattle.std.specs.Prelude.{◌≡◌, ℕ, ◌+◌, ◌*◌, ◌/◌, ◌%◌, ◌<◌, ◌≤◌, true, false, IfOk, IfSome, ◌&&◌, length};
ghost use Rattle.std.specs.Prelude.{slice_get, slice_index, vec_len};
ghost use Rattle.hs_base.specs.Contexts.{Context};
ghost use Rattle.hs_engine.specs.Automata.{in_mask, in_set};
ghost use Rattle.hs_engine.specs.Rows.{in_row};
ghost use Rattle.hs_limex.specs.Near.{IsNearFrom};
ghost use Rattle.hs_limex.specs.SingleWords.{is_set};
ghost use Rattle.hs_limex.specs.SmallWords.{AreWordsOf, IsWordOf, one_context};

use crate::far_filling::{DISTANCE_COUNT, is_near, may_follow};
use crate::single::{load, with_bit_if};
use hs_base::{ByteSet, Mask, Next, Prev};
use hs_bits::WORD_BITS;
use hs_engine::{Automaton, FollowRows};
use std::alloc::{AllocError, Global};

/// How many words the rows of all bytes take, times the bits of a row.
pub(crate) const REACH_WORDS: usize = 4;

/// How many bits a row of so many positions has: the least power of two.
pub(crate) fn pitch_for(size: usize) -> usize
    requires { size ≤ 64 }
    ensures some { 0 < result }
    ensures few { result ≤ 64 }
    ensures room { size ≤ result }
    ensures aligned { (b k : ℕ) → k < result → b * result % 64 + k < 64 }
{
    match size {
        0 | 1 => 1,
        2 => 2,
        3 | 4 => 4,
        5..=8 => 8,
        9..=16 => 16,
        17..=32 => 32,
        _ => 64,
    }
}

/// The positions whose mask has every context; None where the mask of one has some contexts alone.
pub(crate) fn common_word(masks: &[Mask]) -> Option<u64>
    requires { length masks.now ≤ 64 }
    ensures { IfSome result (λ word.
        (c : Context) (k : ℕ) → is_set word k ≡ in_mask (slice_get masks.now k) c) }
{
    let mut word = 0;
    for position in 0..masks.len() {
        let everywhere = in_all_contexts(masks, position)?;
        word = with_bit_if(word, position, everywhere);
    }
    Some(word)
}

/// Whether the mask of that number has every context, or none; None where it has some alone.
fn in_all_contexts(masks: &[Mask], number: usize) -> Option<bool>
    requires { number < length masks.now }
    ensures { IfSome result (λ everywhere.
        (c : Context) → in_mask (slice_get masks.now number) c ≡ everywhere) }
{
    if masks[number] == Mask::all() {
        Some(true)
    } else if masks[number] == Mask::empty() {
        Some(false)
    } else {
        None
    }
}

/// The positions that are followed by one that isn't near.
pub(crate) fn far_word(follows: &FollowRows) -> u64
    requires { follows.now.size ≤ 64 }
    ensures few { (x : ℕ) → is_set result x ≡ true → x < follows.now.size }
    ensures rest { (x y : ℕ) →
        in_row follows.now x y one_context ≡ true →
        is_set result x ≡ false →
        IsNearFrom x y }
{
    let mut word = 0;
    for position in 0..follows.size() {
        let wanted = !is_near(follows.row(Prev::Start, Next::Word, position), position);
        word = with_bit_if(word, position, wanted);
    }
    word
}

/// How many distances are used at which a position is near, from 0 on.
pub(crate) fn span_for(follows: &FollowRows) -> usize
    requires { follows.now.size ≤ 64 }
    ensures used { (d k : ℕ) → d < 8 → in_row follows.now k (k + d) one_context ≡ true → d < result }
    ensures few { result ≤ 8 }
{
    let mut span = 0;
    for distance in 0..DISTANCE_COUNT {
        if near_word(follows, distance) != 0 {
            span = distance + 1;
        }
    }
    span
}

/// The words of an automaton of at most 64 positions.
pub(crate) fn words_of(
    alloc: Global,
    automaton: &Automaton,
    pitch: usize,
    span: usize,
) -> Result<Vec<u64>, AllocError>
    requires size { vec_len automaton.now.sets ≤ 64 }
    requires pitch { 0 < pitch }
    requires narrow { pitch ≤ 64 }
    requires span { span ≤ 8 }
    ensures { IfOk result (λ words. AreWordsOf automaton.now pitch span words.items) }
{
    let mut words = vec![in alloc; 0u64; REACH_WORDS * pitch + span + automaton.size()]?;
    fill(automaton, pitch, span, &mut words);
    Ok(words)
}

/// Writes the words of an automaton of at most 64 positions.
fn fill(automaton: &Automaton, pitch: usize, span: usize, words: &mut [u64])
    requires size { vec_len automaton.now.sets ≤ 64 }
    requires pitch { 0 < pitch }
    requires narrow { pitch ≤ 64 }
    requires span { span ≤ 8 }
    requires len { length words.old ≡ 4 * pitch + span + vec_len automaton.now.sets }
    ensures { AreWordsOf automaton.now pitch span words.new }
{
    for number in 0..words.len() {
        words[number] = word_of(automaton, pitch, span, number);
    }
}

/// The word of that number.
fn word_of(automaton: &Automaton, pitch: usize, span: usize, number: usize) -> u64
    requires size { vec_len automaton.now.sets ≤ 64 }
    requires pitch { 0 < pitch }
    requires narrow { pitch ≤ 64 }
    requires span { span ≤ 8 }
    requires number { number < 4 * pitch + span + vec_len automaton.now.sets }
    ensures { IsWordOf automaton.now pitch span number result }
{
    let start = REACH_WORDS * pitch;
    if number < start {
        return reach_word(automaton.sets(), pitch, number);
    }
    if number < start + span {
        return near_word(automaton.follows(), number - start);
    }
    follow_word(automaton.follows(), number - start - span)
}

/// The word of that number of the rows of the positions by bytes.
fn reach_word(sets: &[ByteSet], pitch: usize, number: usize) -> u64
    requires pitch { 0 < pitch }
    requires narrow { pitch ≤ 64 }
    requires number { number < 4 * pitch }
    ensures { (i : ℕ) →
        i < 64 →
        is_set result i ≡ in_set (slice_get sets.now ((64 * number + i) % pitch)) ((64 * number + i) / pitch) }
{
    let mut word = 0;
    for bit in 0..WORD_BITS {
        let place = WORD_BITS * number + bit;
        word = with_bit_if(word, bit, takes(sets, place % pitch, place / pitch));
    }
    word
}

/// Whether there is a position of that number, and it takes the byte.
fn takes(sets: &[ByteSet], position: usize, byte: usize) -> bool
    requires { byte < 256 }
    ensures { result ≡ in_set (slice_get sets.now position) byte }
{
    match sets.get(position) {
        Some(set) => set.contains(byte as u8),
        None => false,
    }
}

/// The positions that are followed by the one so many places on.
fn near_word(follows: &FollowRows, distance: usize) -> u64
    requires size { follows.now.size ≤ 64 }
    requires distance { distance < 8 }
    ensures { (k : ℕ) → is_set result k ≡ in_row follows.now k (k + distance) one_context }
{
    let mut word = 0;
    for position in 0..follows.size() {
        let to = position + distance;
        let wanted = may_follow(follows, Prev::Start, Next::Word, position, to);
        word = with_bit_if(word, position, wanted);
    }
    word
}

/// The positions that follow that one.
fn follow_word(follows: &FollowRows, position: usize) -> u64
    requires size { follows.now.size ≤ 64 }
    requires position { position < follows.now.size }
    ensures { (k : ℕ) → is_set result k ≡ in_row follows.now position k one_context }
{
    load(follows.row(Prev::Start, Next::Word, position))
}
