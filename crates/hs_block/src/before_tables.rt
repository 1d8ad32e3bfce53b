//! Which positions may come before each other, as rows of bits.

ghost use Rattle.std.specs.Prelude.{◌≡◌, ◌≢◌, ℕ, ◌+◌, ◌*◌, ◌/◌, ◌%◌, ◌<◌, ◌≤◌, ◌++◌, ◌&&◌, ◌||◌, ◌==◌, not, IfOk};
ghost use Rattle.std.specs.Prelude.{true, false, List, length, slice_index, take, vec_len};
ghost use Rattle.hs_base.specs.Bits.{has_bit, has_word_bit, word_count};
ghost use Rattle.hs_base.specs.Contexts.{next_number, prev_number};
ghost use Rattle.hs_engine.specs.RowSizes.{class_number, row_len, square_count};
ghost use Rattle.hs_base.specs.declared.context.Prev.{Prev};
ghost use Rattle.hs_engine.specs.Rows.{in_square, square_number};
ghost use Rattle.hs_bits.specs.BlockContexts.{AreContexts, context_before};
ghost use Rattle.hs_bits.specs.WordBits.{word_bit};
ghost use Rattle.hs_block.specs.StreamSets.{AreSquares, RowsFit, in_rows};

use hs_base::{Next, NextSet, Prev};
use hs_bits::{
    BYTE_BITS, Contexts, WORD_BITS, contains_bit, contains_word_bit, is_unset, put_word_bit,
    unite_bytes, with_place, word_count_for, write_word_bit,
};
use hs_engine::{CLASS_COUNT, FollowRows};
use std::alloc::{AllocError, Global};

/// How many words a row has that has a bit for each of as many positions as there may be.
pub(crate) const MAX_WIDTH: usize = 8;
/// Up to so many words a program for rows of just as many is made.
pub(crate) const EXACT_WIDTH: usize = 3;
/// How many contexts there are in which a byte comes next: each class of bytes behind each of the four `Prev`.
pub(crate) const SQUARES: usize = 12;

/// What stands before, by its number.
pub(crate) fn prev_of(number: usize) -> Prev
    requires { number < 4 }
    ensures { prev_number result ≡ number }
{
    match number {
        0 => Prev::Start,
        1 => Prev::Word,
        2 => Prev::Newline,
        _ => Prev::Other,
    }
}

/// A class of bytes, by its number.
pub(crate) fn class_of(number: usize) -> Next
    requires { number < 3 }
    ensures row { class_number result ≡ number }
    ensures class { next_number result ≡ number }
{
    match number {
        0 => Next::Word,
        1 => Next::Newline,
        _ => Next::Other,
    }
}

/// The places whose context, where the byte there comes next, has that number of the twelve.
#[inline(always)]
fn square_places(contexts: &Contexts, square: usize) -> u64
    requires { square < 12 }
    ensures { (prev : Prev) (bytes : List ℕ) → AreContexts contexts.now prev bytes → (i : ℕ) → i < length bytes →
        word_bit result i ≡ (square_number true (context_before prev bytes i) == square) }
{
    let class = NextSet::of(class_of(square % CLASS_COUNT));
    contexts.behind_prev(prev_of(square / CLASS_COUNT)) & contexts.among(class)
}

/// The same of each of the twelve.
pub(crate) fn places_by_square(contexts: &Contexts) -> [u64; SQUARES]
    ensures { (prev : Prev) (bytes : List ℕ) → AreContexts contexts.now prev bytes →
        AreSquares result prev bytes }
{
    [
        square_places(contexts, 0),
        square_places(contexts, 1),
        square_places(contexts, 2),
        square_places(contexts, 3),
        square_places(contexts, 4),
        square_places(contexts, 5),
        square_places(contexts, 6),
        square_places(contexts, 7),
        square_places(contexts, 8),
        square_places(contexts, 9),
        square_places(contexts, 10),
        square_places(contexts, 11),
    ]
}

/// The row of that number.
#[inline(always)]
pub(crate) fn row_at(rows: &[u64], width: usize, number: usize) -> &[u64]
    requires { width * number + width ≤ length rows.now }
    ensures len { length result.now ≡ width }
    ensures bits { (y : ℕ) → y < 64 * width → has_word_bit result.now y ≡ in_rows rows.now width number y }
{
    &rows[width * number..width * number + width]
}

/// The row of that number, of so many words; in a program for rows of one word that is known.
#[inline(always)]
pub(crate) fn row_in<const W: usize>(rows: &[u64], width: usize, number: usize) -> &[u64]
    requires fits { RowsFit width W }
    requires room { width * number + width ≤ length rows.now }
    ensures len { length result.now ≡ width }
    ensures bits { (y : ℕ) → y < 64 * width → has_word_bit result.now y ≡ in_rows rows.now width number y }
{
    row_at(rows, if W <= EXACT_WIDTH { W } else { width }, number)
}

/// Puts the first words of a row behind the rows.
fn push_row(rows: &mut Vec<u64>, row: &[u64], width: usize) -> Result<(), AllocError>
    requires { width ≤ length row.now }
    ensures { IfOk result (λ done. rows.new.items ≡ rows.old.items ++ take width row.now) }
{
    rows.extend_from_slice(&row[..width])?;
    Ok(())
}

/// The positions that may come behind one, in the contexts of a square.
fn square_row(follows: &FollowRows, square: usize, position: usize) -> &[u8]
    requires square { square < square_count follows.now.by_context }
    requires position { position < follows.now.size }
    ensures len { length result.now ≡ row_len follows.now.size }
    ensures bits { (y : ℕ) → has_bit result.now y ≡ in_square follows.now square position y }
{
    follows.row(
        prev_of(square / CLASS_COUNT),
        class_of(square % CLASS_COUNT),
        position,
    )
}

/// Whether the one position may follow the other, in the contexts of a square.
fn may_follow(follows: &FollowRows, square: usize, from: usize, to: usize) -> bool
    requires square { square < square_count follows.now.by_context }
    requires from { from < follows.now.size }
    ensures { result ≡ in_square follows.now square from to }
{
    let row = square_row(follows, square, from);
    to < BYTE_BITS * row.len() && contains_bit(row, to)
}

/// Whether the one position may follow the other in each context.
fn follows_always(follows: &FollowRows, from: usize, to: usize) -> bool
    requires { from < follows.now.size }
    ensures each { result ≡ true → (k : ℕ) → k < square_count follows.now.by_context →
        in_square follows.now k from to ≡ true }
    ensures one { follows.now.by_context ≡ false → result ≡ in_square follows.now 0 from to }
{
    for square in 0..follows.square_count() {
        if !may_follow(follows, square, from, to) {
            return false;
        }
    }
    true
}

/// Those that may come before a position in each context.
fn always_row(follows: &FollowRows, position: usize) -> [u64; MAX_WIDTH]
    requires few { follows.now.size ≤ 512 }
    ensures len { length result ≡ 8 }
    ensures each { (y k : ℕ) → has_word_bit result y ≡ true → k < square_count follows.now.by_context →
        in_square follows.now k y position ≡ true }
    ensures one { follows.now.by_context ≡ false → (y : ℕ) →
        has_word_bit result y ≡ in_square follows.now 0 y position }
{
    let mut row = [0u64; MAX_WIDTH];
    for from in 0..follows.size() {
        put_word_bit(&mut row, from, follows_always(follows, from, position));
    }
    row
}

/// Those that may come before a position in the contexts of a square, but for those that may in each.
fn rest_row(
    follows: &FollowRows,
    square: usize,
    position: usize,
    always: &[u64],
) -> [u64; MAX_WIDTH]
    requires few { follows.now.size ≤ 512 }
    requires square { square < square_count follows.now.by_context }
    requires always { follows.now.size ≤ 64 * length always.now }
    ensures len { length result ≡ 8 }
    ensures bits { (y : ℕ) →
        has_word_bit result y ≡ (in_square follows.now square y position && not (has_word_bit always.now y)) }
{
    let mut row = [0u64; MAX_WIDTH];
    for from in 0..follows.size() {
        let wanted = may_follow(follows, square, from, position) & !contains_word_bit(always, from);
        put_word_bit(&mut row, from, wanted);
    }
    row
}

/// Those that may come behind a position in some context, without itself.
fn successor_row(follows: &FollowRows, position: usize) -> [u64; MAX_WIDTH]
    requires few { follows.now.size ≤ 512 }
    requires position { position < follows.now.size }
    ensures len { length result ≡ 8 }
    ensures have { (k y : ℕ) → k < square_count follows.now.by_context → in_square follows.now k position y ≡ true →
        y ≢ position → has_word_bit result y ≡ true }
{
    let mut row = [0u64; MAX_WIDTH];
    for square in 0..follows.square_count() {
        unite_bytes(&mut row, square_row(follows, square, position));
    }
    write_word_bit(&mut row, position, false);
    row
}

/// For each position the row of those that may come before it in each context.
fn froms_of(alloc: Global, follows: &FollowRows, width: usize) -> Result<Vec<u64>, AllocError>
    requires few { follows.now.size ≤ 512 }
    requires wide { width ≡ word_count follows.now.size }
    ensures count { IfOk result (λ rows. vec_len rows ≡ width * follows.now.size) }
    ensures each { IfOk result (λ rows. (x y k : ℕ) → x < follows.now.size → y < 64 * width →
        in_rows rows.items width x y ≡ true → k < square_count follows.now.by_context →
        in_square follows.now k y x ≡ true) }
    ensures one { IfOk result (λ rows. follows.now.by_context ≡ false → (x y : ℕ) → x < follows.now.size →
        y < 64 * width → in_rows rows.items width x y ≡ in_square follows.now 0 y x) }
{
    let mut rows = Vec::new(alloc);
    for position in 0..follows.size() {
        push_row(&mut rows, &always_row(follows, position), width)?;
    }
    Ok(rows)
}

/// For each position and each square the row of those that may come before it there alone.
fn rests_of(
    alloc: Global,
    follows: &FollowRows,
    width: usize,
    froms: &[u64],
) -> Result<Vec<u64>, AllocError>
    requires few { follows.now.size ≤ 512 }
    requires wide { width ≡ word_count follows.now.size }
    requires by_context { follows.now.by_context ≡ true }
    requires froms { length froms.now ≡ width * follows.now.size }
    ensures count { IfOk result (λ rows. vec_len rows ≡ width * (12 * follows.now.size)) }
    ensures bits { IfOk result (λ rows. (x q y : ℕ) → x < follows.now.size → q < 12 → y < 64 * width →
        in_rows rows.items width (12 * x + q) y
        ≡ (in_square follows.now q y x && not (in_rows froms.now width x y))) }
{
    let mut rows = Vec::new(alloc);
    for number in 0..SQUARES * follows.size() {
        let position = number / SQUARES;
        let always = row_at(froms, width, position);
        let row = rest_row(follows, number % SQUARES, position, always);
        push_row(&mut rows, &row, width)?;
    }
    Ok(rows)
}

/// The squares in whose rows of a position a bit is set.
fn asked_squares(rests: &[u64], width: usize, position: usize) -> u64
    requires few { position < 512 }
    requires room { width * (12 * position) + width * 12 ≤ length rests.now }
    ensures few { (q : ℕ) → 12 ≤ q → word_bit result q ≡ false }
    ensures unasked { (q y : ℕ) → q < 12 → y < 64 * width → word_bit result q ≡ false →
        in_rows rests.now width (12 * position + q) y ≡ false }
{
    let mut squares = 0;
    for square in 0..SQUARES {
        let row = row_at(rests, width, SQUARES * position + square);
        squares = with_place(squares, square, !is_unset(row));
    }
    squares
}

/// For each position the squares in whose rows a bit is set.
fn asks_of(alloc: Global, rests: &[u64], width: usize, size: usize) -> Result<Vec<u64>, AllocError>
    requires few { size ≤ 512 }
    requires rests { length rests.now ≡ width * (12 * size) }
    ensures count { IfOk result (λ asks. vec_len asks ≡ size) }
    ensures few { IfOk result (λ asks. (x q : ℕ) → 12 ≤ q → word_bit (slice_index asks.items x) q ≡ false) }
    ensures unasked { IfOk result (λ asks. (x q y : ℕ) → x < size → q < 12 → y < 64 * width →
        word_bit (slice_index asks.items x) q ≡ false → in_rows rests.now width (12 * x + q) y ≡ false) }
{
    let mut asks = Vec::with_capacity(alloc, size)?;
    for position in 0..size {
        asks.push(asked_squares(rests, width, position))?;
    }
    Ok(asks)
}

/// For each position the row of those that may come behind it in some context, without itself.
fn successors_of(alloc: Global, follows: &FollowRows, width: usize) -> Result<Vec<u64>, AllocError>
    requires few { follows.now.size ≤ 512 }
    requires wide { width ≡ word_count follows.now.size }
    ensures count { IfOk result (λ rows. vec_len rows ≡ width * follows.now.size) }
    ensures have { IfOk result (λ rows. (x k y : ℕ) → x < follows.now.size → y < 64 * width →
        k < square_count follows.now.by_context → in_square follows.now k x y ≡ true → y ≢ x →
        in_rows rows.items width x y ≡ true) }
{
    let mut rows = Vec::new(alloc);
    for position in 0..follows.size() {
        push_row(&mut rows, &successor_row(follows, position), width)?;
    }
    Ok(rows)
}

/// Which positions may come before and behind each other.
#[derive(Drop)]
pub(crate) struct OrderTables {
    /// How many words a row has.
    pub width: usize,
    /// For each position the row of those that may come before it in each context.
    pub froms: Vec<u64>,
    /// For each position and each context in which a byte comes next the row of those that may come before it there,
    /// but not in each; none at all where contexts don't matter.
    pub rests: Vec<u64>,
    /// For each position the row of those that may come behind it in some context, without itself.
    pub successors: Vec<u64>,
    /// For each position a bit for each of these contexts in which others may come before it than in each.
    pub asks: Vec<u64>,
}

impl OrderTables {
    ghost use Rattle.hs_block.specs.StreamSets.{AreOrders};

    /// The tables of rows.
    pub(crate) fn build(alloc: Global, follows: &FollowRows) -> Result<OrderTables, AllocError>
        requires { follows.now.size ≤ 512 }
        ensures { IfOk result (λ tables. AreOrders follows.now tables.width tables.froms.items tables.rests.items
            tables.successors.items tables.asks.items) }
    {
        let width = word_count_for(follows.size());
        let froms = froms_of(alloc, follows, width)?;
        let successors = successors_of(alloc, follows, width)?;
        if follows.square_count() == 1 {
            let rests = Vec::new(alloc);
            let asks = vec![in alloc; 0u64; follows.size()]?;
            return Ok(OrderTables {
                width,
                froms,
                rests,
                successors,
                asks,
            });
        }
        let rests = rests_of(alloc, follows, width, &froms)?;
        let asks = asks_of(alloc, &rests, width, follows.size())?;
        Ok(OrderTables {
            width,
            froms,
            rests,
            successors,
            asks,
        })
    }
}
