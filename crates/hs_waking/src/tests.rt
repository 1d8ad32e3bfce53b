//! `fits` and `fit_places` beside the slow twin, the row of an automaton of two positions, and the rows of one with
//! alternatives.

ghost use Rattle.std.specs.Prelude.{◌≡◌, ℕ, ◌<◌, ◌≤◌, true, length, slice_index};
ghost use Rattle.hs_waking.specs.Fits.{IsBehindBy};

use crate::befores::behind_of;
use crate::beginning::Beginning;
use crate::chunk_places::Places;
use crate::class_words::{ClassWords, MAX_CHUNK};
use crate::fitting::{fit_places, fits};
use crate::plain::{fits_at, fits_plain, may_begin};
use crate::prev_set::PrevSet;
use crate::row_table::RowTable;
use crate::rows::{row_of, rows_of};
use crate::wake_row::WakeRow;
use hs_base::{Assertion, ByteSet, Mask, Prev};
use hs_bits::contains_word_bit;
use hs_engine::{Automaton, FollowRows};
use std::alloc::{AllocError, Global};
use std::test::Fail;

/// The sets of the rows.
const DIGIT: ByteSet = ByteSet::DIGITS;

const SPACE: ByteSet = ByteSet::SPACE;

const WORD: ByteSet = ByteSet::WORD;

const ANY: ByteSet = ByteSet::ALL;

const NONE: ByteSet = ByteSet::EMPTY;

const INNER: ByteSet = ByteSet::NOT_NEWLINE;
/// Rows of sets.
const ROWS: [&[ByteSet]; 10] = [
    &[],
    &[DIGIT],
    &[NONE],
    &[ANY, NONE],
    &[DIGIT, SPACE],
    &[SPACE, ANY, ANY, DIGIT],
    &[DIGIT, DIGIT, DIGIT, DIGIT, DIGIT],
    &[WORD, ANY, ANY, ANY, ANY, ANY, ANY, NONE],
    &[DIGIT, DIGIT, SPACE, SPACE, DIGIT, DIGIT, SPACE, SPACE],
    &[INNER, INNER, INNER, INNER, INNER, INNER, INNER, INNER],
];
/// What may stand before an offset.
const PREVS: [Prev; 4] = [Prev::Start, Prev::Word, Prev::Newline, Prev::Other];

/// Bytes of four kinds that follow no pattern.
fn mixed_text() -> [u8; MAX_CHUNK] {
    let mut text = [0; MAX_CHUNK];
    let mut state = 7u32;
    for byte in text.iter_mut() {
        state = state.wrapping_mul(1_664_525).wrapping_add(1_013_904_223);
        *byte = match state >> 30 {
            0 => b'7',
            1 => b' ',
            2 => b'\n',
            _ => b'x',
        };
    }
    text
}

/// Whether there are so many sets for the numbers of the row.
fn are_known(row: &[u16], count: usize) -> bool
    ensures { result ≡ true → (d : ℕ) → d < length row.now → slice_index row.now d < count }
{
    for number in row {
        if *number as usize >= count {
            return false;
        }
    }
    true
}

/// Whether the row has the number of the set of the bytes behind which it may begin.
fn is_begun(row: &WakeRow, sets: &[ByteSet]) -> bool
    ensures { result ≡ true → IsBehindBy row.now sets.now }
{
    if row.behind.is_all() {
        return true;
    }
    let number = row.behind_number as usize;
    number < sets.len() && sets[number] == row.behind.bytes()
}

/// Whether the places are those at which the row fits, byte by byte.
fn are_places(told: &Places, behind: PrevSet, row: &[ByteSet], prev: Prev, bytes: &[u8]) -> bool
    requires { length bytes.now ≤ 512 }
{
    for place in 0..bytes.len() {
        let here = may_begin(behind, prev, bytes, place) && fits_at(row, bytes, place);
        if contains_word_bit(told, place) != here {
            return false;
        }
    }
    true
}

/// Whether all tell the same of a row in a chunk behind `prev`.
fn agrees(
    alloc: Global,
    behind: PrevSet,
    row: &[ByteSet],
    prev: Prev,
    bytes: &[u8],
) -> Result<bool, AllocError>
    requires { length bytes.now ≤ 512 }
{
    let mut table = RowTable::new(alloc);
    table.push(&Beginning { behind, row })?;
    let count = table.sets.len();
    let Some(made) = table.rows.get(0) else {
        return Ok(false);
    };
    if count > 9 || !are_known(made.numbers(), count) || !is_begun(made, &table.sets) {
        return Ok(false);
    }
    let mut words = ClassWords::new(alloc, count)?;
    let told = fits(made, &table.sets, &mut words, prev, bytes);
    let places = fit_places(made, &table.sets, &mut words, prev, bytes);
    let same = are_places(&places, behind, row, prev, bytes);
    Ok(same && told == fits_plain(behind, row, prev, bytes))
}

/// Whether they do so of each row behind these, whatever stands before the chunk.
fn agree(alloc: Global, behind: PrevSet, bytes: &[u8]) -> Result<bool, AllocError>
    requires { length bytes.now ≤ 512 }
{
    for row in ROWS {
        for prev in PREVS {
            if !agrees(alloc, behind, row, prev, bytes)? {
                return Ok(false);
            }
        }
    }
    Ok(true)
}

#[test]
fn tells_what_its_slow_twin_tells(rt: HostRuntime) -> Result<(), Fail> {
    let text = mixed_text();
    let start = PrevSet::empty().with(Prev::Start, true);
    let line = start.with(Prev::Newline, true);
    for behind in [
        PrevSet::all(),
        start,
        line,
        line.with(Prev::Other, true),
        PrevSet::empty(),
    ] {
        for len in [512, 511, 65, 64, 63, 1, 0] {
            assert!(rt; agree(rt.alloc(), behind, &text[..len])?, "of {len} bytes");
            assert!(rt;
                agree(rt.alloc(), behind, &text[512 - len..])?,
                "of {len} bytes"
            );
        }
    }
    Ok(())
}

/// The automaton of two positions, a digit in a context of the mask and then a blank, that accepts behind the first one
/// too if `early` says so.
fn digit_and_blank(alloc: Global, mask: Mask, early: bool) -> Result<Automaton, AllocError> {
    let first = if early { Mask::all() } else { Mask::empty() };
    let mut follows = FollowRows::new(alloc, 2, false)?;
    follows.insert(0, 0, 1);
    Ok(Automaton::new(
        Vec::from_array(alloc, [ByteSet::DIGITS, ByteSet::SPACE])?,
        Vec::from_array(alloc, [mask, Mask::empty()])?,
        Vec::from_array(alloc, [first, Mask::all()])?,
        follows,
        Mask::empty(),
        false,
    ))
}

#[test]
fn a_row_ends_where_a_position_accepts(rt: HostRuntime) -> Result<(), Fail> {
    let both = row_of(
        rt.alloc(),
        &digit_and_blank(rt.alloc(), Mask::all(), false)?,
    )?;
    assert!(rt; both.as_slice() == [ByteSet::DIGITS, ByteSet::SPACE].as_slice());
    let one = row_of(rt.alloc(), &digit_and_blank(rt.alloc(), Mask::all(), true)?)?;
    assert!(rt; one.as_slice() == [ByteSet::DIGITS].as_slice());
    Ok(())
}

/// The set of two bytes.
fn either(one: u8, other: u8) -> ByteSet {
    ByteSet::of(one).union(&ByteSet::of(other))
}

/// The automaton of `(ab|c|c)[xy]+z`, with a position for each letter and for the class.
fn alternatives(alloc: Global) -> Result<Automaton, AllocError> {
    let (all, none) = (Mask::all(), Mask::empty());
    let mut follows = FollowRows::new(alloc, 6, false)?;
    follows.insert(0, 0, 1);
    follows.insert(0, 1, 4);
    follows.insert(0, 2, 4);
    follows.insert(0, 3, 4);
    follows.insert(0, 4, 4);
    follows.insert(0, 4, 5);
    Ok(Automaton::new(
        Vec::from_array(
            alloc,
            [
                ByteSet::of(b'a'),
                ByteSet::of(b'b'),
                ByteSet::of(b'c'),
                ByteSet::of(b'c'),
                either(b'x', b'y'),
                ByteSet::of(b'z'),
            ],
        )?,
        Vec::from_array(alloc, [all, none, all, all, none, none])?,
        Vec::from_array(alloc, [none, none, none, none, none, all])?,
        follows,
        none,
        false,
    ))
}

/// Whether these are its rows, that from c once.
fn are_of_alternatives(rows: &[Vec<ByteSet>]) -> bool {
    if rows.len() != 2 {
        return false;
    }
    let class = either(b'x', b'y');
    let last = class.union(&ByteSet::of(b'z'));
    let from_a = [ByteSet::of(b'a'), ByteSet::of(b'b'), class, last];
    let from_c = [ByteSet::of(b'c'), class, last];
    rows[0].as_slice() == from_a.as_slice() && rows[1].as_slice() == from_c.as_slice()
}

#[test]
fn each_alternative_has_its_row(rt: HostRuntime) -> Result<(), Fail> {
    let rows = rows_of(rt.alloc(), &alternatives(rt.alloc())?)?;
    assert!(rt; are_of_alternatives(&rows));
    Ok(())
}

/// The automaton of `(ab|cd|ef|gh)` with other bytes in place of the last three second ones.
fn pairs(alloc: Global, seconds: [u8; 3]) -> Result<Automaton, AllocError> {
    let (all, none) = (Mask::all(), Mask::empty());
    let mut follows = FollowRows::new(alloc, 8, false)?;
    follows.insert(0, 0, 4);
    follows.insert(0, 1, 5);
    follows.insert(0, 2, 6);
    follows.insert(0, 3, 7);
    Ok(Automaton::new(
        Vec::from_array(
            alloc,
            [
                ByteSet::of(b'a'),
                ByteSet::of(b'c'),
                ByteSet::of(b'e'),
                ByteSet::of(b'g'),
                ByteSet::of(b'b'),
                ByteSet::of(seconds[0]),
                ByteSet::of(seconds[1]),
                ByteSet::of(seconds[2]),
            ],
        )?,
        Vec::from_array(alloc, [all, all, all, all, none, none, none, none])?,
        Vec::from_array(alloc, [none, none, none, none, all, all, all, all])?,
        follows,
        none,
        false,
    ))
}

#[test]
fn alternatives_that_fit_as_often_together_have_one_row(rt: HostRuntime) -> Result<(), Fail> {
    let apart = rows_of(rt.alloc(), &pairs(rt.alloc(), *b"dfh")?)?;
    assert!(rt; apart.len() == 4);
    let alike = rows_of(rt.alloc(), &pairs(rt.alloc(), *b"bbb")?)?;
    assert!(rt; alike.len() == 1);
    Ok(())
}

#[test]
fn a_match_begins_where_its_context_lets_it(rt: HostRuntime) -> Result<(), Fail> {
    let anywhere = behind_of(&digit_and_blank(rt.alloc(), Mask::all(), false)?);
    assert!(rt; anywhere == PrevSet::all());
    let line = behind_of(&digit_and_blank(rt.alloc(), Mask::of(Assertion::LineStart), false)?);
    let line_start = PrevSet::empty()
        .with(Prev::Start, true)
        .with(Prev::Newline, true);
    assert!(rt; line == line_start);
    let boundary = Mask::of(Assertion::WordBoundary);
    let number = behind_of(&digit_and_blank(rt.alloc(), boundary, false)?);
    assert!(rt; number == line_start.with(Prev::Other, true));
    Ok(())
}
