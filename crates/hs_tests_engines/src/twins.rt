//! `Limex` beside its twin `Plain`, over automata that no expression has. It is `#[cfg(test)]`.
ghost use Rattle.std.specs.Prelude.{◌<◌, ◌^◌, length};

use crate::dfa::step_through;
use hs_base::{Assertion, ByteSet, Mask, Next, NextSet};
use hs_engine::{Automaton, Engine, FollowRows};
use hs_limex::Limex;
use hs_nfa::Plain;
use std::alloc::{AllocError, Global};
use std::marker::Brand;
use std::sync::ledger::Blank;
use std::test::Fail;

/// The mask of a number: of an assertion, of all contexts or of none.
fn mask_of(number: usize) -> Mask {
    match number % 10 {
        0 => Mask::of(Assertion::StreamStart),
        1 => Mask::of(Assertion::LineStart),
        2 => Mask::of(Assertion::LineEnd),
        3 => Mask::of(Assertion::EndOrFinalNewline),
        4 => Mask::of(Assertion::StreamEnd),
        5 => Mask::of(Assertion::WordBoundary),
        6 => Mask::of(Assertion::NotWordBoundary),
        7 => Mask::empty(),
        _ => Mask::all(),
    }
}

/// The set of a number.
fn set_of(number: usize) -> ByteSet {
    match number % 7 {
        0 => ByteSet::of(b'a'),
        1 => ByteSet::of(b'b'),
        2 => ByteSet::of(b'\n'),
        3 => ByteSet::WORD,
        4 => ByteSet::SPACE,
        5 => ByteSet::NOT_NEWLINE,
        _ => ByteSet::ALL,
    }
}

/// Lets the one position follow the other in the contexts of that square, where there are such.
fn link(rows: &mut FollowRows, square: usize, from: usize, to: usize) {
    if square < rows.square_count() && from < rows.size() && to < rows.size() {
        rows.insert(square, from, to);
    }
}

/// Lets each position be followed by the next one, and most of them by the one that far on, round the end.
fn fill_square(rows: &mut FollowRows, square: usize, step: usize) {
    let size = rows.size();
    for position in 0..size {
        if position % 3 != square % 3 {
            link(rows, square, position, position.wrapping_add(step) % size);
        }
        link(rows, square, position, (position + 1) % size);
    }
}

/// What follows what, in the contexts of each square, of at most 512 positions.
fn follows(alloc: Global, size: usize, step: usize, by_context: bool) -> Result<FollowRows, Fail> {
    if size > 512 {
        return Err("too many positions".into());
    }
    let mut rows = FollowRows::new(alloc, size, by_context)?;
    for square in 0..rows.square_count() {
        fill_square(&mut rows, square, step);
    }
    Ok(rows)
}

/// The set of each position.
fn sets_of(alloc: Global, size: usize, step: usize) -> Result<Vec<ByteSet>, AllocError> {
    let mut sets = Vec::new(alloc);
    for position in 0..size {
        sets.push(set_of(position.wrapping_add(step)))?;
    }
    Ok(sets)
}

/// A mask for each position, from that number on; plain ones have all contexts or none.
fn masks_of(alloc: Global, size: usize, first: usize, plain: bool) -> Result<Vec<Mask>, Fail> {
    let mut masks = Vec::new(alloc);
    for position in 0..size {
        let number = first.wrapping_add(position.wrapping_mul(7));
        masks.push(mask_of(if plain { 7 + number % 3 } else { number }))?;
    }
    Ok(masks)
}

/// The automaton of these parts, if they are of one size.
fn automaton_of(
    sets: Vec<ByteSet>,
    enters: Vec<Mask>,
    accepts: Vec<Mask>,
    follows: FollowRows,
    by_context: bool,
) -> Option<Automaton> {
    let size = sets.len();
    if size <= 512 && enters.len() == size && accepts.len() == size && follows.size() == size {
        Some(Automaton::new(sets, enters, accepts, follows, Mask::empty(), by_context))
    } else {
        None
    }
}

/// An automaton of so many positions, at most 512.
fn automaton(alloc: Global, size: usize, step: usize, by_context: bool) -> Result<Automaton, Fail> {
    let follows = follows(alloc, size, step, by_context)?;
    let sets = sets_of(alloc, size, step)?;
    let plain = step % 2 == 0;
    let enters = masks_of(alloc, size, 1, plain)?;
    let accepts = masks_of(alloc, size, step, plain)?;
    let automaton = automaton_of(sets, enters, accepts, follows, by_context);
    Ok(automaton.ok_or("parts of other sizes")?)
}

/// How many positions, and how far on a position is followed, which is even where masks have all contexts or none.
const AUTOMATA: [(usize, usize); 12] = [
    (0, 1),
    (1, 2),
    (8, 6),
    (9, 8),
    (63, 2),
    (64, 7),
    (64, 40),
    (65, 6),
    (65, 63),
    (128, 8),
    (512, 7),
    (512, 200),
];

const TEXTS: [&str; 5] = [
    "",
    "a",
    "ab a\nb",
    "a_b\n\nab b",
    "aaaaaaaaaaaaaaaaaaaaaaaa",
];

/// What may come next, whether the region is at rest, and the region.
type Behind = (NextSet, bool, Vec<u8>);

/// What an engine that is entered at each offset where a word byte comes next has behind the text.
fn behind<E: Engine>(alloc: Global, engine: &E, text: &[u8]) -> Result<Behind, AllocError>
    requires { length text.now < 2 ^ 63 }
{
    let mut region = vec![in alloc; 0xffu8; engine.size()]?;
    let enter = NextSet::of(Next::Word);
    let blank = Blank::new(1);
    let (left, rests) = step_through::<E, Brand>(engine, &mut region, text, enter, blank);
    Ok((left, rests, region))
}

/// Compares the regions and the answers behind the text.
fn compare(alloc: Global, plain: &Plain, limex: &Limex, text: &[u8]) -> Result<(), Fail> {
    let wanted = behind(alloc, plain, text)?;
    let found = behind(alloc, limex, text)?;
    if found == wanted {
        return Ok(());
    }
    let what = format_args!("{found:?} in place of {wanted:?} behind {text:?}");
    Err(Fail::new(what))
}

/// Compares the engines of an automaton over each beginning of the text.
fn compare_all(alloc: Global, plain: &Plain, limex: &Limex, text: &[u8]) -> Result<(), Fail> {
    for cut in 0..=text.len() {
        compare(alloc, plain, limex, &text[..cut])?;
    }
    Ok(())
}

/// Compares the engines of an automaton over each text.
fn judge_automaton(alloc: Global, automaton: &Automaton) -> Result<(), Fail> {
    let plain = Plain::build(alloc, automaton)?;
    let limex = Limex::build(alloc, automaton)?;
    for text in TEXTS {
        compare_all(alloc, &plain, &limex, text.as_bytes())?;
    }
    Ok(())
}

#[test]
fn twins_keep_the_same_bits(rt: HostRuntime) -> Result<(), Fail> {
    let alloc = rt.alloc();
    for (size, step) in AUTOMATA {
        for by_context in [false, true] {
            judge_automaton(alloc, &automaton(alloc, size, step, by_context)?)?;
        }
    }
    Ok(())
}
