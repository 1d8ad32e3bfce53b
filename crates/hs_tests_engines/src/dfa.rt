//! How many states expressions have, counted by hand, and their engine beside `Limex`. It is `#[cfg(test)]`.
ghost use Rattle.std.specs.Prelude.{◌≡◌, ◌≤◌, ◌<◌, ◌^◌, false, length};

use hs_base::{Assertion, ByteSet, NextSet, Prev};
use hs_block::run_by_steps;
use hs_dfa::{Dfa, SetDfa};
use hs_engine::{Automaton, BlockEnds, Engine, Steps};
use hs_expr::{Expr, has_embedded_end, is_plain, positions};
use hs_glushkov::build;
use hs_limex::Limex;
use std::alloc::{AllocError, Global};
use std::marker::Brand;
use std::sync::ledger::{Blank, Ledger};
use std::test::Fail;

/// Expressions in the notation of `read`, with the number of their states, if there are at most 255. Where there is an
/// assertion, four states without a position differ by what stands before.
const COUNTS: [(&[u8], Option<usize>); 12] = [
    (b"a", Some(2)),
    (b"ab", Some(3)),
    (b"+ab", Some(3)),
    (b"a.b", Some(6)),
    (b"<a", Some(5)),
    (b"^a", Some(5)),
    (b"a<", Some(5)),
    (b"a$", Some(5)),
    (b"<a b", Some(7)),
    (b"+<a ", Some(6)),
    (b"a......", Some(128)),
    (b"a.......", None),
];

/// The bytes of the texts: a word byte that positions take, another one, a line feed and one more.
const BYTES: [u8; 4] = [b'a', b'b', b'\n', b' '];

/// The item of a byte: `.` is `[ab]`, `<` a boundary of a word, `^` the start of a line and `$` the end.
fn item_of(byte: u8) -> Expr {
    match byte {
        b'.' => Expr::Class(ByteSet::of(b'a').union(&ByteSet::of(b'b'))),
        b'<' => Expr::Assert(Assertion::WordBoundary),
        b'^' => Expr::Assert(Assertion::LineStart),
        b'$' => Expr::Assert(Assertion::StreamEnd),
        _ => Expr::Class(ByteSet::of(byte)),
    }
}

/// The expression of a text, item by item; behind `+` one round of them or more.
fn read(alloc: Global, text: &[u8]) -> Result<Expr, AllocError> {
    let mut items = Vec::new(alloc);
    for byte in text {
        if *byte != b'+' {
            items.push(item_of(*byte))?;
        }
    }
    if text.first() == Some(&b'+') {
        Ok(Expr::Repeat(Box::new(alloc, Expr::Cat(items))?, 1, None))
    } else {
        Ok(Expr::Cat(items))
    }
}

/// The automaton of an expression that `build` takes.
fn automaton_of(alloc: Global, expr: &Expr) -> Result<Option<Automaton>, AllocError> {
    if is_plain(expr) && positions(expr) <= 512 && !has_embedded_end(expr, false) {
        Ok(Some(build(alloc, expr)?))
    } else {
        Ok(None)
    }
}

/// The engine of an expression, and `Limex`.
fn engines_of(alloc: Global, text: &[u8]) -> Result<Option<(Dfa, Limex)>, AllocError> {
    let expr = read(alloc, text)?;
    let Some(automaton) = automaton_of(alloc, &expr)? else {
        return Ok(None);
    };
    let Some(dfa) = Dfa::build(alloc, &automaton)? else {
        return Ok(None);
    };
    Ok(Some((dfa, Limex::build(alloc, &automaton)?)))
}

/// How many states the expression has, if it has an engine.
fn count_of(alloc: Global, text: &[u8]) -> Result<Option<usize>, AllocError> {
    match engines_of(alloc, text)? {
        Some((dfa, _limex)) => Ok(Some(dfa.state_count())),
        None => Ok(None),
    }
}

#[test]
fn counts_states(rt: HostRuntime) -> Result<(), Fail> {
    for (text, wanted) in COUNTS {
        let found = count_of(rt.alloc(), text)?;
        assert_eq!(rt; found, wanted);
    }
    Ok(())
}

/// What may come next behind the text in the engine, which is entered before every byte that is one of these, and
/// whether it is at rest.
pub(crate) fn step_through<E: Engine, L: Ledger>(
    engine: &E,
    region: &mut [u8],
    text: &[u8],
    enter: NextSet,
    blank: Blank,
) -> (NextSet, bool)
    requires region { length region.old ≡ (E.meaning engine.now).width }
    requires text { length text.now < 2 ^ 63 }
    requires name { blank.name ≡ L.name }
    requires parts { blank.parts ≡ L.parts }
    requires some { 0 < L.parts }
{
    let mut steps = Steps::<L>::open(blank);
    engine.clear(region);
    let mut prev = Prev::Start;
    let mut at = 0;
    for byte in text {
        engine.step(region, prev, at, enter, *byte, &mut steps);
        prev = Prev::behind(*byte);
        at += 1;
    }
    (engine.out(region, prev, at), engine.at_rest(region))
}

/// The same, with a region of its own.
fn behind<E: Engine>(alloc: Global, engine: &E, text: &[u8]) -> Result<(NextSet, bool), AllocError>
    requires { length text.now < 2 ^ 63 }
{
    let mut region = vec![in alloc; 0xffu8; engine.size()]?;
    let blank = Blank::new(1);
    Ok(step_through::<E, Brand>(engine, &mut region, text, NextSet::all(), blank))
}

/// The text of a number, five bytes long.
fn text_of(number: usize) -> [u8; 5] {
    [
        BYTES[number % 4],
        BYTES[number / 4 % 4],
        BYTES[number / 16 % 4],
        BYTES[number / 64 % 4],
        BYTES[number / 256 % 4],
    ]
}

/// Whether both engines tell the same behind each beginning of the text.
fn agree_on(alloc: Global, dfa: &Dfa, limex: &Limex, text: &[u8; 5]) -> Result<bool, AllocError> {
    for len in 0..=5 {
        if behind(alloc, dfa, &text[..len])? != behind(alloc, limex, &text[..len])? {
            return Ok(false);
        }
    }
    Ok(true)
}

/// Whether both engines tell the same behind each text of up to five bytes.
fn agree(alloc: Global, dfa: &Dfa, limex: &Limex) -> Result<bool, AllocError> {
    for number in 0..1024 {
        if !agree_on(alloc, dfa, limex, &text_of(number))? {
            return Ok(false);
        }
    }
    Ok(true)
}

/// Whether they do so of an expression, if it has an engine.
fn agrees(alloc: Global, text: &[u8]) -> Result<bool, AllocError> {
    match engines_of(alloc, text)? {
        Some((dfa, limex)) => agree(alloc, &dfa, &limex),
        None => Ok(true),
    }
}

#[test]
fn tells_what_limex_tells(rt: HostRuntime) -> Result<(), Fail> {
    for (text, _wanted) in COUNTS {
        assert!(rt; agrees(rt.alloc(), text)?);
    }
    Ok(())
}

/// What a block tells, and what it leaves in the region.
type Taken = (BlockEnds, Vec<u8>);

/// Takes the text as the first block of a stream by the states over sets.
fn taken_by_sets<L: Ledger>(
    alloc: Global,
    sets: &SetDfa,
    text: &[u8],
    blank: Blank,
) -> Result<Option<Taken>, AllocError>
    requires text { length text.now ≤ 64 }
    requires name { blank.name ≡ L.name }
    requires parts { blank.parts ≡ L.parts }
    requires some { 0 < L.parts }
{
    let mut steps = Steps::<L>::open(blank);
    let mut region = vec![in alloc; 0u8; sets.width()]?;
    match sets.run(&mut region, Prev::Start, 0, text, &mut steps) {
        Some(ends) => Ok(Some((ends, region))),
        None => Ok(None),
    }
}

/// The same, with a ledger of its own.
fn by_sets(alloc: Global, sets: &SetDfa, text: &[u8]) -> Result<Option<Taken>, AllocError>
    requires { length text.now ≤ 64 }
{
    let blank = Blank::new(1);
    taken_by_sets::<Brand>(alloc, sets, text, blank)
}

/// Takes the text byte by byte as the first block of a stream, entered before each.
fn block_by_steps<E: Engine, L: Ledger>(
    engine: &E,
    region: &mut [u8],
    text: &[u8],
    blank: Blank,
) -> BlockEnds
    requires region { length region.old ≡ (E.meaning engine.now).width }
    requires listed { (E.meaning engine.now).always ≡ false }
    requires text { length text.now ≤ 64 }
    requires name { blank.name ≡ L.name }
    requires parts { blank.parts ≡ L.parts }
    requires some { 0 < L.parts }
{
    let mut steps = Steps::<L>::open(blank);
    engine.clear(region);
    run_by_steps(engine, region, Prev::Start, 0, u64::MAX, text, &mut steps)
}

/// The same, with a region and a ledger of its own.
fn by_steps(alloc: Global, limex: &Limex, text: &[u8]) -> Result<Taken, AllocError>
    requires { length text.now ≤ 64 }
{
    let mut region = vec![in alloc; 0xffu8; limex.size()]?;
    let blank = Blank::new(1);
    let ends = block_by_steps::<Limex, Brand>(limex, &mut region, text, blank);
    Ok((ends, region))
}

/// Whether the states over sets tell and leave of the text what the positions do.
fn agree_over(alloc: Global, sets: &SetDfa, limex: &Limex, text: &[u8]) -> Result<bool, AllocError>
    requires { length text.now ≤ 64 }
{
    let wanted = by_steps(alloc, limex, text)?;
    match by_sets(alloc, sets, text)? {
        Some(found) => Ok(found.0 == wanted.0 && found.1.as_slice() == wanted.1.as_slice()),
        None => Ok(false),
    }
}

/// Whether they do so of each text of five bytes.
fn agree_over_sets(alloc: Global, sets: &SetDfa, limex: &Limex) -> Result<bool, AllocError> {
    for number in 0..1024 {
        if !agree_over(alloc, sets, limex, &text_of(number))? {
            return Ok(false);
        }
    }
    Ok(true)
}

/// Whether they do so of an expression, if it has an engine.
fn agrees_over_sets(alloc: Global, text: &[u8]) -> Result<bool, AllocError> {
    let expr = read(alloc, text)?;
    let Some(automaton) = automaton_of(alloc, &expr)? else {
        return Ok(true);
    };
    let Some(sets) = SetDfa::build(alloc, &automaton)? else {
        return Ok(true);
    };
    agree_over_sets(alloc, &sets, &Limex::build(alloc, &automaton)?)
}

#[test]
fn tells_over_sets_what_positions_tell(rt: HostRuntime) -> Result<(), Fail> {
    for (text, _wanted) in COUNTS {
        assert!(rt; agrees_over_sets(rt.alloc(), text)?);
    }
    Ok(())
}
