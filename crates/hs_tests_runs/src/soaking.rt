//! What is drawn from a seed, how the runs over it keep their stream, and that a cache changes nothing of what is told.
//! It is `#[cfg(test)]`.
ghost use Rattle.std.specs.Prelude.{◌≡◌, ◌<◌};

use hs_base::{Entry, Report};
use hs_compile::{Database, compile};
use hs_engine::Steps;
use hs_stream::{Collected, Cutting, Drawn, InMemory, Keeper, Scratch, Stream, Tally, run};
use std::alloc::{AllocError, Global};
use std::marker::Brand;
use std::sync::ledger::{Blank, Ledger};
use std::test::Fail;

/// The most reports of a piece.
const ROOM: usize = 19_400;

/// The first expressions that are drawn from the seed 1.
const EXPRESSIONS: [&[u8]; 4] = [
    b"[0-9]+edb",
    b"fad[a-z]{3,9}aab",
    b"aaf[a-z]{3,9}fdd",
    b"ace.*fdd",
];

/// The first bytes of the stream behind one of them.
const STREAM: &[u8] = b"b a1c\n1 eafd1d \n\n0fb ebfc\nefecb edb\n00fd \nfdcedaedc0c  f1dbea10 ";

/// Keeps streams in memory, and counts how many it was given and how many were taken up.
#[derive(Drop)]
struct Counting {
    given: u64,
    taken: u64,
}

impl Keeper for Counting {
    fn give_away(
        &mut self,
        alloc: Global,
        db: &Database,
        stream: Stream,
    ) -> Result<Vec<u8>, AllocError> {
        self.given = self.given.wrapping_add(1);
        let mut memory = InMemory;
        memory.give_away(alloc, db, stream)
    }

    fn take_up(
        &mut self,
        alloc: Global,
        db: &Database,
        bytes: &[u8],
    ) -> Result<Stream, AllocError> {
        self.taken = self.taken.wrapping_add(1);
        let mut memory = InMemory;
        memory.take_up(alloc, db, bytes)
    }
}

/// Whether the entries are the first ones that are wanted.
fn are_drawn(entries: &[Entry]) -> bool {
    entries
        .iter()
        .zip(EXPRESSIONS.iter())
        .all(|(entry, wanted)| entry.text.as_slice() == *wanted)
}

/// The database of entries that are accepted.
fn compiled(alloc: Global, entries: &[Entry]) -> Result<Database, Fail> {
    match compile(alloc, entries) {
        Ok(database) => Ok(database),
        Err(_) => Err(Fail::new("a list that is refused")),
    }
}

/// The tally of a run with that cutting, and how many streams were given away and taken up.
fn counted(alloc: Global, drawn: &Drawn, cutting: Cutting) -> Result<(Tally, u64, u64), Fail> {
    let database = compiled(alloc, &drawn.entries)?;
    let mut keeper = Counting { given: 0, taken: 0 };
    let tally = run(alloc, &database, &drawn.bytes, cutting, ROOM, &mut keeper)?;
    Ok((tally, keeper.given, keeper.taken))
}

/// The tally of reports.
fn tally_of(reports: &[Report]) -> Tally {
    let mut tally = Tally { count: 0, sum: 0 };
    for report in reports {
        tally.count = tally.count.wrapping_add(1);
        tally.sum = tally.sum.wrapping_add(report.to);
    }
    tally
}

/// The tally of one write and the close by a scratch, which remembers nothing of the bytes.
fn told_by_scratch<L: Ledger>(
    alloc: Global,
    database: &Database,
    bytes: &[u8],
    blank: Blank,
) -> Result<Tally, Fail>
    requires name { blank.name ≡ L.name }
    requires parts { blank.parts ≡ L.parts }
    requires some { 0 < L.parts }
{
    let mut stream = Stream::open(alloc, database)?;
    let mut scratch = Scratch::new(alloc, database)?;
    let mut told = Collected::new(alloc, ROOM)?;
    let mut steps = Steps::<L>::open(blank);
    stream.write(database, &mut scratch, bytes, &mut told, &mut steps)?;
    stream.close(database, &mut scratch, &mut told, &mut steps);
    Ok(tally_of(told.reports()))
}

/// The tally of one write and the close by a scratch.
fn told_anew(alloc: Global, database: &Database, bytes: &[u8]) -> Result<Tally, Fail> {
    told_by_scratch::<Brand>(alloc, database, bytes, Blank::new(1))
}

/// The tallies of what is drawn from a seed: by a cache, in pieces of one length, and by a scratch, in one.
fn told_both_ways(alloc: Global, seed: u32) -> Result<(Tally, Tally), Fail> {
    let drawn = Drawn::from_seed(alloc, seed, 60)?;
    let (cached, _given, _taken) = counted(alloc, &drawn, Cutting::Even)?;
    let database = compiled(alloc, &drawn.entries)?;
    Ok((cached, told_anew(alloc, &database, &drawn.bytes)?))
}

#[test]
fn draws_expressions_then_a_stream(rt: HostRuntime) -> Result<(), Fail> {
    let drawn = Drawn::from_seed(rt.alloc(), 1, 10)?;
    assert!(rt; drawn.entries.len() == 10 && are_drawn(&drawn.entries));
    let drawn = Drawn::from_seed(rt.alloc(), 1, 1)?;
    assert!(rt; drawn.bytes.as_slice() == STREAM);
    Ok(())
}

#[test]
fn saves_behind_each_sixteenth_piece(rt: HostRuntime) -> Result<(), Fail> {
    let drawn = Drawn::from_seed(rt.alloc(), 1, 100)?;
    let even = counted(rt.alloc(), &drawn, Cutting::Even)?;
    let cut = counted(rt.alloc(), &drawn, Cutting::Drawn(drawn.lengths))?;
    assert!(rt; even == (cut.0, 0, 0), "{even:?} is none of {cut:?}");
    assert!(rt; cut == (even.0, 8, 8), "{cut:?} is saved otherwise");
    Ok(())
}

#[test]
fn tells_by_a_cache_what_a_scratch_tells(rt: HostRuntime) -> Result<(), Fail> {
    for seed in 1..5 {
        let (cached, anew) = told_both_ways(rt.alloc(), seed)?;
        assert!(rt;
            cached == anew && cached.count > 0,
            "{cached:?} is not {anew:?}"
        );
    }
    Ok(())
}
