//! What is told in one write and in writes of one byte, of expressions that begin where the stream does and of
//! identifiers that are told once. It is `#[cfg(test)]`.
ghost use Rattle.std.specs.Prelude.{◌≡◌, ◌<◌};
ghost use Rattle.hs_stream.specs.Scratches.{IsScratchOf};
ghost use Rattle.hs_stream.specs.Streams.{IsStreamOf};

use crate::lists::compiled;
use hs_base::{Flags, Report};
use hs_compile::{Database, compile};
use hs_engine::Steps;
use hs_stream::{Collected, Drawn, Scratch, Stream, StreamFull};
use std::alloc::{AllocError, Global};
use std::marker::Brand;
use std::sync::ledger::{Blank, Ledger};
use std::test::Fail;

/// The most reports of a stream.
const ROOM: usize = 20_000;

/// Expressions of which some begin where the stream does.
const OPENING: &str = "1:/^ab[0-9]+cd/ 2:/cd/ 3:/[0-9]cd/ 4:/^xy/ 5:/^ab[^!]*!cd/";

/// Expressions of which all but one are told once.
const SINGLE: &str = "1:/[0-9]+x/H 2:/[0-9]x/ 3:/[a-z]{2,4}!/H 4:/q[^,]*,/H 5:/a[^b]*b/H";

/// A list, what stands before 600 times `-` and behind them, and what is told: identifiers with ends.
const ROWS: [(&str, &str, &str, &str); 7] = [
    (OPENING, "ab1cd", "ab1cd", "1:5 2:5 3:5 2:610 3:610"),
    (OPENING, "ab1cd", "!cd", "1:5 2:5 3:5 2:608 5:608"),
    (OPENING, "-xy", "xycd", "2:607"),
    (OPENING, "xy", "cd", "4:2 2:604"),
    (SINGLE, "1x", "23x", "1:2 2:2 2:605"),
    (SINGLE, "ab!", "abc!q,a-b", "5:2 3:3 4:609"),
    (SINGLE, "1xq", ",9x1x", "1:2 2:2 4:604 2:606 2:608"),
];

/// What a stream told, and its region before the close.
#[derive(Drop)]
struct Seen {
    told: Collected,
    region: Vec<u8>,
}

impl Seen {
    /// Whether another stream told the same, and had the same region.
    fn is_like(&self, other: &Seen) -> bool {
        self.told.reports() == other.told.reports() && self.region == other.region
    }

    /// Whether just that was told.
    fn is_of(&self, words: &str) -> bool {
        let mut count = 0usize;
        for word in words.split(' ') {
            let Some(report) = self.told.reports().get(count) else {
                return false;
            };
            if !is_said(report, word) {
                return false;
            }
            count = count.wrapping_add(1);
        }
        count == self.told.reports().len()
    }
}

/// Whether a report is what a word says: `ID:END`.
fn is_said(report: &Report, word: &str) -> bool {
    let (id, end) = word.split_once(':').unwrap_or((word, ""));
    id.parse().unwrap_or(0) == report.id.0 && end.parse().unwrap_or(0) == report.to
}

/// The bytes of a row.
fn bytes_of(alloc: Global, before: &str, behind: &str) -> Result<Vec<u8>, AllocError> {
    let mut bytes = Vec::from_slice(alloc, before.as_bytes())?;
    for _dash in 0..600 {
        bytes.push(b'-')?;
    }
    for byte in behind.as_bytes() {
        bytes.push(*byte)?;
    }
    Ok(bytes)
}

/// Writes the bytes in one, or each by itself.
fn write_all<L: Ledger>(
    stream: &mut Stream,
    database: &Database,
    scratch: &mut Scratch,
    bytes: &[u8],
    is_cut: bool,
    told: &mut Collected,
    steps: &mut Steps<L>,
) -> Result<(), StreamFull>
    requires fits { IsStreamOf database.now stream.old }
    requires scratch { IsScratchOf database.now scratch.old }
    ensures fits { IsStreamOf database.now stream.new }
    ensures scratch { IsScratchOf database.now scratch.new }
{
    if !is_cut {
        return stream.write(database, scratch, bytes, told, steps);
    }
    for at in 0..bytes.len() {
        stream.write(database, scratch, &bytes[at..at + 1], told, steps)?;
    }
    Ok(())
}

/// What a stream tells that is written in one, or each byte by itself.
fn seen_in<L: Ledger>(
    alloc: Global,
    database: &Database,
    bytes: &[u8],
    is_cut: bool,
    blank: Blank,
) -> Result<Seen, Fail>
    requires name { blank.name ≡ L.name }
    requires parts { blank.parts ≡ L.parts }
    requires some { 0 < L.parts }
{
    let mut stream = Stream::open(alloc, database)?;
    let mut scratch = Scratch::new(alloc, database)?;
    let mut told = Collected::new(alloc, ROOM)?;
    let mut steps = Steps::<L>::open(blank);
    write_all(
        &mut stream,
        database,
        &mut scratch,
        bytes,
        is_cut,
        &mut told,
        &mut steps,
    )?;
    let region = Vec::from_slice(alloc, stream.region())?;
    stream.close(database, &mut scratch, &mut told, &mut steps);
    Ok(Seen { told, region })
}

/// What a stream tells that is written in one, or each byte by itself.
fn seen_by(alloc: Global, database: &Database, bytes: &[u8], is_cut: bool) -> Result<Seen, Fail> {
    seen_in::<Brand>(alloc, database, bytes, is_cut, Blank::new(1))
}

/// Whether a row's stream tells what is wanted, also if each byte is written by itself.
fn is_so(
    alloc: Global,
    list: &str,
    before: &str,
    behind: &str,
    wanted: &str,
) -> Result<bool, Fail> {
    let database = compiled(alloc, list)?;
    let bytes = bytes_of(alloc, before, behind)?;
    let whole = seen_by(alloc, &database, &bytes, false)?;
    let cut = seen_by(alloc, &database, &bytes, true)?;
    Ok(whole.is_of(wanted) && whole.is_like(&cut))
}

/// A database of what is drawn from a seed, in which each identifier is told once.
fn single_database(alloc: Global, drawn: &mut Drawn) -> Result<Database, Fail> {
    for entry in drawn.entries.iter_mut() {
        entry.flags = Flags::SINGLEMATCH;
    }
    match compile(alloc, &drawn.entries) {
        Ok(database) => Ok(database),
        Err(_) => Err(Fail::new("a list that is refused")),
    }
}

/// Whether what is drawn from a seed, with each identifier told once, tells something, and the same if each byte is
/// written by itself.
fn is_alike(alloc: Global, seed: u32) -> Result<bool, Fail> {
    let mut drawn = Drawn::from_seed(alloc, seed, 60)?;
    let database = single_database(alloc, &mut drawn)?;
    let whole = seen_by(alloc, &database, &drawn.bytes, false)?;
    let cut = seen_by(alloc, &database, &drawn.bytes, true)?;
    Ok(whole.is_like(&cut) && !whole.told.reports().is_empty())
}

#[test]
fn tells_each_row_however_it_is_cut(rt: HostRuntime) -> Result<(), Fail> {
    for (list, before, behind, wanted) in ROWS {
        assert!(rt;
            is_so(rt.alloc(), list, before, behind, wanted)?,
            "{before} and {behind}"
        );
    }
    Ok(())
}

#[test]
fn tells_single_ones_once_however_it_is_cut(rt: HostRuntime) -> Result<(), Fail> {
    for seed in 1..4 {
        assert!(rt; is_alike(rt.alloc(), seed)?, "seed {seed}");
    }
    Ok(())
}
