//! Streams in many cuts, each reset and scanned again. It is `#[cfg(test)]`.
ghost use Rattle.std.specs.Prelude.{◌≡◌, ◌<◌};

use crate::cases::{Case, Verdict, ensure};
use hs_engine::Steps;
use hs_rows::Text;
use hs_stream::Collected;
use std::alloc::{AllocError, Global};
use std::marker::Brand;
use std::sync::ledger::{Blank, Ledger};
use std::test::Fail;

/// The most reports of a stream that are kept.
const ROOM: usize = 1_000;

/// What is told of a stream, and how many steps it took.
#[derive(Drop)]
pub(crate) struct Log<L: Ledger> {
    pub(crate) told: Collected,
    pub(crate) steps: Steps<L>,
}

impl<L: Ledger> Log<L> {
    /// A log in which nothing is told.
    pub(crate) fn open(alloc: Global, blank: Blank) -> Result<Log<L>, AllocError>
        requires name { blank.name ≡ L.name }
        requires parts { blank.parts ≡ L.parts }
        requires some { 0 < L.parts }
    {
        Ok(Log {
            told: Collected::new(alloc, ROOM)?,
            steps: Steps::open(blank),
        })
    }

    /// Nothing is told from here on.
    fn renew(&mut self, alloc: Global) -> Result<(), AllocError> {
        self.told = Collected::new(alloc, ROOM)?;
        Ok(())
    }
}

/// What a list is made to, so that streams are scanned for it.
pub(crate) trait Scanner {
    /// What is kept of a stream.
    type Stream: Drop;

    /// A stream of which no byte has come.
    fn open(&self, alloc: Global) -> Result<Self::Stream, Fail>;

    /// How many bytes of the stream have come.
    fn offset(&self, stream: &Self::Stream) -> u64;

    /// What is kept of the stream, as bytes.
    fn kept(&self, alloc: Global, stream: &Self::Stream) -> Result<Vec<u8>, Fail>;

    /// Takes the next bytes.
    fn take<L: Ledger>(&self, stream: &mut Self::Stream, bytes: &[u8], log: &mut Log<L>) -> Verdict;

    /// Ends the stream, and begins it anew.
    fn reset<L: Ledger>(&self, stream: &mut Self::Stream, log: &mut Log<L>) -> Verdict;

    /// Ends the stream.
    fn close<L: Ledger>(&self, stream: Self::Stream, log: &mut Log<L>) -> Verdict;
}

/// Whether the bit of the byte before the offset is set, the first byte's bit being the lowest.
pub(crate) fn is_cut(bits: u64, offset: usize) -> bool {
    0 < offset && offset <= 64 && (bits >> (offset - 1)) & 1 == 1
}

/// Where pieces end: before the first byte, behind each byte whose bit is set, and behind the last one.
fn ends_by(alloc: Global, bits: u64, len: usize) -> Result<Vec<usize>, AllocError> {
    let mut ends = Vec::new(alloc);
    for offset in 0..=len {
        if offset == 0 || offset == len || is_cut(bits, offset) {
            ends.push(offset)?;
        }
    }
    Ok(ends)
}

/// Where pieces end in many cuts of the stream: all of a short one, and of a longer one that into a single piece, each
/// into two, that of its row and that into bytes.
fn cuts_of(alloc: Global, stream: &Text) -> Result<Vec<Vec<usize>>, AllocError> {
    let len = stream.bytes.len();
    let mut all = Vec::new(alloc);
    all.push(Vec::from_slice(alloc, &[len])?)?;
    all.push(ends_by(alloc, stream.cuts, len)?)?;
    all.push(ends_by(alloc, u64::MAX, len)?)?;
    if len <= 4 {
        for bits in 0..16 {
            all.push(ends_by(alloc, bits, len)?)?;
        }
    } else {
        for cut in 0..len {
            all.push(Vec::from_slice(alloc, &[cut, len])?)?;
        }
    }
    Ok(all)
}

/// Takes a piece of the case's stream, and compares what is told so far.
fn take_piece<S: Scanner, L: Ledger>(
    scanner: &S,
    case: &Case,
    start: usize,
    end: usize,
    stream: &mut S::Stream,
    log: &mut Log<L>,
) -> Verdict {
    scanner.take(stream, case.piece(start, end)?, log)?;
    case.same("with a piece", log.told.reports(), case.told_behind(end)?)?;
    ensure(scanner.offset(stream) == end as u64, "another offset")
}

/// Takes the case's stream in pieces that end there.
fn take_pieces<S: Scanner, L: Ledger>(
    scanner: &S,
    case: &Case,
    ends: &[usize],
    stream: &mut S::Stream,
    log: &mut Log<L>,
) -> Verdict {
    let mut start = 0;
    for end in ends {
        take_piece(scanner, case, start, *end, stream, log)?;
        start = *end;
    }
    case.same("with all", log.told.reports(), &case.wanted.told)
}

/// Scans the case's stream in pieces that end there, resets it, scans it again, and closes it. The answer is what was
/// kept of it behind its last byte.
fn judge_cut<S: Scanner, L: Ledger>(
    alloc: Global,
    scanner: &S,
    case: &Case,
    ends: &[usize],
    log: &mut Log<L>,
) -> Result<Vec<u8>, Fail> {
    let mut stream = scanner.open(alloc)?;
    log.renew(alloc)?;
    take_pieces(scanner, case, ends, &mut stream, log)?;
    log.renew(alloc)?;
    scanner.reset(&mut stream, log)?;
    case.same("with a reset", log.told.reports(), &case.wanted.last)?;
    log.renew(alloc)?;
    take_pieces(scanner, case, ends, &mut stream, log)?;
    let kept = scanner.kept(alloc, &stream)?;
    log.renew(alloc)?;
    scanner.close(stream, log)?;
    case.same("with the end", log.told.reports(), &case.wanted.last)?;
    Ok(kept)
}

/// Scans the case's stream in many cuts, behind all of which the same is kept.
fn judge_cuts<S: Scanner, L: Ledger>(
    alloc: Global,
    scanner: &S,
    case: &Case,
    log: &mut Log<L>,
) -> Verdict {
    let mut first = None;
    for ends in &cuts_of(alloc, &case.stream)? {
        let kept = judge_cut(alloc, scanner, case, ends, log)?;
        match &first {
            None => first = Some(kept),
            Some(other) => ensure(*other == kept, "another region by other cuts")?,
        }
    }
    Ok(())
}

/// Scans the case's stream in many cuts, and counts the steps in a ledger of its own.
fn judge_counted<S: Scanner, L: Ledger>(
    alloc: Global,
    scanner: &S,
    case: &Case,
    blank: Blank,
) -> Verdict
    requires name { blank.name ≡ L.name }
    requires parts { blank.parts ≡ L.parts }
    requires some { 0 < L.parts }
{
    let mut log = Log::<L>::open(alloc, blank)?;
    judge_cuts(alloc, scanner, case, &mut log)
}

/// Compares what is told of the streams with what is wanted.
pub(crate) fn judge_cases<S: Scanner>(alloc: Global, scanner: &S, cases: &[Case]) -> Verdict {
    for case in cases {
        judge_counted::<S, Brand>(alloc, scanner, case, Blank::new(1))?;
    }
    Ok(())
}
