//! The two runs over the stream.
ghost use Rattle.std.specs.Prelude.{◌≡◌, ◌<◌, true, List, [], IfOk, OnOk};
ghost use Rattle.hs_stream.specs.Caches.{IsCacheOf};
ghost use Rattle.hs_stream.specs.Streams.{IsStreamOf, Writes, Closes, region_of};
ghost use Rattle.hs_stream.specs.Standing.{RunsPatterns};
ghost use Rattle.hs_base.specs.Patterns.{Pattern};
ghost use Rattle.hs_stream.specs.CutRuns.{IsAdded, IsSummary, IsSwapped};

use crate::cache::Cache;
use crate::collected::Collected;
use crate::generator::Generator;
use crate::stream::Stream;
use crate::swapping::{Keeper, swap};
use crate::tally::Tally;
use hs_compile::Database;
use hs_engine::Steps;
use std::alloc::{AllocError, Global};
use std::marker::Brand;
use std::sync::ledger::{Blank, Ledger};

/// The length of the pieces of the even run.
const EVEN_LEN: usize = 97;

/// Behind so many pieces the other run saves its stream.
const PIECES_KEPT: u64 = 16;

/// How a run cuts the stream.
#[derive(Clone, Copy, Debug)]
pub enum Cutting {
    /// Into pieces of one length.
    Even,
    /// Into pieces whose lengths are drawn. The stream is saved and expanded behind each sixteenth of them.
    Drawn(Generator),
}

impl Cutting {
    ghost use Rattle.std.specs.Prelude.{◌≡◌, ◌<◌};
    ghost use Rattle.hs_stream.specs.CutRuns.{behind_length, next_length, saves_behind};

    /// The length of the next piece, where there are as many bytes.
    fn next_length(&mut self) -> usize
        ensures some { 0 < result }
        ensures value { result ≡ next_length self.old }
        ensures next { self.new ≡ behind_length self.old }
    {
        match self {
            Cutting::Even => EVEN_LEN,
            Cutting::Drawn(generator) => generator.piece_length(),
        }
    }

    /// Whether the stream is saved behind so many pieces.
    fn saves_behind(&self, pieces: u64) -> bool
        ensures { result ≡ saves_behind self.now pieces }
    {
        match self {
            Cutting::Even => false,
            Cutting::Drawn(_) => pieces % PIECES_KEPT == 0,
        }
    }
}

/// A run over the bytes as one stream, with room for so many reports of a piece: the tally of what it reported. The
/// error is want of memory, or of that room.
///
/// # Cost
///
/// It takes a cache, a stream and the room for reports, and for each saved stream its bytes; and the time of a write
/// for each piece.
///
/// # Examples
///
/// ```
/// let mut keeper = InMemory;
/// let even = run(alloc, &database, &drawn.bytes, Cutting::Even, 10_000, &mut keeper)?;
/// let cut = run(alloc, &database, &drawn.bytes, Cutting::Drawn(drawn.lengths), 10_000, &mut keeper)?;
/// ```
pub fn run<K: Keeper>(
    alloc: Global,
    db: &Database,
    bytes: &[u8],
    cutting: Cutting,
    room: usize,
    keeper: &mut K,
) -> Result<Tally, AllocError>
    ensures { IfOk result (λ tally. (P : List Pattern) → RunsPatterns db.now P → IsSummary P bytes.now tally) }
{
    run_counted::<K, Brand>(alloc, db, bytes, cutting, room, keeper, Blank::new(1))
}

/// Such a run, which counts the steps of engines in a ledger of its own.
fn run_counted<K: Keeper, L: Ledger>(
    alloc: Global,
    db: &Database,
    bytes: &[u8],
    cutting: Cutting,
    room: usize,
    keeper: &mut K,
    blank: Blank,
) -> Result<Tally, AllocError>
    requires name { blank.name ≡ L.name }
    requires parts { blank.parts ≡ L.parts }
    requires some { 0 < L.parts }
    ensures { IfOk result (λ tally. (P : List Pattern) → RunsPatterns db.now P → IsSummary P bytes.now tally) }
{
    let mut cache = Cache::new(alloc, db)?;
    let mut collected = Collected::new(alloc, room)?;
    let mut steps = Steps::<L>::open(blank);
    run_over(
        alloc,
        db,
        bytes,
        cutting,
        keeper,
        &mut cache,
        &mut collected,
        &mut steps,
    )
}

/// Such a run, with memory to scan and to collect.
fn run_over<K: Keeper, L: Ledger>(
    alloc: Global,
    db: &Database,
    bytes: &[u8],
    mut cutting: Cutting,
    keeper: &mut K,
    cache: &mut Cache,
    collected: &mut Collected,
    steps: &mut Steps<L>,
) -> Result<Tally, AllocError>
    requires cache { IsCacheOf db.now cache.old }
    requires empty { collected.old.reports ≡ [] }
    ensures { IfOk result (λ tally. (P : List Pattern) → RunsPatterns db.now P → IsSummary P bytes.now tally) }
{
    let room = collected.room();
    let mut stream = Stream::open(alloc, db)?;
    let mut tally = Tally::NONE;
    let mut rest = bytes;
    let mut pieces: u64 = 0;
    while !rest.is_empty() {
        let (piece, behind) = rest.split_at(cutting.next_length().min(rest.len()));
        tally = write_piece(db, &mut stream, piece, tally, room, cache, collected, steps)?;
        rest = behind;
        pieces += 1;
        stream = go_on(alloc, db, stream, cutting.saves_behind(pieces), keeper)?;
    }
    close_run(db, stream, tally, room, cache, collected, steps)
}

/// Writes a piece, and gives the tally with what it reported.
fn write_piece<L: Ledger>(
    db: &Database,
    stream: &mut Stream,
    piece: &[u8],
    tally: Tally,
    room: usize,
    cache: &mut Cache,
    collected: &mut Collected,
    steps: &mut Steps<L>,
) -> Result<Tally, AllocError>
    requires fits { IsStreamOf db.now stream.old }
    requires cache { IsCacheOf db.now cache.old }
    requires empty { collected.old ≡ record { reports = []; room = room } }
    ensures fits { IsStreamOf db.now stream.new }
    ensures cache { IsCacheOf db.now cache.new }
    ensures emptied { OnOk result (collected.new ≡ record { reports = []; room = room }) }
    ensures added { IfOk result (λ now. IsAdded tally now (Writes db.now stream.old stream.new piece.now)) }
{
    match stream.write_cached(db, cache, piece, collected, steps) {
        Ok(()) => {}
        Err(_) => return Err(AllocError),
    }
    match tally.taking(collected, room) {
        Some(now) => Ok(now),
        None => Err(AllocError),
    }
}

/// Closes the stream, and gives the tally with what that reported.
fn close_run<L: Ledger>(
    db: &Database,
    stream: Stream,
    tally: Tally,
    room: usize,
    cache: &mut Cache,
    collected: &mut Collected,
    steps: &mut Steps<L>,
) -> Result<Tally, AllocError>
    requires fits { IsStreamOf db.now stream }
    requires cache { IsCacheOf db.now cache.old }
    requires empty { collected.old ≡ record { reports = []; room = room } }
    ensures { IfOk result (λ now. IsAdded tally now (Closes db.now stream)) }
{
    stream.close_cached(db, cache, collected, steps);
    match tally.taking(collected, room) {
        Some(last) => Ok(last),
        None => Err(AllocError),
    }
}

/// The stream that the run goes on with: where it is saved here, what that is expanded to.
fn go_on<K: Keeper>(
    alloc: Global,
    db: &Database,
    stream: Stream,
    is_saved: bool,
    keeper: &mut K,
) -> Result<Stream, AllocError>
    requires { IsStreamOf db.now stream }
    ensures fits { IfOk result (IsStreamOf db.now) }
    ensures region { IfOk result (λ next. region_of next ≡ region_of stream) }
    ensures swapped { is_saved ≡ true → IfOk result (IsSwapped db.now stream) }
{
    if is_saved {
        swap(alloc, db, stream, keeper)
    } else {
        Ok(stream)
    }
}
