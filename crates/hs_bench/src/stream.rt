//! One stream over a file, in writes of one length, whose reports are counted and not printed.

ghost use Rattle.std.specs.Prelude.{◌≡◌, ◌<◌, IfOk, OnOk};
ghost use Rattle.hs_stream.specs.Caches.{IsCacheOf};
ghost use Rattle.hs_stream.specs.Streams.{IsStreamOf};
ghost use Rattle.hs_bench.specs.Streaming.{AddsReports, IsDatabaseIn, IsStreamed};

use hs_base::ExprId;
use hs_compile::{Database, compile};
use hs_dbfile::decode_file;
use hs_engine::Steps;
use hs_stream::{Cache, Events, Stream, StreamFull};
use std::alloc::Global;
use std::io::{self, ErrorKind};
use std::marker::Brand;
use std::sync::ledger::{Blank, Ledger};
use std::time::{CpuClock, Duration};

/// How many reports have come.
#[derive(Clone, Copy, Debug)]
pub(crate) struct Reports {
    count: u64,
}

impl Events for Reports {
    ghost use Rattle.hs_bench.specs.Streaming.{Counts};

    ghost tells = { Counts };

    fn report(&mut self, _id: ExprId, _to: u64) {
        self.count = self.count.saturating_add(1);
    }
}

/// The database of the list in a database file.
pub(crate) fn database_of(alloc: Global, bytes: &[u8]) -> io::Result<Database>
    ensures { IfOk result (IsDatabaseIn bytes.now) }
{
    let Ok(entries) = decode_file(alloc, bytes) else {
        return Err(ErrorKind::InvalidData.into());
    };
    match compile(alloc, &entries) {
        Ok(database) => Ok(database),
        Err(_) => Err(ErrorKind::InvalidInput.into()),
    }
}

/// Writes the text to a stream in pieces of that length, and counts the reports.
fn write_pieces<L: Ledger>(
    database: &Database,
    stream: &mut Stream,
    cache: &mut Cache,
    text: &[u8],
    piece: usize,
    reports: &mut Reports,
    steps: &mut Steps<L>,
) -> Result<(), StreamFull>
    requires stream { IsStreamOf database.now stream.old }
    requires cache { IsCacheOf database.now cache.old }
    requires some { 0 < piece }
    requires none { reports.old.count ≡ 0 }
    ensures { OnOk result (AddsReports database.now stream.old stream.new text.now 0 reports.new.count) }
{
    let mut rest = text;
    while !rest.is_empty() {
        let (bytes, behind) = rest.split_at(rest.len().min(piece));
        match stream.write_cached(database, cache, bytes, reports, steps) {
            Ok(()) => {}
            Err(full) => return Err(full),
        }
        rest = behind;
    }
    Ok(())
}

/// What a stream over a text told, and the processor time of its writes.
#[derive(Clone, Copy, Debug)]
pub(crate) struct Streamed {
    pub(crate) reports: u64,
    pub(crate) time: Duration,
}

/// One stream over the text, in writes of that length.
pub(crate) fn stream_text(
    rt: &HostRuntime,
    database: &Database,
    text: &[u8],
    piece: usize,
) -> io::Result<Streamed>
    requires some { 0 < piece }
    ensures { IfOk result (λ told. IsStreamed database.now text.now told.reports) }
{
    stream_counted::<Brand>(rt, database, text, piece, Blank::new(1))
}

/// The same with a ledger for the steps of engines.
fn stream_counted<L: Ledger>(
    rt: &HostRuntime,
    database: &Database,
    text: &[u8],
    piece: usize,
    blank: Blank,
) -> io::Result<Streamed>
    requires some { 0 < piece }
    requires name { blank.name ≡ L.name }
    requires parts { blank.parts ≡ L.parts }
    requires whole { 0 < L.parts }
    ensures { IfOk result (λ told. IsStreamed database.now text.now told.reports) }
{
    let mut stream = Stream::open(rt.alloc(), database)?;
    let mut cache = Cache::new(rt.alloc(), database)?;
    let mut steps = Steps::<L>::open(blank);
    let mut reports = Reports { count: 0 };
    let start = rt.thread_cpu_time()?;
    let Ok(()) = write_pieces(
        database,
        &mut stream,
        &mut cache,
        text,
        piece,
        &mut reports,
        &mut steps,
    ) else {
        return Err(ErrorKind::InvalidInput.into());
    };
    let end = rt.thread_cpu_time()?;
    Ok(Streamed {
        reports: reports.count,
        time: end.checked_sub(start).unwrap_or(Duration::ZERO),
    })
}
