//! The scan of a file as one stream, piece by piece, and its close.
ghost use Rattle.std.specs.Prelude.{◌≡◌, ◌++◌, OnOk, OnErr, IfErr};
ghost use Rattle.hs_base.specs.MatchText.{end_line as line_of_end};
ghost use Rattle.hs_outside.specs.Sink.{TookPrefix, Sends};
ghost use Rattle.hs_stream.specs.Caches.{IsCacheOf};
ghost use Rattle.hs_stream.specs.Streams.{offset_of, IsStreamOf};
ghost use Rattle.hs_lines.specs.Passing.{IsPassedOn};
ghost use Rattle.hs_tool.specs.Scanning.{Interrupts, IsClosed, IsFileScanned, IsFilePartlyScanned};

use crate::piece::{close_stream, write_piece};
use hs_base::MAX_OFFSET;
use hs_compile::Database;
use hs_engine::Steps;
use hs_lines::Pending;
use hs_outside::{Failed, PIECE_LEN, Sink, Store, StoreFault};
use hs_stream::{Cache, Stream};
use hs_text::{LINE_LEN, end_line};
use std::sync::ledger::Ledger;

/// Why a file isn't scanned to its end.
#[derive(Clone, Copy, Debug, PartialEq, Eq)]
pub enum ScanFault {
    /// The store lacks the file.
    Absent,
    /// The store failed.
    Store,
    /// The sink failed.
    Write,
    /// The file is longer than a stream may be.
    Limit,
    /// Memory was wanted, before a byte was read.
    Memory,
}

/// Writes a file to a stream of which no byte has come, to the file's end. The lines of the reports that its bytes
/// decide are written, or wait.
pub(crate) fn scan_file<S: Store, O: Sink, L: Ledger>(
    db: &Database,
    stream: &mut Stream,
    cache: &mut Cache,
    name: &str,
    store: &mut S,
    out: &mut O,
    pending: &mut Pending,
    steps: &mut Steps<L>,
) -> Result<(), ScanFault>
    requires fits { IsStreamOf db.now stream.old }
    requires cache { IsCacheOf db.now cache.old }
    requires start { offset_of stream.old ≡ 0 }
    ensures fits { IsStreamOf db.now stream.new }
    ensures cache { IsCacheOf db.now cache.new }
    ensures scanned { OnOk result (IsFileScanned db.now (S.told store.old name.now) stream.old stream.new
        (λ text. IsPassedOn (O.written out.old) (O.written out.new) (O.faults out.old) (O.faults out.new)
        pending.old pending.new text)) }
    ensures counted { OnOk result (S.faults store.new ≡ S.faults store.old) }
    ensures cut { OnErr result (IsFilePartlyScanned db.now (S.told store.old name.now) stream.old
        (λ text. TookPrefix (O.written out.old) (O.written out.new) (pending.old ++ text))) }
    ensures fault { IfErr result (λ fault. Interrupts fault (S.told store.old name.now)
        (S.faults store.old) (S.faults store.new) (O.faults out.old) (O.faults out.new)) }
    ensures kept { S.told store.new ≡ S.told store.old }
{
    let mut piece = [0; PIECE_LEN];
    'pieces: loop {
        let at = stream.offset(db);
        let count = match store.read_at(name, at, &mut piece) {
            Ok(0) => return Ok(()),
            Ok(count) => count,
            Err(StoreFault::Absent) => return Err(ScanFault::Absent),
            Err(StoreFault::Failed) => return Err(ScanFault::Store),
        };
        if MAX_OFFSET - at < count as u64 {
            return Err(ScanFault::Limit);
        }
        let bytes = &piece[..count];
        match write_piece(db, &None, stream, cache, bytes, out, pending, steps) {
            Ok(()) => {}
            Err(Failed) => return Err(ScanFault::Write),
        }
    }
}

/// Closes the stream, and writes the lines that wait, those of the reports that its end decides, and that of its
/// length.
pub(crate) fn close_scan<O: Sink, L: Ledger>(
    db: &Database,
    stream: Stream,
    cache: &mut Cache,
    out: &mut O,
    pending: &mut Pending,
    steps: &mut Steps<L>,
) -> Result<(), Failed>
    requires fits { IsStreamOf db.now stream }
    requires cache { IsCacheOf db.now cache.old }
    ensures { IsClosed db.now stream
        (λ text. Sends result (O.written out.old) (O.written out.new) (O.faults out.old) (O.faults out.new)
        (pending.old ++ (text ++ line_of_end (offset_of stream)))) }
{
    let total = stream.offset(db);
    match close_stream(db, stream, cache, out, pending, steps) {
        Ok(()) => write_end(total, out, pending),
        Err(Failed) => Err(Failed),
    }
}

/// Writes the lines that wait, and that of the stream's length.
fn write_end<O: Sink>(total: u64, out: &mut O, pending: &mut Pending) -> Result<(), Failed>
    ensures { Sends result (O.written out.old) (O.written out.new) (O.faults out.old) (O.faults out.new)
        (pending.old ++ line_of_end total) }
{
    let mut line = [0; LINE_LEN];
    let len = end_line(total, &mut line);
    match pending.put(&line[..len], out) {
        Ok(()) => pending.flush(out),
        Err(Failed) => Err(Failed),
    }
}
