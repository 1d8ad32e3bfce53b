//! A piece of a stream's bytes, and its end: what they report is written as lines, or waits.
ghost use Rattle.std.specs.Prelude.{◌≡◌, ◌+◌, ◌≤◌, length};
ghost use Rattle.hs_base.specs.Offsets.{greatest_offset};
ghost use Rattle.hs_stream.specs.Caches.{IsCacheOf};
ghost use Rattle.hs_stream.specs.Streams.{offset_of, IsStreamOf};
ghost use Rattle.hs_lines.specs.Passing.{PassesOn};
ghost use Rattle.hs_tool.specs.Scanning.{Scans, IsClosed};

use hs_compile::Database;
use hs_engine::Steps;
use hs_lines::{Name, Pending, ReportLines};
use hs_outside::{Failed, Sink};
use hs_stream::{Cache, Stream};
use std::sync::ledger::Ledger;

/// Writes bytes to the stream, which has this name, if it has one. The lines of what they report are written, or wait.
pub(crate) fn write_piece<O: Sink, L: Ledger>(
    db: &Database,
    name: &Option<Name>,
    stream: &mut Stream,
    cache: &mut Cache,
    bytes: &[u8],
    out: &mut O,
    pending: &mut Pending,
    steps: &mut Steps<L>,
) -> Result<(), Failed>
    requires fits { IsStreamOf db.now stream.old }
    requires cache { IsCacheOf db.now cache.old }
    requires room { offset_of stream.old + length bytes.now ≤ greatest_offset }
    ensures fits { IsStreamOf db.now stream.new }
    ensures cache { IsCacheOf db.now cache.new }
    ensures offset { offset_of stream.new ≡ offset_of stream.old + length bytes.now }
    ensures scanned { Scans db.now name.now stream.old stream.new bytes.now
        (λ text. PassesOn result (O.written out.old) (O.written out.new) (O.faults out.old) (O.faults out.new)
        pending.old pending.new text) }
{
    let mut lines = ReportLines {
        name,
        out,
        pending,
        failed: false,
    };
    match stream.write_cached(db, cache, bytes, &mut lines, steps) {
        Ok(()) | Err(_) => {}
    }
    if lines.failed { Err(Failed) } else { Ok(()) }
}

/// Closes the stream, which has no name. The lines of its last reports are written, or wait.
pub(crate) fn close_stream<O: Sink, L: Ledger>(
    db: &Database,
    stream: Stream,
    cache: &mut Cache,
    out: &mut O,
    pending: &mut Pending,
    steps: &mut Steps<L>,
) -> Result<(), Failed>
    requires fits { IsStreamOf db.now stream }
    requires cache { IsCacheOf db.now cache.old }
    ensures { IsClosed db.now stream
        (λ text. PassesOn result (O.written out.old) (O.written out.new) (O.faults out.old) (O.faults out.new)
        pending.old pending.new text) }
{
    let mut lines = ReportLines {
        name: &None,
        out,
        pending,
        failed: false,
    };
    stream.close_cached(db, cache, &mut lines, steps);
    if lines.failed { Err(Failed) } else { Ok(()) }
}
