//! A script over streams, read as it comes: streams by name, the answers of its commands, and the text of the run on
//! its way to a sink. `specs/Serving.antt` says what it leaves.
ghost use Rattle.std.specs.Prelude.{◌≡◌, ◌<◌, ◌++◌, false, [], is_err, OnOk, OnErr};
ghost use Rattle.hs_outside.specs.Counts.{Rose};
ghost use Rattle.hs_outside.specs.Sink.{Took, TookPrefix};
ghost use Rattle.hs_lines.specs.Passing.{IsPassed, Passes};
ghost use Rattle.hs_stream.specs.Caches.{IsCacheOf};
ghost use Rattle.hs_reader.specs.Breaks.{is_write as is_sink};
ghost use Rattle.hs_tool.specs.SavedFiles.{KeepsBut, MaySave};
ghost use Rattle.hs_tool.specs.ScriptCommands.{StopCounts, StoreCounts};
ghost use Rattle.hs_tool.specs.Serving.{ScriptEnds, EndCounts, EndStored, Flushes, lost_of};

mod answers;
mod commands;
mod fault;
mod files;
mod payload;
mod streams;

pub(crate) use fault::ScriptStop;
use hs_compile::Database;
use hs_engine::Steps;
use hs_lines::Pending;
use hs_outside::{Failed, Sink, Source, Store};
use hs_reader::{Break, Line, Reader};
use hs_stream::Cache;
use std::alloc::Global;
use std::marker::Brand;
use std::sync::ledger::{Blank, Ledger};
use streams::Streams;

/// What the commands of a script work with, beside the open streams.
#[derive(Drop)]
pub(crate) struct Session<'d, 's, 'f, 'i, 'o, 't, S: Store, I: Source, O: Sink, L: Ledger> {
    pub(crate) alloc: Global,
    /// What the streams are scanned for.
    pub(crate) db: &'d Database,
    /// Room to scan in.
    pub(crate) cache: &'s mut Cache,
    /// Where streams are saved.
    pub(crate) store: &'f mut S,
    /// The piece of the script that was read last.
    pub(crate) reader: Reader,
    /// Where the script comes from.
    pub(crate) input: &'i mut I,
    /// Where the answers go.
    pub(crate) out: &'o mut O,
    /// The lines that wait.
    pub(crate) pending: Pending,
    /// The steps of engines.
    pub(crate) steps: &'t mut Steps<L>,
}

/// Runs the script that `input` holds over streams of the database, which are saved in `store`. What it answers and
/// reports goes to `out`.
///
/// # Errors
///
/// `Fault` where the script has a fault, whose line was written; `Broken` where the source or the sink failed or the
/// script is too long; `Store` where a save or an expansion failed at the store; `Memory` before a byte is read or
/// written. Later want of memory is an answer of the script.
pub(crate) fn serve<S: Store, I: Source, O: Sink>(
    alloc: Global,
    db: &Database,
    store: &mut S,
    input: &mut I,
    out: &mut O,
) -> Result<(), ScriptStop>
    ensures ends { ScriptEnds db.now (S.told store.old) (S.told store.new) (I.left input.old) (I.left input.new)
        (λ text. Took (O.written out.old) (O.written out.new) text)
        (λ text. TookPrefix (O.written out.old) (O.written out.new) text) result }
    ensures kept { KeepsBut (MaySave (I.left input.old)) (S.told store.old) (S.told store.new) }
    ensures counts { EndCounts (I.faults input.old) (I.faults input.new) (O.faults out.old) (O.faults out.new) result }
    ensures stored { EndStored (S.faults store.old) (S.faults store.new) result }
{
    serve_counted::<S, I, O, Brand>(alloc, db, store, input, out, Blank::new(1))
}

/// Runs the script, and counts the steps of engines in a ledger of its own.
fn serve_counted<S: Store, I: Source, O: Sink, L: Ledger>(
    alloc: Global,
    db: &Database,
    store: &mut S,
    input: &mut I,
    out: &mut O,
    blank: Blank,
) -> Result<(), ScriptStop>
    requires name { blank.name ≡ L.name }
    requires parts { blank.parts ≡ L.parts }
    requires some { 0 < L.parts }
    ensures ends { ScriptEnds db.now (S.told store.old) (S.told store.new) (I.left input.old) (I.left input.new)
        (λ text. Took (O.written out.old) (O.written out.new) text)
        (λ text. TookPrefix (O.written out.old) (O.written out.new) text) result }
    ensures kept { KeepsBut (MaySave (I.left input.old)) (S.told store.old) (S.told store.new) }
    ensures counts { EndCounts (I.faults input.old) (I.faults input.new) (O.faults out.old) (O.faults out.new) result }
    ensures stored { EndStored (S.faults store.old) (S.faults store.new) result }
{
    let mut cache = match Cache::new(alloc, db) {
        Ok(cache) => cache,
        Err(_) => return Err(ScriptStop::Memory),
    };
    let mut steps = Steps::<L>::open(blank);
    let mut session = Session {
        alloc,
        db,
        cache: &mut cache,
        store,
        reader: Reader::new(),
        input,
        out,
        pending: Pending::new(),
        steps: &mut steps,
    };
    session.run()
}

impl<S: Store, I: Source, O: Sink, L: Ledger> Session<'_, '_, '_, '_, '_, '_, S, I, O, L> {
    /// Runs the script to its end, or until it stops, and writes the lines that wait then.
    fn run(&mut self) -> Result<(), ScriptStop>
        requires cache { IsCacheOf self.old.db.now self.old.cache.now }
        requires unread { self.old.reader ≡ record { bytes = []; at = 0; ended = false } }
        requires unanswered { self.old.pending ≡ [] }
        ensures same_store { self.new.store.ghost_name ≡ self.old.store.ghost_name }
        ensures same_input { self.new.input.ghost_name ≡ self.old.input.ghost_name }
        ensures same_out { self.new.out.ghost_name ≡ self.old.out.ghost_name }
        ensures ends { ScriptEnds self.old.db.now (S.told self.old.store.now) (S.told self.new.store.now)
            (I.left self.old.input.now) (I.left self.new.input.now)
            (λ text. Took (O.written self.old.out.now) (O.written self.new.out.now) text)
            (λ text. TookPrefix (O.written self.old.out.now) (O.written self.new.out.now) text) result }
        ensures kept { KeepsBut (MaySave (I.left self.old.input.now)) (S.told self.old.store.now)
            (S.told self.new.store.now) }
        ensures counts { EndCounts (I.faults self.old.input.now) (I.faults self.new.input.now)
            (O.faults self.old.out.now) (O.faults self.new.out.now) result }
        ensures stored { EndStored (S.faults self.old.store.now) (S.faults self.new.store.now) result }
    {
        let ended = self.run_script();
        flush(ended, self.out, &mut self.pending)
    }

    /// Runs the script to its end, or until it stops. Lines may wait then.
    fn run_script(&mut self) -> Result<(), ScriptStop>
        requires cache { IsCacheOf self.old.db.now self.old.cache.now }
        requires unread { self.old.reader ≡ record { bytes = []; at = 0; ended = false } }
        ensures same_store { self.new.store.ghost_name ≡ self.old.store.ghost_name }
        ensures same_input { self.new.input.ghost_name ≡ self.old.input.ghost_name }
        ensures same_out { self.new.out.ghost_name ≡ self.old.out.ghost_name }
        ensures ends { ScriptEnds self.old.db.now (S.told self.old.store.now) (S.told self.new.store.now)
            (I.left self.old.input.now) (I.left self.new.input.now)
            (λ text. IsPassed (O.written self.old.out.now) (O.written self.new.out.now) self.old.pending
            self.new.pending text)
            (λ text. TookPrefix (O.written self.old.out.now) (O.written self.new.out.now) (self.old.pending ++ text))
            result }
        ensures kept { KeepsBut (MaySave (I.left self.old.input.now)) (S.told self.old.store.now)
            (S.told self.new.store.now) }
        ensures counts { StopCounts (I.faults self.old.input.now) (I.faults self.new.input.now)
            (O.faults self.old.out.now) (O.faults self.new.out.now) result }
        ensures stored { StoreCounts (S.faults self.old.store.now) (S.faults self.new.store.now) result }
    {
        let mut streams = Streams::new(self.alloc);
        let mut line = Line::new();
        let mut number: u64 = 1;
        loop {
            match self.reader.read_line(self.input, &mut line) {
                Ok(true) => {}
                Ok(false) => return Ok(()),
                Err(stop) => return Err(ScriptStop::Broken(stop)),
            }
            match self.run_line(&mut streams, &line, number) {
                Ok(()) => {}
                Err(stop) => return Err(stop),
            }
            match answer_now(&self.reader, self.out, &mut self.pending) {
                Ok(()) => {}
                Err(Failed) => return Err(ScriptStop::Broken(Break::Write)),
            }
            number += 1;
        }
    }
}

/// Writes the lines that wait where the next bytes of the script are still to be read: whoever writes it may be waiting
/// for its answers.
fn answer_now<O: Sink>(reader: &Reader, out: &mut O, pending: &mut Pending) -> Result<(), Failed>
    ensures sends { Passes (is_err result) (O.written out.old) (O.written out.new) pending.old pending.new [] }
    ensures none { OnOk result (reader.now.bytes ≡ [] → pending.new ≡ []) }
    ensures counted { OnOk result (O.faults out.new ≡ O.faults out.old) }
    ensures failed { OnErr result (Rose (O.faults out.old) (O.faults out.new)) }
{
    if !reader.waiting().is_empty() {
        return Ok(());
    }
    pending.flush(out)
}

/// Writes the lines that wait, unless the sink failed.
fn flush<O: Sink>(
    ended: Result<(), ScriptStop>,
    out: &mut O,
    pending: &mut Pending,
) -> Result<(), ScriptStop>
    ensures { Flushes ended result (O.written out.old) (O.written out.new) pending.old (O.faults out.old)
        (O.faults out.new) }
{
    if is_lost(&ended) {
        return ended;
    }
    match pending.flush(out) {
        Ok(()) => ended,
        Err(Failed) => Err(ScriptStop::Broken(Break::Write)),
    }
}

/// Whether the sink failed.
fn is_lost(ended: &Result<(), ScriptStop>) -> bool
    ensures { result ≡ lost_of ended.now }
{
    match ended {
        Ok(()) => false,
        Err(ScriptStop::Fault(_)) | Err(ScriptStop::Store) | Err(ScriptStop::Memory) => false,
        Err(ScriptStop::Broken(stop)) => is_write(*stop),
    }
}

/// Whether it is the sink's failure.
fn is_write(stop: Break) -> bool
    ensures { result ≡ is_sink stop }
{
    match stop {
        Break::Read | Break::Limit => false,
        Break::Write => true,
    }
}
