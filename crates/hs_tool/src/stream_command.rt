//! The command `stream DB`.
ghost use Rattle.std.specs.Prelude.{◌≡◌};
ghost use Rattle.hs_lists.specs.Causes.{cause_of, outcome_of};
ghost use Rattle.hs_lists.specs.Endings.{outside_of};
ghost use Rattle.hs_tool.specs.Answers.{StreamEnds};
ghost use Rattle.hs_tool.specs.SavedFiles.{KeepsBut, MaySave};
ghost use Rattle.hs_tool.specs.Stopping.{cause_of_stop};

use crate::session::{ScriptStop, serve};
use hs_lists::{Fault, ListKind, load};
use hs_outside::{Sink, Source, Store};
use hs_reader::Break;
use std::alloc::Global;

/// Runs the script of the input over streams of the database file, and writes what the streams report and its commands
/// are answered.
pub fn run_script<'a, S: Store, I: Source, O: Sink>(
    alloc: Global,
    database: &'a str,
    store: &mut S,
    input: &mut I,
    out: &mut O,
) -> Result<(), Fault<'a>>
    ensures ends { StreamEnds database.now
        (outside_of (S.told store.old) (S.faults store.old) (O.written out.old) (O.faults out.old))
        (outside_of (S.told store.new) (S.faults store.new) (O.written out.new) (O.faults out.new))
        (record { left = I.left input.old; faults = I.faults input.old })
        (record { left = I.left input.new; faults = I.faults input.new })
        (outcome_of result) }
    ensures kept { KeepsBut (MaySave (I.left input.old)) (S.told store.old) (S.told store.new) }
{
    let loaded = match load(alloc, ListKind::Database, database, store) {
        Ok(loaded) => loaded,
        Err(fault) => return Err(fault),
    };
    match serve(alloc, &loaded.database, store, input, out) {
        Ok(()) => Ok(()),
        Err(stop) => Err(fault_of(stop)),
    }
}

/// The fault of a command whose script stopped.
fn fault_of<'a>(stop: ScriptStop) -> Fault<'a>
    ensures { cause_of result ≡ cause_of_stop stop }
{
    match stop {
        ScriptStop::Fault(fault) => Fault::Script(fault),
        ScriptStop::Broken(Break::Read) => Fault::Read,
        ScriptStop::Broken(Break::Limit) => Fault::Limit,
        ScriptStop::Broken(Break::Write) => Fault::Write,
        ScriptStop::Store => Fault::Store,
        ScriptStop::Memory => Fault::Memory,
    }
}
