//! The command `info DB`.
ghost use Rattle.std.specs.Prelude.{◌≡◌, ◌++◌};
ghost use Rattle.hs_outside.specs.Sink.{Sends};
ghost use Rattle.hs_text.specs.AnswerLines.{info_lines as lines_of_info, size_lines as lines_of_sizes};
ghost use Rattle.hs_lists.specs.ListKinds.{database_file};
ghost use Rattle.hs_lists.specs.Causes.{outcome_of};
ghost use Rattle.hs_lists.specs.Endings.{TellEnds, IsInfoText, outside_of};

use crate::fault::Fault;
use crate::loading::{ListKind, load};
use hs_outside::{Failed, Sink, Store, write_all};
use hs_text::{LINE_LEN, info_lines, size_lines};
use std::alloc::Global;

/// Writes what the database file holds: its version, how many expressions, how many identifiers they have, and the
/// lengths of the region of a stream and of its state file.
pub fn tell_database<'a, S: Store, O: Sink>(
    alloc: Global,
    database: &'a str,
    store: &mut S,
    out: &mut O,
) -> Result<(), Fault<'a>>
    ensures ends { TellEnds IsInfoText database_file database.now
        (outside_of (S.told store.old) (S.faults store.old) (O.written out.old) (O.faults out.old))
        (outside_of (S.told store.new) (S.faults store.new) (O.written out.new) (O.faults out.new))
        (outcome_of result) }
    ensures kept { S.told store.new ≡ S.told store.old }
{
    let loaded = match load(alloc, ListKind::Database, database, store) {
        Ok(loaded) => loaded,
        Err(fault) => return Err(fault),
    };
    let expressions = loaded.entries.len() as u64;
    let identifiers = loaded.database.graph().identifiers.len() as u64;
    let region = loaded.database.region_size() as u64;
    let state = loaded.database.stream_size() as u64;
    match write_info(expressions, identifiers, region, state, out) {
        Ok(()) => Ok(()),
        Err(Failed) => Err(Fault::Write),
    }
}

/// Writes the lines `version 1`, `expressions N`, `identifiers K`, `region R` and `state S`.
fn write_info<O: Sink>(
    expressions: u64,
    identifiers: u64,
    region: u64,
    state: u64,
    out: &mut O,
) -> Result<(), Failed>
    ensures { Sends result (O.written out.old) (O.written out.new) (O.faults out.old) (O.faults out.new)
        (lines_of_info expressions identifiers ++ lines_of_sizes region state) }
{
    let mut lines = [0; LINE_LEN];
    let len = info_lines(expressions, identifiers, &mut lines);
    match write_all(out, &lines[..len]) {
        Ok(()) => write_sizes(region, state, out),
        Err(Failed) => Err(Failed),
    }
}

/// Writes the lines `region R` and `state S`.
fn write_sizes<O: Sink>(region: u64, state: u64, out: &mut O) -> Result<(), Failed>
    ensures { Sends result (O.written out.old) (O.written out.new) (O.faults out.old) (O.faults out.new)
        (lines_of_sizes region state) }
{
    let mut lines = [0; LINE_LEN];
    let len = size_lines(region, state, &mut lines);
    write_all(out, &lines[..len])
}
