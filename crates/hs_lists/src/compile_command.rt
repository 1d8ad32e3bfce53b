//! The command `compile PATTERNS DB`.
ghost use Rattle.std.specs.Prelude.{◌≡◌, ◌⊎◌, ℕ, List, map};
ghost use Rattle.hs_base.specs.Entries.{listed};
ghost use Rattle.hs_base.specs.Patterns.{Pattern};
ghost use Rattle.hs_outside.specs.Sink.{Sends};
ghost use Rattle.hs_outside.specs.Store.{KeepsOthers, TellsNothing};
ghost use Rattle.hs_text.specs.AnswerLines.{compiled_line as line_of_compiled};
ghost use Rattle.hs_dbfile.specs.Files.{AreWritable};
ghost use Rattle.hs_lists.specs.ListKinds.{pattern_file};
ghost use Rattle.hs_lists.specs.Causes.{outcome_of};
ghost use Rattle.hs_lists.specs.Endings.{CompileEnds, HasList, outside_of};

use crate::fault::Fault;
use crate::loading::{ListKind, load};
use hs_base::Entry;
use hs_dbfile::encode_file;
use hs_outside::{Failed, Sink, Store, write_all};
use hs_text::{LINE_LEN, compiled_line};
use std::alloc::Global;

/// Puts the database file of the list of a pattern file, and writes how many entries and bytes it has.
pub fn compile_list<'a, S: Store, O: Sink>(
    alloc: Global,
    patterns: &'a str,
    database: &'a str,
    store: &mut S,
    out: &mut O,
) -> Result<(), Fault<'a>>
    ensures ends { CompileEnds patterns.now database.now
        (outside_of (S.told store.old) (S.faults store.old) (O.written out.old) (O.faults out.old))
        (outside_of (S.told store.new) (S.faults store.new) (O.written out.new) (O.faults out.new))
        (outcome_of result) }
    ensures kept { KeepsOthers (S.told store.old) (S.told store.new) database.now ⊎ TellsNothing (S.told store.new) }
{
    let loaded = match load(alloc, ListKind::Patterns, patterns, store) {
        Ok(loaded) => loaded,
        Err(fault) => return Err(fault),
    };
    put_list(alloc, loaded.entries.as_slice(), database, store, out)
}

/// Puts the database file of a list that is accepted, and writes how many entries and bytes it has.
fn put_list<'a, S: Store, O: Sink>(
    alloc: Global,
    entries: &[Entry],
    database: &str,
    store: &mut S,
    out: &mut O,
) -> Result<(), Fault<'a>>
    requires { AreWritable (map listed entries.now) }
    ensures ends { (patterns : List ℕ) (P : List Pattern) →
        HasList pattern_file (S.told store.old patterns) (map listed entries.now) P → CompileEnds patterns database.now
        (outside_of (S.told store.old) (S.faults store.old) (O.written out.old) (O.faults out.old))
        (outside_of (S.told store.new) (S.faults store.new) (O.written out.new) (O.faults out.new))
        (outcome_of result) }
    ensures kept { KeepsOthers (S.told store.old) (S.told store.new) database.now ⊎ TellsNothing (S.told store.new) }
{
    let bytes = match encode_file(alloc, entries) {
        Ok(bytes) => bytes,
        Err(_) => return Err(Fault::Memory),
    };
    match store.put(database, bytes.as_slice()) {
        Ok(()) => {}
        Err(Failed) => return Err(Fault::Store),
    }
    match write_compiled(entries.len() as u64, bytes.len() as u64, out) {
        Ok(()) => Ok(()),
        Err(Failed) => Err(Fault::Write),
    }
}

/// Writes the line `compiled COUNT BYTES`.
fn write_compiled<O: Sink>(count: u64, bytes: u64, out: &mut O) -> Result<(), Failed>
    ensures { Sends result (O.written out.old) (O.written out.new) (O.faults out.old) (O.faults out.new)
        (line_of_compiled count bytes) }
{
    let mut line = [0; LINE_LEN];
    let len = compiled_line(count, bytes, &mut line);
    write_all(out, &line[..len])
}
