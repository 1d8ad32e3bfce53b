//! A file as one stream, from the open to the close.
ghost use Rattle.std.specs.Prelude.{◌≡◌, ℕ, ◌<◌, List};
ghost use Rattle.hs_base.specs.Entries.{ListedEntry};
ghost use Rattle.hs_base.specs.Patterns.{Pattern};
ghost use Rattle.hs_stream.specs.Standing.{RunsPatterns};
ghost use Rattle.hs_lists.specs.ListKinds.{ListKind};
ghost use Rattle.hs_lists.specs.Endings.{HasList, outside_of};
ghost use Rattle.hs_tool.specs.Answers.{ScanEnds};
ghost use Rattle.hs_tool.specs.Stopping.{outcome_of_scan};

use crate::scan::{ScanFault, close_scan, scan_file};
use hs_compile::Database;
use hs_engine::Steps;
use hs_lines::Pending;
use hs_outside::{Failed, Sink, Store};
use hs_stream::{Cache, Stream};
use std::alloc::Global;
use std::marker::Brand;
use std::sync::ledger::{Blank, Ledger};

/// A file, by its name. A ledger can be chosen only for calls that take no bare text.
#[derive(Drop)]
struct FileName<'n> {
    name: &'n str,
}

/// Scans a file as one stream, and writes the text of the match.
pub(crate) fn scan_whole<S: Store, O: Sink>(
    alloc: Global,
    database: &Database,
    file: &str,
    store: &mut S,
    out: &mut O,
) -> Result<(), ScanFault>
    ensures ends { (kind : ListKind) (list : List ℕ) (entries : List ListedEntry) (P : List Pattern) →
        HasList kind (S.told store.old list) entries P → RunsPatterns database.now P → ScanEnds kind list file.now
        (outside_of (S.told store.old) (S.faults store.old) (O.written out.old) (O.faults out.old))
        (outside_of (S.told store.new) (S.faults store.new) (O.written out.new) (O.faults out.new))
        (outcome_of_scan file.now result) }
    ensures kept { S.told store.new ≡ S.told store.old }
{
    let file = FileName { name: file };
    scan_counted::<S, O, Brand>(alloc, database, &file, store, out, Blank::new(1))
}

/// Scans a file as one stream, and counts the steps of engines in a ledger of its own.
fn scan_counted<S: Store, O: Sink, L: Ledger>(
    alloc: Global,
    database: &Database,
    file: &FileName<'_>,
    store: &mut S,
    out: &mut O,
    blank: Blank,
) -> Result<(), ScanFault>
    requires name { blank.name ≡ L.name }
    requires parts { blank.parts ≡ L.parts }
    requires some { 0 < L.parts }
    ensures ends { (kind : ListKind) (list : List ℕ) (entries : List ListedEntry) (P : List Pattern) →
        HasList kind (S.told store.old list) entries P → RunsPatterns database.now P →
        ScanEnds kind list file.now.name.now
        (outside_of (S.told store.old) (S.faults store.old) (O.written out.old) (O.faults out.old))
        (outside_of (S.told store.new) (S.faults store.new) (O.written out.new) (O.faults out.new))
        (outcome_of_scan file.now.name.now result) }
    ensures kept { S.told store.new ≡ S.told store.old }
{
    let mut stream = match Stream::open(alloc, database) {
        Ok(stream) => stream,
        Err(_) => return Err(ScanFault::Memory),
    };
    let mut cache = match Cache::new(alloc, database) {
        Ok(cache) => cache,
        Err(_) => return Err(ScanFault::Memory),
    };
    let mut pending = Pending::new();
    let mut steps = Steps::<L>::open(blank);
    match scan_file(
        database,
        &mut stream,
        &mut cache,
        file.name,
        store,
        out,
        &mut pending,
        &mut steps,
    ) {
        Ok(()) => {}
        Err(fault) => return Err(fault),
    }
    match close_scan(database, stream, &mut cache, out, &mut pending, &mut steps) {
        Ok(()) => Ok(()),
        Err(Failed) => Err(ScanFault::Write),
    }
}
