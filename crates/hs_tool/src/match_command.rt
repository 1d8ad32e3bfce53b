//! The commands `match PATTERNS FILE` and `scan DB FILE`.
ghost use Rattle.std.specs.Prelude.{◌≡◌};
ghost use Rattle.hs_lists.specs.Causes.{cause_of, outcome_of};
ghost use Rattle.hs_lists.specs.ListKinds.{kind_of};
ghost use Rattle.hs_lists.specs.Endings.{outside_of};
ghost use Rattle.hs_tool.specs.Answers.{ScanEnds};
ghost use Rattle.hs_tool.specs.Stopping.{cause_of_scan};

use crate::scan::ScanFault;
use crate::whole_scan::scan_whole;
use hs_lists::{Fault, ListKind, load};
use hs_outside::{Sink, Store};
use std::alloc::Global;

/// Scans the file `file` for the expressions of the file `list`, and writes the text of the match.
pub fn match_file<'a, S: Store, O: Sink>(
    alloc: Global,
    kind: ListKind,
    list: &'a str,
    file: &'a str,
    store: &mut S,
    out: &mut O,
) -> Result<(), Fault<'a>>
    ensures ends { ScanEnds (kind_of kind) list.now file.now
        (outside_of (S.told store.old) (S.faults store.old) (O.written out.old) (O.faults out.old))
        (outside_of (S.told store.new) (S.faults store.new) (O.written out.new) (O.faults out.new))
        (outcome_of result) }
    ensures kept { S.told store.new ≡ S.told store.old }
{
    let loaded = match load(alloc, kind, list, store) {
        Ok(loaded) => loaded,
        Err(fault) => return Err(fault),
    };
    match scan_whole(alloc, &loaded.database, file, store, out) {
        Ok(()) => Ok(()),
        Err(fault) => Err(fault_of(fault, file)),
    }
}

/// The fault of a command whose scan of the file stopped.
fn fault_of<'a>(fault: ScanFault, file: &'a str) -> Fault<'a>
    ensures { cause_of result ≡ cause_of_scan file.now fault }
{
    match fault {
        ScanFault::Absent => Fault::Absent(file),
        ScanFault::Store => Fault::Store,
        ScanFault::Write => Fault::Write,
        ScanFault::Limit => Fault::Limit,
        ScanFault::Memory => Fault::Memory,
    }
}
