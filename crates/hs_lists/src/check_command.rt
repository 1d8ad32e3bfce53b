//! The command `check PATTERNS`.
ghost use Rattle.std.specs.Prelude.{◌≡◌};
ghost use Rattle.hs_outside.specs.Sink.{Sends};
ghost use Rattle.hs_text.specs.AnswerLines.{accepted_line as line_of_accepted};
ghost use Rattle.hs_lists.specs.ListKinds.{pattern_file};
ghost use Rattle.hs_lists.specs.Causes.{outcome_of};
ghost use Rattle.hs_lists.specs.Endings.{TellEnds, IsAcceptedText, outside_of};

use crate::fault::Fault;
use crate::loading::{ListKind, load};
use hs_outside::{Failed, Sink, Store, write_all};
use hs_text::{LINE_LEN, accepted_line};
use std::alloc::Global;

/// Writes how many entries the list of the pattern file has, where it is accepted.
pub fn check_list<'a, S: Store, O: Sink>(
    alloc: Global,
    patterns: &'a str,
    store: &mut S,
    out: &mut O,
) -> Result<(), Fault<'a>>
    ensures ends { TellEnds IsAcceptedText pattern_file patterns.now
        (outside_of (S.told store.old) (S.faults store.old) (O.written out.old) (O.faults out.old))
        (outside_of (S.told store.new) (S.faults store.new) (O.written out.new) (O.faults out.new))
        (outcome_of result) }
    ensures kept { S.told store.new ≡ S.told store.old }
{
    let loaded = match load(alloc, ListKind::Patterns, patterns, store) {
        Ok(loaded) => loaded,
        Err(fault) => return Err(fault),
    };
    match write_accepted(loaded.entries.len() as u64, out) {
        Ok(()) => Ok(()),
        Err(Failed) => Err(Fault::Write),
    }
}

/// Writes the line `accepted COUNT`.
fn write_accepted<O: Sink>(count: u64, out: &mut O) -> Result<(), Failed>
    ensures { Sends result (O.written out.old) (O.written out.new) (O.faults out.old) (O.faults out.new)
        (line_of_accepted count) }
{
    let mut line = [0; LINE_LEN];
    let len = accepted_line(count, &mut line);
    write_all(out, &line[..len])
}
