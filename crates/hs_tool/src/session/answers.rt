//! The answers of single commands, on their way to a sink.
ghost use Rattle.std.specs.Prelude.{◌≡◌, is_err, OnOk, OnErr};
ghost use Rattle.hs_outside.specs.Counts.{Rose};
ghost use Rattle.hs_text.specs.ReplyLines.{reply_line as line_of_reply};
ghost use Rattle.hs_script.specs.Actions.{Reset, Close};
ghost use Rattle.hs_tool.specs.ScriptCommands.{IsTold, SendsFault, FaultCounts};
ghost use Rattle.hs_lines.specs.Passing.{Passes};
ghost use Rattle.hs_tool.specs.Sessions.{IsReady, Keeps};

use super::fault::ScriptStop;
use super::streams::Streams;
use crate::session::Session;
use hs_lines::{Name, Pending, ReportLines};
use hs_outside::{Failed, Sink, Source, Store};
use hs_reader::Break;
use hs_text::{LINE_LEN, Reply, ScriptFault, reply_line, script_fault_line};
use std::sync::ledger::Ledger;

impl<S: Store, I: Source, O: Sink, L: Ledger> Session<'_, '_, '_, '_, '_, '_, S, I, O, L> {
    /// Resets the stream of that name, and gives the answer that is due. The lines of its last reports are written, or
    /// wait.
    pub(crate) fn tell_reset(&mut self, streams: &mut Streams, name: &Name) -> Result<Reply, Failed>
        requires ready { IsReady self.old streams.old }
        ensures keeps { Keeps self.old self.new streams.new }
        ensures same_reader { self.new.reader ≡ self.old.reader }
        ensures same_files { self.new.store ≡ self.old.store }
        ensures same_input { self.new.input ≡ self.old.input }
        ensures told { IsTold self.old.db.now (Reset name.now) result streams.old streams.new
            (O.written self.old.out.now) (O.written self.new.out.now) self.old.pending self.new.pending }
        ensures counted { OnOk result (O.faults self.new.out.now ≡ O.faults self.old.out.now) }
        ensures failed { OnErr result (Rose (O.faults self.old.out.now) (O.faults self.new.out.now)) }
    {
        let named = Some(name.copied());
        let mut lines = ReportLines {
            name: &named,
            out: self.out,
            pending: &mut self.pending,
            failed: false,
        };
        let reply = streams.reset(self.db, self.cache, name.as_slice(), &mut lines, self.steps);
        if lines.failed { Err(Failed) } else { Ok(reply) }
    }

    /// Closes the stream of that name, and gives the answer that is due. The lines of its last reports are written, or
    /// wait.
    pub(crate) fn tell_close(&mut self, streams: &mut Streams, name: &Name) -> Result<Reply, Failed>
        requires ready { IsReady self.old streams.old }
        ensures keeps { Keeps self.old self.new streams.new }
        ensures same_reader { self.new.reader ≡ self.old.reader }
        ensures same_files { self.new.store ≡ self.old.store }
        ensures same_input { self.new.input ≡ self.old.input }
        ensures told { IsTold self.old.db.now (Close name.now) result streams.old streams.new
            (O.written self.old.out.now) (O.written self.new.out.now) self.old.pending self.new.pending }
        ensures counted { OnOk result (O.faults self.new.out.now ≡ O.faults self.old.out.now) }
        ensures failed { OnErr result (Rose (O.faults self.old.out.now) (O.faults self.new.out.now)) }
    {
        let named = Some(name.copied());
        let mut lines = ReportLines {
            name: &named,
            out: self.out,
            pending: &mut self.pending,
            failed: false,
        };
        let reply = streams.close(self.db, self.cache, name.as_slice(), &mut lines, self.steps);
        if lines.failed { Err(Failed) } else { Ok(reply) }
    }
}

/// Writes the line of a reply, or leaves it waiting.
pub(crate) fn write_reply<O: Sink>(
    name: &Name,
    reply: Reply,
    out: &mut O,
    pending: &mut Pending,
) -> Result<(), Failed>
    ensures sends { Passes (is_err result) (O.written out.old) (O.written out.new) pending.old pending.new
        (line_of_reply name.now reply) }
    ensures counted { OnOk result (O.faults out.new ≡ O.faults out.old) }
    ensures failed { OnErr result (Rose (O.faults out.old) (O.faults out.new)) }
{
    let mut line = [0; LINE_LEN];
    let len = reply_line(name.as_slice(), reply, &mut line);
    pending.put(&line[..len], out)
}

/// Writes the line of a fault of the script, or leaves it waiting. The answer is why the script ends there.
pub(crate) fn write_fault<O: Sink>(
    fault: ScriptFault,
    out: &mut O,
    pending: &mut Pending,
) -> ScriptStop
    ensures sends { SendsFault fault (O.written out.old) (O.written out.new) pending.old pending.new result }
    ensures counts { FaultCounts (O.faults out.old) (O.faults out.new) result }
{
    let mut line = [0; LINE_LEN];
    let len = script_fault_line(fault, &mut line);
    match pending.put(&line[..len], out) {
        Ok(()) => ScriptStop::Fault(fault),
        Err(Failed) => ScriptStop::Broken(Break::Write),
    }
}
