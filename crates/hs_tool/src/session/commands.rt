//! The commands of a script.
ghost use Rattle.std.specs.Prelude.{◌≡◌, List, ℕ};
ghost use Rattle.hs_text.specs.Commands.{IsCommand, IsFileName};
ghost use Rattle.hs_text.specs.Commands as order;
ghost use Rattle.hs_tool.specs.SavedFiles.{KeepsBut, SavesInto};
ghost use Rattle.hs_tool.specs.ScriptCommands.{done_of, IsNotStore, LeavesAt, StopCounts, StoreCounts};
ghost use Rattle.hs_reader.specs.Reading.{kept_of};
ghost use Rattle.hs_tool.specs.Sessions.{Answers, IsReady, Keeps};

use super::answers::{write_fault, write_reply};
use super::fault::ScriptStop;
use super::files::{expand_file, path_of, save_file};
use super::streams::Streams;
use crate::session::Session;
use hs_lines::Name;
use hs_outside::{Failed, Sink, Source, Store};
use hs_reader::{Break, Line};
use hs_text::{Command, ScriptFault, command};
use std::sync::ledger::Ledger;

impl<S: Store, I: Source, O: Sink, L: Ledger> Session<'_, '_, '_, '_, '_, '_, S, I, O, L> {
    /// Runs the command of a line, whose number is counted from 1.
    pub(crate) fn run_line(
        &mut self,
        streams: &mut Streams,
        line: &Line,
        number: u64,
    ) -> Result<(), ScriptStop>
        requires ready { IsReady self.old streams.old }
        ensures keeps { Keeps self.old self.new streams.new }
        ensures runs { (whole : List ℕ) → line.now ≡ kept_of whole →
            Answers S.told I.left O.written self.old self.new whole number streams.old streams.new result }
        ensures leaves { LeavesAt self.new.reader result }
        ensures counts { StopCounts (I.faults self.old.input.now) (I.faults self.new.input.now)
            (O.faults self.old.out.now) (O.faults self.new.out.now) result }
        ensures files { (whole : List ℕ) → line.now ≡ kept_of whole →
            KeepsBut (SavesInto whole) (S.told self.old.store.now) (S.told self.new.store.now) }
        ensures stored { StoreCounts (S.faults self.old.store.now) (S.faults self.new.store.now) result }
    {
        let Some(command) = command(line.as_slice()) else {
            let fault = ScriptFault::Script(number);
            return Err(write_fault(fault, self.out, &mut self.pending));
        };
        match command {
            Command::Open(name) => self.open(streams, &Name::new(name)),
            Command::Write(name, count) => self.write(streams, &Name::new(name), count, number),
            Command::Reset(name) => self.reset(streams, &Name::new(name)),
            Command::Close(name) => self.close(streams, &Name::new(name)),
            Command::Save(name, file) => self.save(streams, &Name::new(name), file),
            Command::Expand(name, file) => self.expand(streams, &Name::new(name), file),
        }
    }

    /// Opens the stream of that name, and answers.
    fn open(&mut self, streams: &mut Streams, name: &Name) -> Result<(), ScriptStop>
        requires ready { IsReady self.old streams.old }
        ensures keeps { Keeps self.old self.new streams.new }
        ensures runs { (whole : List ℕ) (number : ℕ) → IsCommand whole (order.Open name.now) →
            Answers S.told I.left O.written self.old self.new whole number streams.old streams.new result }
        ensures leaves { LeavesAt self.new.reader result }
        ensures counts { StopCounts (I.faults self.old.input.now) (I.faults self.new.input.now)
            (O.faults self.old.out.now) (O.faults self.new.out.now) result }
        ensures same_files { self.new.store ≡ self.old.store }
        ensures unfailed { IsNotStore result }
    {
        let reply = streams.open(self.alloc, self.db, name.as_slice());
        done(write_reply(name, reply, self.out, &mut self.pending))
    }

    /// Takes so many bytes, which stand behind the line of this number, for the stream of that name, and answers behind
    /// the lines of what they report.
    fn write(
        &mut self,
        streams: &mut Streams,
        name: &Name,
        count: u64,
        number: u64,
    ) -> Result<(), ScriptStop>
        requires ready { IsReady self.old streams.old }
        ensures keeps { Keeps self.old self.new streams.new }
        ensures runs { (whole : List ℕ) → IsCommand whole (order.Write name.now count) →
            Answers S.told I.left O.written self.old self.new whole number streams.old streams.new result }
        ensures leaves { LeavesAt self.new.reader result }
        ensures counts { StopCounts (I.faults self.old.input.now) (I.faults self.new.input.now)
            (O.faults self.old.out.now) (O.faults self.new.out.now) result }
        ensures same_files { self.new.store ≡ self.old.store }
        ensures unfailed { IsNotStore result }
    {
        let payload = match self.take_payload(streams, name, count) {
            Ok(payload) => payload,
            Err(stop) => return Err(ScriptStop::Broken(stop)),
        };
        if !payload.whole {
            let fault = ScriptFault::Truncated(number);
            return Err(write_fault(fault, self.out, &mut self.pending));
        }
        match write_reply(name, payload.reply, self.out, &mut self.pending) {
            Ok(()) => {}
            Err(Failed) => return Err(ScriptStop::Broken(Break::Write)),
        }
        match self.reader.take_feed(self.input) {
            Ok(true) => Ok(()),
            Ok(false) => {
                let fault = ScriptFault::Script(number);
                Err(write_fault(fault, self.out, &mut self.pending))
            }
            Err(stop) => Err(ScriptStop::Broken(stop)),
        }
    }

    /// Resets the stream of that name, and answers behind the lines of its last reports.
    fn reset(&mut self, streams: &mut Streams, name: &Name) -> Result<(), ScriptStop>
        requires ready { IsReady self.old streams.old }
        ensures keeps { Keeps self.old self.new streams.new }
        ensures runs { (whole : List ℕ) (number : ℕ) → IsCommand whole (order.Reset name.now) →
            Answers S.told I.left O.written self.old self.new whole number streams.old streams.new result }
        ensures leaves { LeavesAt self.new.reader result }
        ensures counts { StopCounts (I.faults self.old.input.now) (I.faults self.new.input.now)
            (O.faults self.old.out.now) (O.faults self.new.out.now) result }
        ensures same_files { self.new.store ≡ self.old.store }
        ensures unfailed { IsNotStore result }
    {
        match self.tell_reset(streams, name) {
            Ok(reply) => done(write_reply(name, reply, self.out, &mut self.pending)),
            Err(Failed) => Err(ScriptStop::Broken(Break::Write)),
        }
    }

    /// Closes the stream of that name, and answers behind the lines of its last reports.
    fn close(&mut self, streams: &mut Streams, name: &Name) -> Result<(), ScriptStop>
        requires ready { IsReady self.old streams.old }
        ensures keeps { Keeps self.old self.new streams.new }
        ensures runs { (whole : List ℕ) (number : ℕ) → IsCommand whole (order.Close name.now) →
            Answers S.told I.left O.written self.old self.new whole number streams.old streams.new result }
        ensures leaves { LeavesAt self.new.reader result }
        ensures counts { StopCounts (I.faults self.old.input.now) (I.faults self.new.input.now)
            (O.faults self.old.out.now) (O.faults self.new.out.now) result }
        ensures same_files { self.new.store ≡ self.old.store }
        ensures unfailed { IsNotStore result }
    {
        match self.tell_close(streams, name) {
            Ok(reply) => done(write_reply(name, reply, self.out, &mut self.pending)),
            Err(Failed) => Err(ScriptStop::Broken(Break::Write)),
        }
    }

    /// Saves the stream of that name into the file, and answers.
    fn save(&mut self, streams: &Streams, name: &Name, file: &[u8]) -> Result<(), ScriptStop>
        requires ready { IsReady self.old streams.now }
        requires named { IsFileName file.now }
        ensures keeps { Keeps self.old self.new streams.now }
        ensures runs { (whole : List ℕ) (number : ℕ) → IsCommand whole (order.Save name.now file.now) →
            Answers S.told I.left O.written self.old self.new whole number streams.now streams.now result }
        ensures leaves { LeavesAt self.new.reader result }
        ensures counts { StopCounts (I.faults self.old.input.now) (I.faults self.new.input.now)
            (O.faults self.old.out.now) (O.faults self.new.out.now) result }
        ensures files { KeepsBut (λ name. file.now ≡ name) (S.told self.old.store.now) (S.told self.new.store.now) }
        ensures stored { StoreCounts (S.faults self.old.store.now) (S.faults self.new.store.now) result }
    {
        let path = path_of(file);
        match save_file(
            self.alloc,
            self.db,
            streams,
            self.store,
            name.as_slice(),
            path,
        ) {
            Ok(reply) => done(write_reply(name, reply, self.out, &mut self.pending)),
            Err(Failed) => Err(ScriptStop::Store),
        }
    }

    /// Opens a stream of that name that goes on as the one that was saved into the file, and answers.
    fn expand(&mut self, streams: &mut Streams, name: &Name, file: &[u8]) -> Result<(), ScriptStop>
        requires ready { IsReady self.old streams.old }
        requires named { IsFileName file.now }
        ensures keeps { Keeps self.old self.new streams.new }
        ensures runs { (whole : List ℕ) (number : ℕ) → IsCommand whole (order.Expand name.now file.now) →
            Answers S.told I.left O.written self.old self.new whole number streams.old streams.new result }
        ensures leaves { LeavesAt self.new.reader result }
        ensures counts { StopCounts (I.faults self.old.input.now) (I.faults self.new.input.now)
            (O.faults self.old.out.now) (O.faults self.new.out.now) result }
        ensures files { S.told self.new.store.now ≡ S.told self.old.store.now }
        ensures stored { StoreCounts (S.faults self.old.store.now) (S.faults self.new.store.now) result }
    {
        let path = path_of(file);
        match expand_file(
            self.alloc,
            self.db,
            streams,
            self.store,
            name.as_slice(),
            path,
        ) {
            Ok(reply) => done(write_reply(name, reply, self.out, &mut self.pending)),
            Err(Failed) => Err(ScriptStop::Store),
        }
    }
}

/// What came of a command whose answer was written.
fn done(written: Result<(), Failed>) -> Result<(), ScriptStop>
    ensures { result ≡ done_of written }
{
    match written {
        Ok(()) => Ok(()),
        Err(Failed) => Err(ScriptStop::Broken(Break::Write)),
    }
}
