//! Why a command wasn't done.
ghost use Rattle.std.specs.Prelude.{◌≡◌, ◌++◌, codes};
ghost use Rattle.hs_outside.specs.Sink.{Sends};
ghost use Rattle.hs_text.specs.RefusalLines.{refusal_line as line_of_refusal};
ghost use Rattle.hs_text.specs.AnswerLines.{form_line as line_of_form};

use hs_base::{ExprId, Refusal};
use hs_outside::{Failed, Sink, write_all};
use hs_text::{LINE_LEN, ScriptFault, form_line, refusal_line};

/// Why a command wasn't done.
#[derive(Clone, Copy, Debug)]
pub enum Fault<'a> {
    /// The words are no command.
    Usage,
    /// The list is refused: by a line of its file, or by the entry of this number, counted from 1.
    Refused(Option<(u32, ExprId)>, Refusal),
    /// The source failed.
    Read,
    /// The sink failed.
    Write,
    /// The store failed.
    Store,
    /// The store lacks the file of this name.
    Absent(&'a str),
    /// A file or the script is longer than its limit.
    Limit,
    /// The bytes aren't a database file from this place on.
    Form(u64),
    /// The script has a fault, whose line was written among its answers.
    Script(ScriptFault),
    /// Memory was wanted.
    Memory,
}

impl Fault<'_> {
    ghost use Rattle.std.specs.Prelude.{◌≡◌};
    ghost use Rattle.hs_outside.specs.Sink.{Sends};
    ghost use Rattle.hs_lists.specs.Causes.{cause_of, status_of_cause, line_of_cause};

    /// The status that the program ends with.
    pub fn status(&self) -> u8
        ensures { result ≡ status_of_cause (cause_of self.now) }
    {
        match self {
            Fault::Usage => 1,
            Fault::Refused(_, _) => 2,
            Fault::Read | Fault::Write | Fault::Store => 3,
            Fault::Form(_) => 4,
            Fault::Script(_) => 5,
            Fault::Memory => 6,
            Fault::Absent(_) => 7,
            Fault::Limit => 8,
        }
    }

    /// Writes the fault's line, if it has one of its own.
    pub fn tell<E: Sink>(&self, err: &mut E) -> Result<(), Failed>
        ensures { Sends result (E.written err.old) (E.written err.new) (E.faults err.old) (E.faults err.new)
            (line_of_cause (cause_of self.now)) }
    {
        match self {
            Fault::Usage => write_all(err, b"fault usage\n"),
            Fault::Refused(entry, refusal) => tell_refusal(*entry, refusal, err),
            Fault::Read => write_all(err, b"fault read\n"),
            Fault::Write => write_all(err, b"fault write\n"),
            Fault::Store => write_all(err, b"fault store\n"),
            Fault::Absent(name) => tell_absent(name, err),
            Fault::Limit => write_all(err, b"fault limit\n"),
            Fault::Form(at) => tell_form(*at, err),
            Fault::Script(_) => Ok(()),
            Fault::Memory => write_all(err, b"fault memory\n"),
        }
    }
}

/// Writes the line of a refusal.
fn tell_refusal<E: Sink>(
    entry: Option<(u32, ExprId)>,
    refusal: &Refusal,
    err: &mut E,
) -> Result<(), Failed>
    ensures { Sends result (E.written err.old) (E.written err.new) (E.faults err.old) (E.faults err.new)
        (line_of_refusal entry refusal.now) }
{
    let mut line = [0; LINE_LEN];
    let len = refusal_line(entry, refusal, &mut line);
    write_all(err, &line[..len])
}

/// Writes the line `fault database AT`.
fn tell_form<E: Sink>(at: u64, err: &mut E) -> Result<(), Failed>
    ensures { Sends result (E.written err.old) (E.written err.new) (E.faults err.old) (E.faults err.new)
        (line_of_form at) }
{
    let mut line = [0; LINE_LEN];
    let len = form_line(at, &mut line);
    write_all(err, &line[..len])
}

/// Writes the line `fault absent NAME`.
fn tell_absent<E: Sink>(name: &str, err: &mut E) -> Result<(), Failed>
    ensures { Sends result (E.written err.old) (E.written err.new) (E.faults err.old) (E.faults err.new)
        (codes "fault absent " ++ name.now ++ codes "\n") }
{
    match write_all(err, b"fault absent ") {
        Ok(()) => {}
        Err(Failed) => return Err(Failed),
    }
    match write_all(err, name.as_bytes()) {
        Ok(()) => {}
        Err(Failed) => return Err(Failed),
    }
    write_all(err, b"\n")
}
