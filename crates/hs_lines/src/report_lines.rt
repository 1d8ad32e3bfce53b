//! The lines of a stream's reports, on their way to a sink.
ghost use Rattle.std.specs.Prelude.{◌≡◌, ◌≤◌, length, IfSome};
ghost use Rattle.std.specs.Option.{option_copied};

use crate::name::Name;
use crate::pending::Pending;
use hs_base::{ExprId, Report};
use hs_outside::{Failed, Sink};
use hs_reports::Events;
use hs_text::{LINE_LEN, NAME_LEN, report_line};

/// Writes the line of each report that it takes, with the stream's name if it has one, until the sink fails.
#[derive(Drop)]
pub struct ReportLines<'n, 'o, 'p, O: Sink> {
    /// The name of the stream, if it has one.
    pub name: &'n Option<Name>,
    /// Where the lines go.
    pub out: &'o mut O,
    /// The lines that wait.
    pub pending: &'p mut Pending,
    /// Whether the sink failed.
    pub failed: bool,
}

impl<O: Sink> Events for ReportLines<'_, '_, '_, O> {
    ghost use Rattle.hs_lines.specs.Printing.{Writes};

    ghost tells = { λ before id to after. Writes O.written O.faults before id to after };

    fn report(&mut self, id: ExprId, to: u64) {
        if self.failed {
            return;
        }
        let mut line = [0; LINE_LEN];
        let len = report_line(bytes_of(self.name), Report { id, to }, &mut line);
        match self.pending.put(&line[..len], self.out) {
            Ok(()) => {}
            Err(Failed) => self.failed = true,
        }
    }
}

/// The bytes of a name, if there is one.
fn bytes_of(name: &Option<Name>) -> Option<&[u8]>
    ensures bytes { option_copied result ≡ name.now }
    ensures short { IfSome result (λ bytes. length bytes.now ≤ NAME_LEN) }
{
    match name {
        Some(name) => Some(name.as_slice()),
        None => None,
    }
}
