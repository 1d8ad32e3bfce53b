//! The whole program over any store, source and sinks.
ghost use Rattle.std.specs.Prelude.{◌≡◌, ◌⊎◌, ℕ, List, [], map, string_bytes, Option, Some, None};
ghost use Rattle.hs_outside.specs.Counts.{Rose};
ghost use Rattle.hs_outside.specs.Sink.{Took};
ghost use Rattle.hs_request.specs.Requests.{request_of as request_of_words, plain_request, run_script as run_script_of};
ghost use Rattle.hs_request.specs.Requests.{soak as soak_of};
ghost use Rattle.hs_tool.specs.Commands.{IsStream};
ghost use Rattle.hs_lists.specs.Causes.{Cause, cause_of, outcome_of, status_of, status_of_cause, line_of_cause};
ghost use Rattle.hs_tool.specs.Answers.{Ends, IsDue, KeepsFiles, TellsFile, Tells, IsAnswer, IsStatus, IsSilentStatus};
ghost use Rattle.hs_lists.specs.Endings.{outside_of};
ghost use Rattle.hs_tool.specs.Answers.{HasRun, HasSoaked};

use crate::match_command::match_file;
use crate::soak_command::soak;
use crate::stream_command::run_script;
use hs_lists::{Fault, ListKind, check_list, compile_list, tell_database};
use hs_outside::{Failed, Sink, Source, Store};
use hs_request::{Request, request_of};
use std::alloc::Global;

/// Does what the words ask for, which begin with the program's name, and gives the status that the program ends with.
/// What is asked for is written to `out`, a fault's line to `err`. Only `stream` reads from `input`.
pub fn run<S: Store, I: Source, O: Sink, E: Sink>(
    alloc: Global,
    words: &[String],
    store: &mut S,
    input: &mut I,
    out: &mut O,
    err: &mut E,
) -> u8
    ensures answer { IsAnswer (request_of_words (map string_bytes words.now))
        (outside_of (S.told store.old) (S.faults store.old) (O.written out.old) (O.faults out.old))
        (outside_of (S.told store.new) (S.faults store.new) (O.written out.new) (O.faults out.new))
        (record { left = I.left input.old; faults = I.faults input.old })
        (record { left = I.left input.new; faults = I.faults input.new })
        (E.written err.old) (E.written err.new) (E.faults err.old) (E.faults err.new) result }

    // 0 to 8, and what some of them say by themselves.
    ensures status { IsStatus result }
    ensures usage { result ≡ 1 → request_of_words (map string_bytes words.now) ≡ None }
    ensures no_command { request_of_words (map string_bytes words.now) ≡ None → (result ≡ 1) ⊎ (result ≡ 6) }
    ensures fault { result ≡ 3 →
        Rose (S.faults store.old) (S.faults store.new) ⊎ (Rose (O.faults out.old) (O.faults out.new)
        ⊎ (IsStream (request_of_words (map string_bytes words.now)) × Rose (I.faults input.old) (I.faults input.new))) }
    ensures script { result ≡ 5 → IsStream (request_of_words (map string_bytes words.now)) }
    ensures silent { IsSilentStatus result
        → (result ≡ 7 → TellsFile (request_of_words (map string_bytes words.now)) (S.told store.old))
        → Took (O.written out.old) (O.written out.new) [] }
    ensures unput { IsSilentStatus result → S.told store.new ≡ S.told store.old }
    ensures unread { IsSilentStatus result → I.left input.new ≡ I.left input.old }

    // Where `stream` ends with 0 or 5, `out` took the text of a run of the machine over the whole script, and the
    // files are those of the machine.
    ensures stream { (database : List ℕ) →
        request_of_words (map string_bytes words.now) ≡ Some (run_script_of database) → (result ≡ 0) ⊎ (result ≡ 5)
        → HasRun database (S.told store.old) (S.told store.new) (I.left input.old) (O.written out.old)
        (O.written out.new) result }

    // Where `soak` ends with 0, `out` took its five lines, of which the last two tell the same of the whole stream.
    ensures soak { (seed count : ℕ) → request_of_words (map string_bytes words.now) ≡ Some (soak_of seed count)
        → result ≡ 0 → HasSoaked seed count (O.written out.old) (O.written out.new) }

    // Where the store tells the files, the source the script that is run, and no call on them or on `out` failed, the
    // status is the due one, or 6.
    ensures complete { (due : Option Cause) →
        IsDue (S.told store.old) (I.left input.old) (request_of_words (map string_bytes words.now)) due
        → (Rose (S.faults store.old) (S.faults store.new) → ⊥) → (Rose (O.faults out.old) (O.faults out.new) → ⊥)
        → (IsStream (request_of_words (map string_bytes words.now)) → Rose (I.faults input.old) (I.faults input.new) →
        ⊥)
        → (result ≡ status_of due) ⊎ (result ≡ 6) }

    ensures kept { KeepsFiles (request_of_words (map string_bytes words.now)) (I.left input.old) (S.told store.old)
        (S.told store.new) }
    ensures input { (IsStream (request_of_words (map string_bytes words.now)) → ⊥) → input.new ≡ input.old }
{
    match perform(alloc, words, store, input, out) {
        Ok(()) => 0,
        Err(fault) => refuse(&fault, err),
    }
}

/// Writes the line of a fault, if it has one, and gives its status.
pub fn refuse<E: Sink>(fault: &Fault<'_>, err: &mut E) -> u8
    ensures status { result ≡ status_of_cause (cause_of fault.now) }
    ensures line { Tells (line_of_cause (cause_of fault.now)) (E.written err.old) (E.written err.new) (E.faults err.old)
        (E.faults err.new) }
{
    match fault.tell(err) {
        Ok(()) => fault.status(),
        Err(Failed) => fault.status(),
    }
}

/// Does what the words ask for.
fn perform<'a, S: Store, I: Source, O: Sink>(
    alloc: Global,
    words: &'a [String],
    store: &mut S,
    input: &mut I,
    out: &mut O,
) -> Result<(), Fault<'a>>
    ensures ends { Ends (request_of_words (map string_bytes words.now))
        (outside_of (S.told store.old) (S.faults store.old) (O.written out.old) (O.faults out.old))
        (outside_of (S.told store.new) (S.faults store.new) (O.written out.new) (O.faults out.new))
        (record { left = I.left input.old; faults = I.faults input.old })
        (record { left = I.left input.new; faults = I.faults input.new })
        (outcome_of result) }
    ensures kept { KeepsFiles (request_of_words (map string_bytes words.now)) (I.left input.old) (S.told store.old)
        (S.told store.new) }
    ensures input { (IsStream (request_of_words (map string_bytes words.now)) → ⊥) → input.new ≡ input.old }
{
    let request = match request_of(alloc, words) {
        Ok(Some(request)) => request,
        Ok(None) => return Err(Fault::Usage),
        Err(_) => return Err(Fault::Memory),
    };
    execute(alloc, request, store, input, out)
}

/// Does what is asked for.
fn execute<'a, S: Store, I: Source, O: Sink>(
    alloc: Global,
    request: Request<'a>,
    store: &mut S,
    input: &mut I,
    out: &mut O,
) -> Result<(), Fault<'a>>
    ensures ends { Ends (Some (plain_request request.entry))
        (outside_of (S.told store.old) (S.faults store.old) (O.written out.old) (O.faults out.old))
        (outside_of (S.told store.new) (S.faults store.new) (O.written out.new) (O.faults out.new))
        (record { left = I.left input.old; faults = I.faults input.old })
        (record { left = I.left input.new; faults = I.faults input.new })
        (outcome_of result) }
    ensures kept { KeepsFiles (Some (plain_request request.entry)) (I.left input.old) (S.told store.old)
        (S.told store.new) }
    ensures input { (IsStream (Some (plain_request request.entry)) → ⊥) → input.new ≡ input.old }
{
    match request {
        Request::Match { patterns, file } => {
            match_file(alloc, ListKind::Patterns, patterns, file, store, out)
        }
        Request::Check { patterns } => check_list(alloc, patterns, store, out),
        Request::Compile { patterns, database } => {
            compile_list(alloc, patterns, database, store, out)
        }
        Request::Info { database } => tell_database(alloc, database, store, out),
        Request::Scan { database, file } => {
            match_file(alloc, ListKind::Database, database, file, store, out)
        }
        Request::Stream { database } => run_script(alloc, database, store, input, out),
        Request::Soak { seed, count } => soak(alloc, seed, count, out),
    }
}
