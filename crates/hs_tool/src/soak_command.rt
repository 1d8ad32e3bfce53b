//! The command `soak SEED N`.
ghost use Rattle.std.specs.Prelude.{◌≡◌, ℕ, List, map, IfOk, IfErr, string_bytes};
ghost use Rattle.hs_base.specs.Entries.{listed};
ghost use Rattle.hs_outside.specs.Store.{Told};
ghost use Rattle.hs_compile.specs.Answers.{IsCompiled};
ghost use Rattle.hs_lists.specs.Accepting.{IsEntryCause};
ghost use Rattle.hs_lists.specs.Causes.{cause_of, outcome_of};
ghost use Rattle.hs_lists.specs.Endings.{outside_of};
ghost use Rattle.hs_stream.specs.Drawing.{drawn_entries, drawn_stream, before_lengths};
ghost use Rattle.hs_tool.specs.SoakEndings.{IsSoakText, SoakEnds};

use hs_base::Entry;
use hs_compile::{CompileFault, Database, compile};
use hs_lists::Fault;
use hs_outside::{Failed, Sink, write_all};
use hs_stream::{Cutting, Drawn, InMemory, run, summary};
use std::alloc::{AllocError, Global};

/// The most reports that may come of a piece, for each expression.
const REPORTS_EACH: usize = 194;

/// Draws a list of so many expressions and a stream from the seed, scans the stream in two ways, and writes what both
/// reported.
pub fn soak<'a, O: Sink>(alloc: Global, seed: u32, count: u32, out: &mut O) -> Result<(), Fault<'a>>
    ensures { (told : List ℕ → Told) (stored : ℕ) → SoakEnds seed count
        (outside_of told stored (O.written out.old) (O.faults out.old))
        (outside_of told stored (O.written out.new) (O.faults out.new))
        (outcome_of result) }
{
    let text = match text_of(alloc, seed, count) {
        Ok(text) => text,
        Err(fault) => return Err(fault),
    };
    match write_all(out, text.as_bytes()) {
        Ok(()) => Ok(()),
        Err(Failed) => Err(Fault::Write),
    }
}

/// What is written of the runs.
fn text_of<'a>(alloc: Global, seed: u32, count: u32) -> Result<String, Fault<'a>>
    ensures text { IfOk result (λ text. IsSoakText seed count (string_bytes text)) }
    ensures fault { IfErr result (λ fault. IsEntryCause (drawn_entries seed count) (cause_of fault)) }
{
    let drawn = match Drawn::from_seed(alloc, seed, count) {
        Ok(drawn) => drawn,
        Err(_) => return Err(Fault::Memory),
    };
    let database = match compile_entries(alloc, drawn.entries.as_slice()) {
        Ok(database) => database,
        Err(fault) => return Err(fault),
    };
    match text_over(alloc, &database, &drawn, count) {
        Ok(text) => Ok(text),
        Err(_) => Err(Fault::Memory),
    }
}

/// What scans the entries.
fn compile_entries<'a>(alloc: Global, entries: &[Entry]) -> Result<Database, Fault<'a>>
    ensures compiled { IfOk result (IsCompiled (map listed entries.now)) }
    ensures fault { IfErr result (λ fault. IsEntryCause (map listed entries.now) (cause_of fault)) }
{
    match compile(alloc, entries) {
        Ok(database) => Ok(database),
        Err(CompileFault::Refused { entry, id, refusal }) => {
            Err(Fault::Refused(Some((entry, id)), refusal))
        }
        Err(CompileFault::Memory) => Err(Fault::Memory),
    }
}

/// What is written of the runs over what was drawn. The error is want of memory.
fn text_over(
    alloc: Global,
    database: &Database,
    drawn: &Drawn,
    count: u32,
) -> Result<String, AllocError>
    ensures { (seed : ℕ) → map listed drawn.now.entries.items ≡ drawn_entries seed count
        → drawn.now.bytes.items ≡ drawn_stream seed count → IsCompiled (drawn_entries seed count) database.now
        → IfOk result (λ text. IsSoakText seed count (string_bytes text)) }
{
    let room = REPORTS_EACH * count as usize;
    let bytes = drawn.bytes.as_slice();
    let mut keeper = InMemory;
    let even = run(alloc, database, bytes, Cutting::Even, room, &mut keeper)?;
    let drawn_cutting = Cutting::Drawn(drawn.lengths);
    let cut = run(alloc, database, bytes, drawn_cutting, room, &mut keeper)?;
    let region = database.region_size() as u64;
    summary(
        alloc,
        u64::from(count),
        bytes.len() as u64,
        region,
        even,
        cut,
    )
}
