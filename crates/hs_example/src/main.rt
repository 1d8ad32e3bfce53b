//! `hs_example`: how the library is used. One stream is scanned for three expressions: it is written in two pieces,
//! saved, made anew from the saved bytes, written once more and closed. Each report is a line, `ID END`.
#![tactic(auto)]

ghost use Rattle.std.specs.Prelude.{◌≡◌, ◌<◌};
ghost use Rattle.hs_stream.specs.Scratches.{IsScratchOf};

use hs_compile::{Database, compile};
use hs_engine::Steps;
use hs_stream::{Collected, Scratch, Stream};
use hs_text::read_list;
use std::marker::Brand;
use std::sync::ledger::{Blank, Ledger};

/// The expressions, as a pattern file has them.
const LIST: &[u8] = b"1:/foo.*bar/\n2:/(ba|fo)+[a-r]/\n3:/bar$/\n";

/// The most reports that are kept at a time.
const ROOM: usize = 100;

fn main(rt: HostRuntime) -> anyhow::Result<()> {
    let entries = read_list(rt.alloc(), LIST)?;
    let database = compile(rt.alloc(), &entries)?;
    scan(&rt, &database)
}

/// Scans a stream in two halves.
fn scan(rt: &HostRuntime, database: &Database) -> anyhow::Result<()> {
    scan_counted::<Brand>(rt, database, Blank::new(1))
}

/// The same with a ledger for the steps of engines, which takes no memory.
fn scan_counted<L: Ledger>(
    rt: &HostRuntime,
    database: &Database,
    blank: Blank,
) -> anyhow::Result<()>
    requires name { blank.name ≡ L.name }
    requires parts { blank.parts ≡ L.parts }
    requires some { 0 < L.parts }
{
    let mut scratch = Scratch::new(rt.alloc(), database)?;
    let mut steps = Steps::<L>::open(blank);
    let saved = begin(rt, database, &mut scratch, &mut steps)?;
    go_on(rt, database, &saved, &mut scratch, &mut steps)
}

/// Writes two pieces to a new stream, and saves it. The saved bytes may be kept in a file or sent elsewhere.
fn begin<L: Ledger>(
    rt: &HostRuntime,
    database: &Database,
    scratch: &mut Scratch,
    steps: &mut Steps<L>,
) -> anyhow::Result<Vec<u8>>
    requires { IsScratchOf database.now scratch.old }
    ensures { IsScratchOf database.now scratch.new }
{
    let mut stream = Stream::open(rt.alloc(), database)?;
    let mut told = Collected::new(rt.alloc(), ROOM)?;
    stream.write(database, scratch, b"fo", &mut told, steps)?;
    stream.write(database, scratch, b"oxyzb", &mut told, steps)?;
    print(rt, &told)?;
    Ok(stream.save(rt.alloc(), database)?)
}

/// Goes on with the saved stream as if it had never been saved, and closes it.
fn go_on<L: Ledger>(
    rt: &HostRuntime,
    database: &Database,
    saved: &[u8],
    scratch: &mut Scratch,
    steps: &mut Steps<L>,
) -> anyhow::Result<()>
    requires { IsScratchOf database.now scratch.old }
{
    let mut stream = Stream::expand(rt.alloc(), database, saved)?;
    let mut told = Collected::new(rt.alloc(), ROOM)?;
    stream.write(database, scratch, b"arbar", &mut told, steps)?;
    stream.close(database, scratch, &mut told, steps);
    print(rt, &told)
}

/// Prints the reports, each as a line.
fn print(rt: &HostRuntime, told: &Collected) -> anyhow::Result<()> {
    for report in told.reports() {
        println!(rt; "{} {}", report.id.0, report.to)?;
    }
    Ok(())
}
