//! `hs_tool`: scans files for regular expressions. `run` in `top.rt` does everything; `main` only lends it the real
//! files and streams.
#![tactic(auto)]

mod match_command;
mod piece;
#[cfg(test)]
mod running;
mod scan;
mod session;
mod soak_command;
mod stream_command;
#[cfg(test)]
mod tests;
mod top;
mod whole_scan;

ghost use Rattle.std.specs.Process.{exit_status};
ghost use Rattle.hs_tool.specs.Main.{EndsWith};

use hs_lists::Fault;
use hs_outside::{FolderStore, StdSink, StdSource};
use std::fs::{File, OpenOptions};
use std::io::ErrorKind;
use std::process::ExitCode;
use std::{env, io};

fn main(rt: HostRuntime) -> ExitCode {
    start(&rt)
}

/// Does what the words of the process ask for, over its files and streams.
fn start(rt: &HostRuntime) -> ExitCode
    ensures { EndsWith (exit_status result) }
{
    let mut err = StdSink::new(rt.stderr());
    let _low = match open_nothing(rt) {
        Ok(low) => low,
        Err(_) => return ExitCode::from(top::refuse(&Fault::Store, &mut err)),
    };
    let mut store = FolderStore::new(rt);
    let mut input = StdSource::new(rt.stdin());
    let mut out = StdSink::new(rt.stdout());
    let alloc = rt.alloc();
    let words = match env::args(rt) {
        Ok(words) => words.collect(alloc),
        Err(error) if error.kind() == ErrorKind::OutOfMemory => {
            return ExitCode::from(top::refuse(&Fault::Memory, &mut err));
        }
        Err(_) => Ok(Vec::new(alloc)),
    };
    match words {
        Ok(words) => {
            ExitCode::from(top::run(
                alloc,
                words.as_slice(),
                &mut store,
                &mut input,
                &mut out,
                &mut err,
            ))
        }
        Err(_) => ExitCode::from(top::refuse(&Fault::Memory, &mut err)),
    }
}

/// Opens nothing three times. A file that is opened gets the lowest descriptor that is free, so each of the standard
/// streams that is closed is nothing from then on, and no file that is opened later is taken for one of them.
fn open_nothing(rt: &HostRuntime) -> io::Result<[File; 3]> {
    let mut how = OpenOptions::new();
    how.read(true).write(true);
    let nothing = "/dev/null";
    Ok([
        how.open(rt, nothing)?,
        how.open(rt, nothing)?,
        how.open(rt, nothing)?,
    ])
}
