//! `hs_bench`: measures scans. `hs_bench scan DB FILE PIECE` writes FILE in pieces of PIECE bytes to one stream of the
//! database file DB, `hs_bench engines DB FILE` runs the first expression of DB over FILE by steps, by blocks and by
//! states, `hs_bench literals WORDS FILE` looks for the lines of WORDS in FILE, and `hs_bench kernel FILE` makes only
//! the masks of FILE. Without words it prints nothing.
#![tactic(auto)]

ghost use Rattle.std.specs.Prelude.{◌≡◌, ◌-◌, ◌^◌, length, min};
ghost use Rattle.hs_literals.specs.Left.{scan_left};

mod blocks;
mod expression;
mod kernel;
mod rate;
mod stream;
mod words;

use blocks::{BLOCK_BYTES, Measured, Way, measure};
use expression::{Engines, engines_of, expression_of, first_entry};
use hs_block::BlockEngine;
use hs_expr::positions;
use hs_literals::{LitScan, Literals};
use hs_rose::{PieceEngine, PositionEngine};
use kernel::run_kernel;
use rate::Fastest;
use std::io::ErrorKind;
use std::time::Instant;
use std::{env, fs, io};
use stream::{database_of, stream_text};
use words::literals_of;

/// How often a file is scanned; the fastest time counts.
const ROUNDS: usize = 5;

fn main(rt: HostRuntime) -> io::Result<()> {
    let words: Vec<String> = env::args(&rt)?.collect(rt.alloc())?;
    match words.as_slice() {
        [_, command, words, file] if command.as_str() == "literals" => {
            scan_literals(&rt, words.as_str(), file.as_str())
        }
        [_, command, file] if command.as_str() == "kernel" => scan_blocks(&rt, file.as_str()),
        [_, command, database, file, piece] if command.as_str() == "scan" => {
            scan_stream(&rt, database.as_str(), file.as_str(), piece.as_str())
        }
        [_, command, database, file] if command.as_str() == "engines" => {
            scan_engines(&rt, database.as_str(), file.as_str())
        }
        _ => Ok(()),
    }
}

/// Writes a file to one stream of a database, in pieces of that many bytes.
fn scan_stream(rt: &HostRuntime, database: &str, file: &str, piece: &str) -> io::Result<()> {
    let list = fs::read(rt, database)?;
    let database = database_of(rt.alloc(), list.as_slice())?;
    let text = fs::read(rt, file)?;
    let Ok(piece) = piece.parse::<usize>() else {
        return Err(ErrorKind::InvalidInput.into());
    };
    if piece == 0 {
        return Err(ErrorKind::InvalidInput.into());
    }
    let told = stream_text(rt, &database, text.as_slice(), piece)?;
    println!(rt; "bytes {}", text.len())?;
    println!(rt; "reports {}", told.reports)?;
    println!(rt;
        "seconds {}.{:09}",
        told.time.as_secs(),
        told.time.subsec_nanos()
    )
}

/// Runs the first expression of a database file over a file, in each way.
fn scan_engines(rt: &HostRuntime, database: &str, file: &str) -> io::Result<()> {
    let list = fs::read(rt, database)?;
    let entries = first_entry(rt.alloc(), list.as_slice())?;
    let text = fs::read(rt, file)?;
    let Some(entry) = entries.first() else {
        return Err(ErrorKind::InvalidInput.into());
    };
    let expr = expression_of(rt.alloc(), entry)?;
    let positions = positions(&expr);
    let Some(engines) = engines_of(rt.alloc(), entries.as_slice(), expr)? else {
        return Err(ErrorKind::InvalidInput.into());
    };
    println!(rt; "{positions} positions, {} bytes", text.len())?;
    print_ways(rt, &engines, text.as_slice())
}

/// Prints the line of each way.
fn print_ways(rt: &HostRuntime, engines: &Engines, text: &[u8]) -> io::Result<()> {
    let by_positions = by_positions(engines);
    let by_states = engines.by_states.as_ref();
    print_way(rt, "by steps", by_positions, Way::BySteps, text)?;
    print_way(rt, "by blocks", by_positions, Way::AtOnce, text)?;
    print_way(rt, "by states", by_states, Way::AtOnce, text)
}

/// The engine by positions.
fn by_positions(engines: &Engines) -> Option<&PositionEngine> {
    match engines.program.engines().first() {
        Some(PieceEngine::Positions(positions)) => Some(positions),
        Some(PieceEngine::First(_) | PieceEngine::Last(_) | PieceEngine::Ring(_)) | None => None,
    }
}

/// Prints how fast an engine takes the text in that way, and where its expression is left.
fn print_way<E: BlockEngine>(
    rt: &HostRuntime,
    name: &str,
    engine: Option<&E>,
    way: Way,
    text: &[u8],
) -> io::Result<()> {
    let Some(engine) = engine else {
        return println!(rt; "{name}: none");
    };
    match measure(rt, engine, way, text)? {
        Some(measured) => print_measured(rt, name, measured),
        None => Err(ErrorKind::InvalidInput.into()),
    }
}

/// Prints the line of a way.
fn print_measured(rt: &HostRuntime, name: &str, measured: Measured) -> io::Result<()> {
    let tenths = measured.fastest.block_tenths(BLOCK_BYTES);
    println!(rt;
        "{name}: {}.{} ns a block, left before {} bytes and behind {}",
        tenths / 10,
        tenths % 10,
        measured.left.before,
        measured.left.behind
    )
}

/// Looks for the lines of one file in another.
fn scan_literals(rt: &HostRuntime, words: &str, file: &str) -> io::Result<()> {
    let words = fs::read(rt, words)?;
    let text = fs::read(rt, file)?;
    let literals = literals_of(rt.alloc(), words.as_slice())?;
    let built = Literals::build(rt.alloc(), literals.as_slice())?;
    let mut fastest = Fastest::new(text.len());
    let mut ends = 0;
    for _ in 0..ROUNDS {
        let start = Instant::now(rt)?;
        ends = count_ends(LitScan::new(&built, &[], text.as_slice()));
        fastest.add(start.elapsed(rt)?);
    }
    println!(rt;
        "{} literals, {} bytes, {ends} ends: {} MB/s",
        literals.len(),
        text.len(),
        fastest.rate()
    )
}

/// How many ends a scan tells.
fn count_ends(scan: LitScan) -> usize
    ensures { result ≡ min (length (scan_left scan.entry)) (2 ^ 64 - 1) }
{
    let mut ends = 0usize;
    for end in scan {
        ends = ends.saturating_add(1);
    }
    ends
}

/// Measures how fast the masks of all blocks of a file are made, by tables for a few common words. Beside the masks it
/// does no more than to take the first one of each block into account, and neither looks for open places nor confirms a
/// literal.
fn scan_blocks(rt: &HostRuntime, file: &str) -> io::Result<()> {
    let text = fs::read(rt, file)?;
    let literals = literals_of(rt.alloc(), b"the\nand\nwhich\nbetween\n")?;
    let (tables, _) = hs_fdr_build::build(rt.alloc(), literals.as_slice())?;
    let mut fastest = Fastest::new(text.len());
    let mut ones = 0;
    for _ in 0..ROUNDS {
        let start = Instant::now(rt)?;
        ones = run_kernel(&tables, text.as_slice());
        fastest.add(start.elapsed(rt)?);
    }
    println!(rt;
        "{} bytes, {ones:#04x} in each block's first mask: {} MB/s",
        text.len(),
        fastest.rate()
    )
}
