//! What is judged of the runs of a row.

use crate::leaving::Leaving;
use crate::names::name_lines;
use crate::setting::{Answer, Faults, NO_FAULTS, PARTS, ROOM, STORE_ROOM, Setting, wanted_of};
use hs_outside::{Failed, MemSink, MemSource, MemStore, Store};
use hs_rows::rows_of;
use std::alloc::{AllocError, Global};
use std::test::Fail;

/// The most calls of which each is to fail.
const MOST_CALLS: u64 = 200;

/// What the commands of a row run over.
#[derive(Drop)]
pub struct World {
    /// The files.
    pub store: Leaving,
    /// The script.
    pub input: MemSource,
    /// What is written.
    pub out: MemSink,
    /// What is written of faults.
    pub err: MemSink,
}

/// Puts the file, where it is there.
fn put(store: &mut MemStore, name: &str, file: &Option<Vec<u8>>) -> Result<(), Failed> {
    match file {
        Some(bytes) => store.put(name, bytes),
        None => Ok(()),
    }
}

/// The store with the files of a row.
fn store_of(alloc: Global, setting: &Setting, faults: Faults) -> Result<Leaving, Fail> {
    let mut store = MemStore::new(alloc, 3, STORE_ROOM, &[faults.store])?;
    put(&mut store, "p", &setting.patterns)?;
    put(&mut store, "f", &setting.file)?;
    put(&mut store, "d", &setting.database)?;
    Ok(Leaving::new(store, faults.gone))
}

impl World {
    /// What the commands of a row run over, with the script in pieces of that length.
    fn of(alloc: Global, setting: &Setting, piece: usize, faults: Faults) -> Result<World, Fail> {
        Ok(World {
            store: store_of(alloc, setting, faults)?,
            input: MemSource::new(alloc, &setting.script, &[piece], &[faults.source])?,
            out: MemSink::new(alloc, setting.room, &[faults.out])?,
            err: MemSink::new(alloc, ROOM, &[faults.err])?,
        })
    }

    /// What was answered where the last status is this one.
    fn answer(&self, alloc: Global, status: u8) -> Result<Answer, AllocError> {
        Ok(Answer {
            status: u32::from(status),
            out: self.out.written().to_vec(alloc)?,
            is_cut: 0 < self.store.store.faults()
                || 0 < self.input.faults()
                || 0 < self.out.faults(),
            err: self.err.written().to_vec(alloc)?,
            left: Some(self.store.store.file("d").unwrap_or(b"").to_vec(alloc)?),
        })
    }
}

/// A program that runs the commands of rows.
pub trait RunsRow {
    /// Runs a command, and gives its status.
    fn run(world: &mut World, alloc: Global, words: &[String]) -> u8;

    /// Runs the commands of a row, with the script in pieces of that length.
    fn run_row(
        alloc: Global,
        setting: &Setting,
        piece: usize,
        faults: Faults,
    ) -> Result<Answer, Fail> {
        let mut world = World::of(alloc, setting, piece, faults)?;
        let mut status = 0;
        for words in &setting.commands {
            status = Self::run(&mut world, alloc, words);
        }
        Ok(world.answer(alloc, status)?)
    }

    /// Judges a row: each run of it answers what is wanted.
    fn judge_row(
        alloc: Global,
        name: &str,
        setting: &Setting,
        wanted: &Answer,
    ) -> Result<(), Fail> {
        for piece in &setting.pieces {
            let found = Self::run_row(alloc, setting, *piece, setting.faults)?;
            if !wanted.is_met_by(&found) {
                return Err(unwanted(name, *piece as u64, &found));
            }
        }
        Ok(())
    }

    /// Judges a row of one command where each call on that part fails in turn, and the script comes byte by byte: a
    /// beginning of what is wanted was written, and the fault is told.
    fn judge_calls(
        alloc: Global,
        name: &str,
        setting: &Setting,
        wanted: &Answer,
        part: &str,
        line: &str,
    ) -> Result<(), Fail> {
        for call in 1..MOST_CALLS {
            let found = Self::run_row(alloc, setting, 1, faults_at(setting, part, call)?)?;
            if !found.is_cut {
                return Ok(());
            }
            if !wanted.is_cut_short(&found, line.as_bytes()) {
                return Err(unwanted(name, call, &found));
            }
        }
        Err("a row of too many calls".into())
    }

    /// Judges a row of these words, behind the row that gives what it doesn't say.
    fn judge_words(
        alloc: Global,
        head: &[Vec<u8>],
        words: &[Vec<u8>],
        written: &[u8],
    ) -> Result<(), Fail> {
        let mut setting = Setting::new(alloc)?;
        setting.take(alloc, head)?;
        setting.take(alloc, words)?;
        let mut wanted = wanted_of(alloc, written)?;
        if setting.opens_all {
            setting.script = name_lines(alloc, b"open ", &setting.script)?;
            wanted.out = name_lines(alloc, b"ok open ", &wanted.out)?;
        }
        let name = format!(in alloc; "{words:?} = {written:?}")?;
        Self::judge_row(alloc, &name, &setting, &wanted)?;
        if setting.fails_each {
            for (part, line) in PARTS {
                Self::judge_calls(alloc, &name, &setting, &wanted, part, line)?;
            }
        }
        Ok(())
    }

    /// Judges the rows of a table.
    fn judge(alloc: Global, table: &[u8]) -> Result<(), Fail> {
        let rows = rows_of(alloc, table)?;
        let mut head: &[Vec<u8>] = &[];
        for row in &rows {
            match &row.wanted {
                Some(written) => Self::judge_words(alloc, head, &row.words, written)?,
                None => head = &row.words,
            }
        }
        Ok(())
    }
}

/// That call of the commands on this part fails.
fn faults_at(setting: &Setting, part: &str, call: u64) -> Result<Faults, Fail> {
    let mut faults = NO_FAULTS;
    let before = if part == "store" { setting.puts() } else { 0 };
    faults.set(part.as_bytes(), before.saturating_add(call))?;
    Ok(faults)
}

/// What is said of an answer that isn't wanted.
fn unwanted(name: &str, at: u64, found: &Answer) -> Fail {
    let (status, out, err, left) = (found.status, &found.out, &found.err, &found.left);
    Fail::new(format_args!("{name} {at}: {status} {out:?} {err:?} {left:?}"))
}
