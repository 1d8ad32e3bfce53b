//! The list of a pattern file.
ghost use Rattle.std.specs.Prelude.{◌≡◌, map, MatchResult};
ghost use Rattle.hs_text.specs.declared.fault.ListFault.TheVariants.{Memory};
ghost use Rattle.hs_text.specs.PatternFile.{IsList};
ghost use Rattle.hs_base.specs.Entries.{listed};
ghost use Rattle.hs_text.specs.Reading.{IsEntryOf, AddsEntry, IsListFault};

use crate::fault::ListFault;
use crate::line::{EntryParts, Line, first_line, read_line};
use hs_base::Entry;
use std::alloc::{AllocError, Global};

/// The entries of a pattern file, in its order. Lines are cut at line feeds, and one carriage return at a line's end is
/// dropped. Empty lines and lines that begin with `#` are skipped; each other one is `ID:/expression/flags`, with
/// `{name=N,..}` where parameters are given.
///
/// # Errors
///
/// `Line` with the number of the first line of another form, counted from 1 over all lines; `Memory` where the list
/// finds no memory.
///
/// # Cost
///
/// The bytes are looked through once. Each entry takes a copy of its expression and a few words beside it.
///
/// # Examples
///
/// ```
/// let entries = read_list(alloc, b"1:/foo.*bar/s\n2:/(ba|fo)+[a-r]/\n")?;
/// let database = compile(alloc, &entries)?;
/// ```
pub fn read_list(alloc: Global, bytes: &[u8]) -> Result<Vec<Entry>, ListFault>
    ensures { MatchResult result
        (λ entries. IsList bytes.now (map listed entries.items))
        (λ fault. IsListFault bytes.now fault) }
{
    let mut entries = Vec::new(alloc);
    let mut rest = bytes;
    let mut number: u64 = 0;
    while !rest.is_empty() {
        let (line, behind) = first_line(rest);
        number += 1;
        let Some(read) = read_line(line) else {
            return Err(ListFault::Line(number));
        };
        add(alloc, read, &mut entries)?;
        rest = behind;
    }
    Ok(entries)
}

/// Adds the entry of a line, if it has one.
fn add(alloc: Global, line: Line<'_>, entries: &mut Vec<Entry>) -> Result<(), ListFault>
    ensures { MatchResult result
        (λ _. AddsEntry line.entry entries.old.items entries.new.items)
        (λ fault. fault ≡ Memory) }
{
    match line {
        Line::Skipped => Ok(()),
        Line::Entry(parts) => {
            let entry = entry_of(alloc, parts)?;
            entries.push(entry)?;
            Ok(())
        }
    }
}

/// The entry of a line, with bytes of its own.
fn entry_of(alloc: Global, parts: EntryParts<'_>) -> Result<Entry, AllocError>
    ensures { IsEntryOf result parts.entry }
{
    let text = parts.text.to_vec(alloc)?;
    Ok(Entry {
        id: parts.id,
        flags: parts.flags,
        ext: parts.ext,
        text,
    })
}
