//! Lists as words, and what they are compiled to. It is `#[cfg(test)]`.
use hs_base::{Entry, ExprId, Ext, Flags};
use hs_compile::{Database, compile};
use std::alloc::{AllocError, Global};
use std::test::Fail;

/// The entry of an identifier and a text.
pub(crate) fn entry(alloc: Global, id: u32, text: &str) -> Result<Entry, AllocError> {
    Ok(Entry {
        id: ExprId(id),
        flags: Flags::NONE,
        ext: Ext::NONE,
        text: Vec::from_slice(alloc, text.as_bytes())?,
    })
}

/// The flags behind an expression: `H`, or none.
fn flags_of(letters: &str) -> Flags {
    if letters == "H" {
        Flags::SINGLEMATCH
    } else {
        Flags::NONE
    }
}

/// The entries of a list, in words: each is `ID:/TEXT/` or `ID:/TEXT/H`.
fn entries_of(alloc: Global, list: &str) -> Result<Vec<Entry>, AllocError> {
    let mut entries = Vec::new(alloc);
    for word in list.split(' ') {
        let (id, rest) = word.split_once(":/").unwrap_or((word, ""));
        let (text, letters) = rest.split_once('/').unwrap_or((rest, ""));
        let mut entry = entry(alloc, id.parse().unwrap_or(0), text)?;
        entry.flags = flags_of(letters);
        entries.push(entry)?;
    }
    Ok(entries)
}

/// The database of a list that is accepted.
pub(crate) fn compiled(alloc: Global, list: &str) -> Result<Database, Fail> {
    let entries = entries_of(alloc, list)?;
    match compile(alloc, &entries) {
        Ok(database) => Ok(database),
        Err(_) => Err(Fail::new("a list that is refused")),
    }
}
