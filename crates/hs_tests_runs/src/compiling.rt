//! The nodes of a list, and a list of too many entries. It is `#[cfg(test)]`.
use crate::lists::{compiled, entry};
use hs_base::{Entry, ExprId, Refusal};
use hs_compile::{CompileFault, Database, MAX_ENTRIES, compile};
use std::alloc::{AllocError, Global};
use std::test::Fail;

/// How many nodes a database has, and its identifiers.
fn shown(alloc: Global, database: &Database) -> Result<String, AllocError> {
    let mut text = format!(in alloc; "{}:", database.graph().table.nodes.len())?;
    for identifier in &database.graph().identifiers {
        write!(text, " {}", identifier.id.0)?;
    }
    Ok(text)
}

#[test]
fn builds_a_node_for_each_piece(rt: HostRuntime) -> Result<(), Fail> {
    let database = compiled(rt.alloc(), "7:/ab/ 3:/a|b/ 7:/[a-c]+d/")?;
    assert_eq!(rt; shown(rt.alloc(), &database)?.as_str(), "4: 3 7");
    Ok(())
}

/// So many entries `1:/a/`.
fn many(alloc: Global, count: usize) -> Result<Vec<Entry>, AllocError> {
    let mut entries = Vec::new(alloc);
    for _entry in 0..count {
        entries.push(entry(alloc, 1, "a")?)?;
    }
    Ok(entries)
}

/// Where a list of so many entries is refused, if it is: the number of the entry, its identifier, the reason.
fn refusal_of(alloc: Global, count: usize) -> Result<Option<(u32, ExprId, Refusal)>, AllocError> {
    let entries = many(alloc, count)?;
    match compile(alloc, &entries) {
        Ok(_) => Ok(None),
        Err(CompileFault::Refused { entry, id, refusal }) => Ok(Some((entry, id, refusal))),
        Err(CompileFault::Memory) => Err(AllocError),
    }
}

#[test]
fn refuses_the_entry_behind_the_last(rt: HostRuntime) -> Result<(), AllocError> {
    let last = refusal_of(rt.alloc(), MAX_ENTRIES)?;
    assert!(rt; last.is_none());
    let behind = refusal_of(rt.alloc(), MAX_ENTRIES + 1)?;
    assert!(rt; behind == Some((65_537, ExprId(1), Refusal::CountLimit)));
    Ok(())
}
