//! What the bytes of a file hold by the form of their kind.
ghost use Rattle.std.specs.Prelude.{map, MatchResult};
ghost use Rattle.hs_base.specs.Entries.{listed};
ghost use Rattle.hs_lists.specs.Causes.{cause_of};
ghost use Rattle.hs_lists.specs.ListKinds.{kind_of, pattern_file, database_file};
ghost use Rattle.hs_lists.specs.Accepting.{HoldsList, IsFormCause};

use crate::fault::Fault;
use crate::loading::ListKind;
use hs_base::{Entry, Refusal};
use hs_dbfile::{DecodeFault, decode_file};
use hs_text::{ListFault, read_list};
use std::alloc::Global;

/// The entries of the list that the bytes hold.
pub fn read_entries<'a>(
    alloc: Global,
    kind: ListKind,
    bytes: &[u8],
) -> Result<Vec<Entry>, Fault<'a>>
    ensures { MatchResult result
        (λ entries. HoldsList (kind_of kind) bytes.now (map listed entries.items))
        (λ fault. IsFormCause (kind_of kind) bytes.now (cause_of fault)) }
{
    match kind {
        ListKind::Patterns => read_patterns(alloc, bytes),
        ListKind::Database => read_database(alloc, bytes),
    }
}

/// The entries of a pattern file.
pub fn read_patterns<'a>(alloc: Global, bytes: &[u8]) -> Result<Vec<Entry>, Fault<'a>>
    ensures { MatchResult result
        (λ entries. HoldsList pattern_file bytes.now (map listed entries.items))
        (λ fault. IsFormCause pattern_file bytes.now (cause_of fault)) }
{
    match read_list(alloc, bytes) {
        Ok(entries) => Ok(entries),
        Err(ListFault::Line(line)) => Err(Fault::Refused(None, Refusal::ListLine(line))),
        Err(ListFault::Memory) => Err(Fault::Memory),
    }
}

/// The entries of a database file.
pub fn read_database<'a>(alloc: Global, bytes: &[u8]) -> Result<Vec<Entry>, Fault<'a>>
    ensures { MatchResult result
        (λ entries. HoldsList database_file bytes.now (map listed entries.items))
        (λ fault. IsFormCause database_file bytes.now (cause_of fault)) }
{
    match decode_file(alloc, bytes) {
        Ok(entries) => Ok(entries),
        Err(DecodeFault::Form(at)) => Err(Fault::Form(at)),
        Err(DecodeFault::Memory) => Err(Fault::Memory),
    }
}
