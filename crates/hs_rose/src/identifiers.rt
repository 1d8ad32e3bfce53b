//! The identifiers of a list, each once.

ghost use Rattle.std.specs.Prelude.{◌≡◌, ℕ, ◌≤◌, true, not, Some, IfOk, length, map, filter, slice_get};
ghost use Rattle.std.specs.List.Sorted.{IsStrictlyIncreasing};
ghost use Rattle.hs_rose.specs.Identifiers.{AreIdentifiersFor, asks_single, entry_id, has_id, identifier_for};
ghost use Rattle.hs_rose.specs.Listing.{asked_of};

use hs_base::{Entry, ExprId, Flags};
use std::alloc::{AllocError, Global};

/// An identifier that is reported.
#[derive(Clone, Copy, Debug, PartialEq, Eq)]
pub struct Identifier {
    /// The identifier.
    pub id: ExprId,
    /// Whether it is reported at most once in a stream.
    pub single: bool,
}

/// The numbers of the identifiers of the entries, each once, rising.
pub(crate) fn ids_of(alloc: Global, entries: &[Entry]) -> Result<Vec<u32>, AllocError>
    ensures rises { IfOk result (λ ids. IsStrictlyIncreasing ids.items) }
    ensures same { IfOk result (λ ids. (id : ℕ) → has_id ids.items id ≡ has_id (map entry_id entries.now) id) }
    ensures few { IfOk result (λ ids. length ids.items ≤ length entries.now) }
{
    let ids: Vec<u32> = entries.iter().map(|e| e.id.0).collect(alloc)?;
    Ok(rising(ids))
}

/// The identifiers of the entries by their numbers, which rise.
pub(crate) fn identifiers_of(
    alloc: Global,
    entries: &[Entry],
    ids: &[u32],
) -> Result<Vec<Identifier>, AllocError>
    ensures { IfOk result (λ identifiers.
        AreIdentifiersFor ids.now (map asked_of entries.now) identifiers.items) }
{
    let many = rising(many_ids(alloc, entries)?);
    identifiers_for(alloc, ids, &many)
}

/// The number of the identifier of each entry that doesn't ask for a single report.
fn many_ids(alloc: Global, entries: &[Entry]) -> Result<Vec<u32>, AllocError>
    ensures { IfOk result (λ ids. ids.items ≡
        map entry_id (filter (λ e. not (asks_single (asked_of e))) entries.now)) }
{
    entries
        .iter()
        .filter(|e| !e.flags.contains(Flags::SINGLEMATCH))
        .map(|e| e.id.0)
        .collect(alloc)
}

/// The same numbers, each once, rising.
fn rising(mut ids: Vec<u32>) -> Vec<u32>
    ensures rises { IsStrictlyIncreasing result.items }
    ensures same { (id : ℕ) → has_id result.items id ≡ has_id ids.items id }
    ensures few { length result.items ≤ length ids.items }
{
    ids.sort_unstable();
    ids.dedup();
    ids
}

/// The identifiers of these numbers, each single where its number is none of `many`.
fn identifiers_for(alloc: Global, ids: &[u32], many: &[u32]) -> Result<Vec<Identifier>, AllocError>
    requires { IsStrictlyIncreasing many.now }
    ensures { IfOk result (λ identifiers. identifiers.items ≡ map (identifier_for many.now) ids.now) }
{
    let mut identifiers = Vec::with_capacity(alloc, ids.len())?;
    for id in ids {
        let single = !contains(many, *id);
        identifiers.push(Identifier {
            id: ExprId(*id),
            single,
        })?;
    }
    Ok(identifiers)
}

/// Whether the number is one of those that rise.
fn contains(ids: &[u32], id: u32) -> bool
    requires { IsStrictlyIncreasing ids.now }
    ensures { result ≡ has_id ids.now id }
{
    ids.binary_search(&id).is_ok()
}

/// The place of a number among those that rise.
pub(crate) fn place_of(ids: &[u32], id: u32) -> usize
    requires rises { IsStrictlyIncreasing ids.now }
    requires known { has_id ids.now id ≡ true }
    ensures { slice_get ids.now result ≡ Some id }
{
    match ids.binary_search(&id) {
        Ok(place) => place,
        Err(_) => unreachable!(),
    }
}
