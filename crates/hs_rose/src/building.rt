//! The program of a list, from its entries and chains.

ghost use Rattle.std.specs.Prelude.{◌≡◌, ℕ, ◌^◌, ◌<◌, List, [], IfOk, length, map};
ghost use Rattle.std.specs.List.Sorted.{IsStrictlyIncreasing};
ghost use Rattle.std.specs.List.{AllZip};
ghost use Rattle.hs_base.specs.Lists.{Each};
ghost use Rattle.hs_base.specs.Chains.{Piece};
ghost use Rattle.hs_rose.specs.Building.{IsBuilt};
ghost use Rattle.hs_rose.specs.Finishing.{AreNumbered, IsFinished, engine_made};
ghost use Rattle.hs_rose.specs.Identifiers.{entry_id, has_id};
ghost use Rattle.hs_rose.specs.Listing.{asked_of, listed_chains, plain_chains};
ghost use Rattle.hs_rose.specs.Programs.{IsInfoOf, IsProgramOf};
ghost use Rattle.hs_rose.specs.Runnable.{AreRunnable};

use crate::builder::Builder;
use crate::engine::PieceEngine;
use crate::identifiers::{Identifier, identifiers_of, ids_of, place_of};
use crate::info::EntryInfo;
use crate::making::Made;
use crate::program::Program;
use hs_base::Entry;
use hs_pieces::Chain;
use std::alloc::{AllocError, Global};

impl Builder {
    /// The program of the entries, whose chains were added in order. The only error is want of memory.
    pub fn finish(self, alloc: Global, entries: &[Entry]) -> Result<Program, AllocError>
        requires few { length entries.now < 2 ^ 32 }
        requires numbered { AreNumbered self }
        ensures { IfOk result (λ program. (chains : List (List (List Piece))) → Each AreRunnable chains →
            IsBuilt self (listed_chains (map asked_of entries.now) chains) [] →
            IsProgramOf program (map asked_of entries.now) chains) }
    {
        let ids = ids_of(alloc, entries)?;
        let infos = infos_of(alloc, entries, &ids)?;
        let identifiers = identifiers_of(alloc, entries, &ids)?;
        finished(alloc, infos, identifiers, self)
    }
}

impl Program {
    /// The program of a list: of its entries and, for each of them, the chains of its expression. The only error is
    /// want of memory.
    pub fn build(
        alloc: Global,
        entries: &[Entry],
        chains: &[Vec<Chain>],
    ) -> Result<Program, AllocError>
        requires few { length entries.now < 2 ^ 32 }
        requires whole { length chains.now ≡ length entries.now }
        requires runnable { Each AreRunnable (map plain_chains chains.now) }
        ensures { IfOk result (λ program.
            IsProgramOf program (map asked_of entries.now) (map plain_chains chains.now)) }
    {
        let mut builder = Builder::new(alloc);
        for (k, entry) in entries.iter().enumerate() {
            builder.add_entry(alloc, (k + 1) as u32, entry, &chains[k])?;
        }
        builder.finish(alloc, entries)
    }
}

/// The program of what is built.
fn finished(
    alloc: Global,
    infos: Vec<EntryInfo>,
    identifiers: Vec<Identifier>,
    builder: Builder,
) -> Result<Program, AllocError>
    requires { AreNumbered builder }
    ensures { IfOk result (λ program. IsFinished infos.items identifiers.items builder program) }
{
    let index = builder.literals;
    let literals = index.list;
    let engines = engines_of(alloc, builder.made)?;
    Ok(Program::new(
        infos,
        identifiers,
        builder.chains,
        builder.roles,
        literals,
        engines,
    ))
}

/// What is asked of each entry.
fn infos_of(alloc: Global, entries: &[Entry], ids: &[u32]) -> Result<Vec<EntryInfo>, AllocError>
    requires rises { IsStrictlyIncreasing ids.now }
    requires known { (id : ℕ) → has_id ids.now id ≡ has_id (map entry_id entries.now) id }
    requires few { length ids.now < 2 ^ 32 }
    ensures { IfOk result (λ infos. AllZip (IsInfoOf ids.now) infos.items (map asked_of entries.now)) }
{
    let mut infos = Vec::with_capacity(alloc, entries.len())?;
    for entry in entries {
        infos.push(EntryInfo {
            min_offset: entry.ext.min_offset,
            max_offset: entry.ext.max_offset,
            id: entry.id,
            flags: entry.flags,
            identifier: place_of(ids, entry.id.0) as u32,
        })?;
    }
    Ok(infos)
}

/// The engines that are made.
fn engines_of(alloc: Global, made: Vec<Made>) -> Result<Vec<PieceEngine>, AllocError>
    ensures { IfOk result (λ engines. engines.items ≡ map engine_made made.items) }
{
    made.into_iter().map(|one| one.engine).collect(alloc)
}
