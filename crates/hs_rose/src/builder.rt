//! Building the program of a list.

ghost use Rattle.std.specs.Prelude.{◌≡◌, ℕ, ◌+◌, ◌^◌, ◌<◌, [], ◌∷◌, ◌++◌, List, IfOk, length, map};
ghost use Rattle.hs_base.specs.Regions.{Place};
ghost use Rattle.hs_pieces.specs.Meaning.{plain_chain, plain_piece};
ghost use Rattle.hs_rose.specs.Building.{IsBuilt, IsNamed, IsOwner, IsPlaceOf, IsRoleFor, IsSound};
ghost use Rattle.hs_rose.specs.Listing.{ListedChain, ListedPiece, asked_of, chains_from, listed_piece};
ghost use Rattle.hs_rose.specs.Runnable.{AreRunnable, IsRun, IsRunnable, IsRunnableChain};

use crate::info::ChainInfo;
use crate::literal_index::LiteralIndex;
use crate::making::{Made, number_of};
use crate::role::Role;
use crate::shape::Shape;
use hs_base::{Entry, ExprId, Mask};
use hs_pieces::{Chain, Piece};
use std::alloc::{AllocError, Global};

/// What is built of a program so far. An entry's chains are needed no more once they are added.
#[derive(Drop)]
pub struct Builder {
    pub(crate) chains: Vec<ChainInfo>,
    pub(crate) roles: Vec<Role>,
    /// The literals, each once.
    pub(crate) literals: LiteralIndex,
    /// What is made of the other pieces, each once.
    pub(crate) made: Vec<Made>,
}

/// Where the pieces of a chain stand, and what is asked of them.
#[derive(Clone, Copy, Debug)]
pub(crate) struct Owner {
    /// The number of the entry, from 1.
    pub entry: u32,
    /// The number of the chain among those of the entry, from 1.
    pub chain: u32,
    pub id: ExprId,
    pub min_offset: u64,
    pub max_offset: u64,
    /// Whether the chain begins with a piece that looks back.
    pub looks_back: bool,
}

/// What a role names: the number of a literal or of an engine, and where the piece has the empty span.
#[derive(Clone, Copy, Debug)]
pub(crate) struct Named {
    pub number: usize,
    pub null: Mask,
}

impl Builder {
    /// Nothing yet.
    pub fn new(alloc: Global) -> Builder
        ensures { IsBuilt result [] [] }
    {
        Builder {
            chains: Vec::new(alloc),
            roles: Vec::new(alloc),
            literals: LiteralIndex::new(alloc),
            made: Vec::new(alloc),
        }
    }

    /// Puts the chains of an entry behind the others.
    pub fn add_entry(
        &mut self,
        alloc: Global,
        number: u32,
        entry: &Entry,
        chains: &[Chain],
    ) -> Result<(), AllocError>
        requires { AreRunnable (map plain_chain chains.now) }
        ensures { IfOk result (λ done. (before : List ListedChain) → IsBuilt self.old before [] →
            IsBuilt self.new (before ++ chains_from number 1 (asked_of entry.now) (map plain_chain chains.now)) []) }
    {
        for (k, chain) in chains.iter().enumerate() {
            let owner = Owner {
                entry: number,
                chain: (k + 1) as u32,
                id: entry.id,
                min_offset: entry.ext.min_offset,
                max_offset: entry.ext.max_offset,
                looks_back: chain.begins_with_look_back(),
            };
            self.add_chain(alloc, &owner, chain)?;
        }
        Ok(())
    }

    /// Puts the chain behind the others.
    fn add_chain(&mut self, alloc: Global, owner: &Owner, chain: &Chain) -> Result<(), AllocError>
        requires { IsRunnableChain (plain_chain chain.now) }
        ensures { IfOk result (λ done. (before : List ListedChain) (x : ListedChain) →
            IsOwner owner.now x → x.pieces ≡ plain_chain chain.now →
            IsBuilt self.old before [] → IsBuilt self.new (before ++ x ∷ []) []) }
    {
        let first = self.roles.len();
        for (before, piece) in chain.0.iter().enumerate() {
            self.add_piece(alloc, owner, before, piece)?;
        }
        self.chains.push(ChainInfo {
            first,
            end: self.roles.len(),
            entry: owner.entry,
        })?;
        Ok(())
    }

    /// Puts the piece behind the others of its chain, of which there are so many.
    fn add_piece(
        &mut self,
        alloc: Global,
        owner: &Owner,
        before: usize,
        piece: &Piece,
    ) -> Result<(), AllocError>
        requires few { before + 1 < 2 ^ 32 }
        requires runnable { IsRunnable (plain_piece piece.now) }
        ensures { IfOk result (λ done. (chains : List ListedChain) (pieces : List ListedPiece) (x : ListedChain)
            (place : Place) → IsOwner owner.now x →
            IsPlaceOf owner.now before (plain_piece piece.now) place →
            IsBuilt self.old chains pieces → IsBuilt self.new chains (pieces ++ listed_piece x place ∷ [])) }
    {
        let named = self.name(alloc, piece)?;
        let shape = Shape::of(owner.looks_back, before, piece);
        self.roles.push(role_of(owner, before, shape, named))?;
        Ok(())
    }

    /// Names the piece by its number among the literals or the engines.
    fn name(&mut self, alloc: Global, piece: &Piece) -> Result<Named, AllocError>
        requires { IsRunnable (plain_piece piece.now) }
        ensures { IfOk result (λ named. IsSound self.old → IsNamed self.old self.new (plain_piece piece.now) named) }
    {
        match piece {
            Piece::Lit(bytes) => Ok(Named {
                number: self.literals.number_of(alloc, bytes)?,
                null: Mask::empty(),
            }),
            Piece::Nfa(_) => self.name_run(alloc, piece),
            Piece::Rep(_, _, _) => self.name_run(alloc, piece),
        }
    }

    /// Names a piece that isn't a literal.
    fn name_run(&mut self, alloc: Global, piece: &Piece) -> Result<Named, AllocError>
        requires runnable { IsRunnable (plain_piece piece.now) }
        requires run { IsRun (plain_piece piece.now) }
        ensures { IfOk result (λ named. IsSound self.old →
            IsNamed self.old self.new (plain_piece piece.now) named) }
    {
        let number = number_of(alloc, &mut self.made, piece)?;
        let null = self.made[number].null;
        Ok(Named { number, null })
    }
}

/// The role of the piece behind so many others of its chain.
fn role_of(owner: &Owner, before: usize, shape: Shape, named: Named) -> Role
    requires { before + 1 < 2 ^ 32 }
    ensures { IsRoleFor owner.now before shape named result }
{
    Role {
        min_offset: owner.min_offset,
        max_offset: owner.max_offset,
        number: named.number,
        entry: owner.entry,
        chain: owner.chain,
        piece: (before + 1) as u32,
        id: owner.id,
        null: named.null,
        field_size: shape.size,
        kind: shape.kind,
    }
}
