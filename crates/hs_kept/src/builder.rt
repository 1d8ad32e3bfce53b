//! What is built of a packing while a list is compiled.

ghost use Rattle.std.specs.Prelude.{◌≡◌, ◌≤◌, ◌++◌, [], false, List, IfOk, map};
ghost use Rattle.hs_base.specs.Chains.{nfa};
ghost use Rattle.hs_base.specs.EndAssertions.{has_embedded_end};
ghost use Rattle.hs_base.specs.Lists.{Each};
ghost use Rattle.hs_base.specs.Regions.{Place, Plan};
ghost use Rattle.hs_base.specs.WrittenOut.{IsPlain, count, write_out};
ghost use Rattle.hs_expr.specs.Meaning.{tree_of};
ghost use Rattle.hs_pieces.specs.LookBack.{begins_with_look_back};
ghost use Rattle.hs_pieces.specs.Meaning.{plain_chain, plain_piece};
ghost use Rattle.hs_kept.specs.Builders.{IsBuildable, IsFirstTold, IsPieceTold, first_place};

use crate::packing::{Packing, StateField};
use hs_expr::{Expr, positions};
use hs_glushkov::build;
use hs_layout::Layout;
use hs_pieces::{Chain, Piece};
use hs_states::StateSets;
use std::alloc::{AllocError, Global};

/// A piece that is kept by the number of a state.
#[derive(Debug, Drop)]
pub(crate) struct Candidate {
    /// The number of the piece among all, from 0.
    pub number: usize,
    /// The sets of the states by their numbers.
    pub sets: StateSets,
}

/// What is built of a packing for the chains so far, which are needed no more once they are added. It keeps nothing of
/// a piece but the sets of its states, where it has few: at most 16 KB.
#[derive(Debug, Drop)]
pub struct PackingBuilder {
    /// The pieces that are kept by the number of a state, in order.
    pub(crate) candidates: Vec<Candidate>,
    /// How many pieces there are.
    pub(crate) pieces: usize,
}

impl PackingBuilder {
    ghost use Rattle.hs_kept.specs.Builders.{HasCandidates, IsBuiltForPlan, IsPackedTo, IsPackedWith};
    ghost use Rattle.hs_kept.specs.Builders.{candidates_of, places_in_chain};
    ghost use Rattle.hs_kept.specs.Packing.{IsPackingFor};

    /// Of no chain yet.
    pub fn new(alloc: Global) -> PackingBuilder
        ensures { IsPackedTo result [] }
    {
        PackingBuilder {
            candidates: Vec::new(alloc),
            pieces: 0,
        }
    }

    /// Adds the chains of an expression behind the others. The only error is want of memory; as such counts also that
    /// there are more pieces than a `usize` can number.
    pub fn add_chains(&mut self, alloc: Global, chains: &[Chain]) -> Result<(), AllocError>
        requires { Each (Each IsBuildable) (map plain_chain chains.now) }
        ensures { IfOk result (λ done. IsPackedWith self.old self.new (map plain_chain chains.now)) }
    {
        for chain in chains {
            self.add_chain(alloc, chain)?;
        }
        Ok(())
    }

    /// Adds a chain behind the others.
    fn add_chain(&mut self, alloc: Global, chain: &Chain) -> Result<(), AllocError>
        requires { Each IsBuildable (plain_chain chain.now) }
        ensures { IfOk result (λ done. (before : List Place) → HasCandidates self.old before →
            HasCandidates self.new (before ++ places_in_chain (plain_chain chain.now))) }
    {
        let found = sets_of_first(alloc, chain)?;
        self.add_candidate(found)?;
        let Some(pieces) = self.pieces.checked_add(chain.0.len()) else {
            return Err(AllocError);
        };
        self.pieces = pieces;
        Ok(())
    }

    /// Adds the next piece to the candidates where it is kept by the number of a state.
    fn add_candidate(&mut self, found: Option<StateSets>) -> Result<(), AllocError>
        ensures candidates { IfOk result (λ done. self.new.candidates.items
            ≡ self.old.candidates.items ++ candidates_of self.old.pieces found) }
        ensures pieces { IfOk result (λ done. self.new.pieces ≡ self.old.pieces) }
    {
        if let Some(sets) = found {
            self.candidates.push(Candidate {
                number: self.pieces,
                sets,
            })?;
        }
        Ok(())
    }

    /// The packing of the regions of that layout, which has a field for each piece.
    pub fn finish(self, alloc: Global, layout: &Layout) -> Result<Packing, AllocError>
        requires { (plan : Plan) × IsBuiltForPlan self layout.now plan }
        ensures { IfOk result (λ packing. (plan : Plan) → IsBuiltForPlan self layout.now plan →
            IsPackingFor packing plan) }
    {
        let size = layout.size();
        let mut fields = Vec::with_capacity(alloc, self.candidates.len())?;
        let mut saved = 0;
        for candidate in self.candidates {
            let at = layout.place(candidate.number);
            let width = candidate.sets.width();
            fields.push(StateField {
                at,
                place: at - saved,
                sets: candidate.sets,
            })?;
            saved += width - 1;
        }
        let packing = Packing::new(alloc, fields, size, size - saved).with_rests(alloc)?;
        Ok(packing)
    }
}

/// The sets of the states of a chain's first piece, where it is kept by their numbers.
fn sets_of_first(alloc: Global, chain: &Chain) -> Result<Option<StateSets>, AllocError>
    requires { Each IsBuildable (plain_chain chain.now) }
    ensures { IfOk result (IsFirstTold (plain_chain chain.now)) }
{
    if chain.begins_with_look_back() {
        return Ok(None);
    }
    sets_of_head(alloc, chain)
}

/// The same, of a chain that doesn't begin with a piece that looks back.
fn sets_of_head(alloc: Global, chain: &Chain) -> Result<Option<StateSets>, AllocError>
    requires buildable { Each IsBuildable (plain_chain chain.now) }
    requires ahead { begins_with_look_back (plain_chain chain.now) ≡ false }
    ensures { IfOk result (IsFirstTold (plain_chain chain.now)) }
{
    match chain.0.first() {
        Some(piece) => sets_of_piece(alloc, piece),
        None => Ok(None),
    }
}

/// The sets of the states of a piece that a chain begins with and that doesn't look back, where it is kept by their
/// numbers.
fn sets_of_piece(alloc: Global, piece: &Piece) -> Result<Option<StateSets>, AllocError>
    requires { IsBuildable (plain_piece piece.now) }
    ensures { IfOk result (IsPieceTold (first_place (plain_piece piece.now))) }
{
    match piece {
        Piece::Lit(_) => Ok(None),
        Piece::Nfa(expr) => sets_of(alloc, expr),
        Piece::Rep(_, _, _) => Ok(None),
    }
}

/// The sets of the states of an expression, where it has a position and few states.
fn sets_of(alloc: Global, expr: &Expr) -> Result<Option<StateSets>, AllocError>
    requires plain { IsPlain (tree_of expr.now) }
    requires few { count (write_out (tree_of expr.now)) ≤ 512 }
    requires ends_last { has_embedded_end (tree_of expr.now) false ≡ false }
    ensures { IfOk result (IsPieceTold (first_place (nfa (tree_of expr.now)))) }
{
    if positions(expr) == 0 {
        Ok(None)
    } else {
        let automaton = build(alloc, expr)?;
        StateSets::build(alloc, &automaton)
    }
}
