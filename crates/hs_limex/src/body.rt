//! The two bodies of the engine `Limex`.

ghost use Rattle.std.specs.Prelude.{◌≡◌, ℕ, ◌+◌, ◌*◌, ◌/◌, ◌<◌, ◌≤◌, true, false, ◌&&◌, IfOk, IsTrue, length};
ghost use Rattle.hs_base.specs.Bits.{AreZero, has_bit};
ghost use Rattle.hs_base.specs.ByteSets.{has};

use crate::small::Small;
use crate::tables::Tables;
use hs_base::{ByteSet, Next, NextSet, Prev};
use hs_bits::BYTE_BITS;
use hs_engine::Automaton;
use std::alloc::{AllocError, Global};

/// The tables by which an engine goes.
#[derive(Debug, Drop)]
pub(crate) enum Body {
    /// Of at most 64 positions, where no context matters: a step is one word.
    Small(Small),
    /// Of any automaton.
    Wide(Box<Tables>),
}

impl Body {
    ghost use Rattle.hs_base.specs.ContextSets.{has_next};
    ghost use Rattle.hs_base.specs.declared.context.Next.{Next};
    ghost use Rattle.hs_engine.specs.Between.{between};
    ghost use Rattle.hs_engine.specs.RowSizes.{row_len};
    ghost use Rattle.hs_limex.specs.BodyMoves.{moves_of_body};
    ghost use Rattle.hs_limex.specs.Fitting.{AcceptsIn, Fits, IsLed};

    /// The tables of an automaton, in the least form that holds them.
    pub(crate) fn build(alloc: Global, automaton: &Automaton) -> Result<Body, AllocError>
        ensures { IfOk result (λ body. Fits (moves_of_body body) automaton.now) }
    {
        match Small::build(alloc, automaton)? {
            Some(small) => Ok(Body::Small(small)),
            None => Body::build_wide(alloc, automaton),
        }
    }

    /// The tables of any automaton.
    fn build_wide(alloc: Global, automaton: &Automaton) -> Result<Body, AllocError>
        ensures { IfOk result (λ body. Fits (moves_of_body body) automaton.now) }
    {
        let tables = Tables::build(alloc, automaton)?;
        Ok(Body::Wide(Box::new(alloc, tables)?))
    }

    /// How many positions there are.
    pub(crate) fn size(&self) -> usize
        ensures size { result ≡ (moves_of_body self.now).size }
        ensures few { result ≤ 512 }
    {
        match self {
            Body::Small(small) => small.size(),
            Body::Wide(tables) => tables.size(),
        }
    }

    /// How many bytes hold a bit for each position.
    pub(crate) fn region_len(&self) -> usize
        ensures { result ≡ row_len (moves_of_body self.now).size }
    {
        (self.size() + (BYTE_BITS - 1)) / BYTE_BITS
    }

    /// The bytes with which a match may begin.
    pub(crate) fn first(&self) -> &ByteSet
        ensures { result.now ≡ (moves_of_body self.now).first }
    {
        match self {
            Body::Small(small) => small.first(),
            Body::Wide(tables) => tables.first(),
        }
    }

    /// Whether the region is at rest and stays so over the byte.
    #[inline(always)]
    pub(crate) fn stays_at_rest(&self, region: &[u8], entering: bool, byte: u8) -> bool
        requires { length region.now ≡ row_len (moves_of_body self.now).size }
        ensures zero { IsTrue result → AreZero region.now }
        ensures outside { IsTrue result → (entering && has (moves_of_body self.now).first byte) ≡ false }
        ensures unentered { AreZero region.now → entering ≡ false → IsTrue result }
    {
        match self {
            Body::Small(small) => small.stays_at_rest(region, entering, byte),
            Body::Wide(tables) => tables.stays_at_rest(region, entering, byte),
        }
    }

    /// Moves the region over the byte, before which the expression is entered or not.
    #[inline(always)]
    pub(crate) fn move_over(
        &self,
        region: &mut [u8],
        prev: Prev,
        next: Next,
        entering: bool,
        byte: u8,
    )
        requires { length region.old ≡ row_len (moves_of_body self.now).size }
        ensures len { length region.new ≡ length region.old }
        ensures sound { (k : ℕ) →
            has_bit region.new k ≡ true →
            ((moves_of_body self.now).reach byte k ≡ true)
            × IsLed (moves_of_body self.now) (has_bit region.old) (between prev next) entering k }
        ensures whole { (k : ℕ) →
            k < 8 * length region.old →
            (moves_of_body self.now).reach byte k ≡ true →
            IsLed (moves_of_body self.now) (has_bit region.old) (between prev next) entering k →
            has_bit region.new k ≡ true }
    {
        match self {
            Body::Small(small) => small.move_over(region, entering, byte),
            Body::Wide(tables) => tables.move_over(region, prev, next, entering, byte),
        }
    }

    /// What may come next where a position that is live accepts.
    #[inline(always)]
    pub(crate) fn accepted(&self, region: &[u8], prev: Prev) -> NextSet
        requires { length region.now ≡ row_len (moves_of_body self.now).size }
        ensures sound { (next : Next) →
            has_next result next ≡ true →
            AcceptsIn (moves_of_body self.now) (has_bit region.now) (between prev next) }
        ensures whole { (next : Next) →
            AcceptsIn (moves_of_body self.now) (has_bit region.now) (between prev next) →
            has_next result next ≡ true }
    {
        match self {
            Body::Small(small) => small.accepted(region),
            Body::Wide(tables) => tables.accepted(region, prev),
        }
    }
}
