//! Items on their way to pieces.
ghost use Rattle.std.specs.Prelude.{◌<◌, vec_len};

use crate::piece::{Chain, Piece};
use hs_base::{ByteSet, LitByte};
use hs_expr::{Expr, Kind, MOST_LITERAL_BYTES, kind_of};
use std::alloc::{AllocError, Global};

/// The pieces of some items, as far as the items to come can't change them.
#[derive(Debug, Drop)]
pub struct Parts {
    /// The pieces that are complete.
    pub pieces: Vec<Piece>,
    /// The ordinary items behind these.
    pub items: Vec<Expr>,
    /// The literal bytes behind these, not yet a full literal.
    pub run: Vec<LitByte>,
    ghost short: { vec_len run < 32 },
}

impl Parts {
    ghost use Rattle.std.specs.Prelude.{◌≡◌, ◌∷◌, ◌++◌, [], List, map, IfOk};
    ghost use Rattle.hs_base.specs.ByteSets.{members};
    ghost use Rattle.hs_base.specs.Chains.{Part, literal, ordinary, long, part_of, rest_of_run};
    ghost use Rattle.hs_base.specs.LiteralView.{literal_byte};
    ghost use Rattle.hs_expr.specs.Meaning.{tree_of};
    ghost use Rattle.hs_pieces.specs.Meaning.{plain_piece, plain_chain};
    ghost use Rattle.hs_pieces.specs.Splitting.{whole, whole_of_cut, closed};

    /// No item yet.
    pub fn new(alloc: Global) -> Parts
        ensures pieces { result.pieces.items ≡ [] }
        ensures items { result.items.items ≡ [] }
        ensures run { result.run.items ≡ [] }
    {
        Parts {
            pieces: Vec::new(alloc),
            items: Vec::new(alloc),
            run: Vec::new(alloc),
        }
    }

    /// Takes one more item.
    pub fn add(&mut self, alloc: Global, item: &Expr) -> Result<(), AllocError>
        ensures { IfOk result (λ done. (parts : List Part) →
            whole self.new parts ≡ whole self.old (part_of (tree_of item.now) ∷ parts)) }
    {
        match kind_of(item) {
            Kind::Literal(byte) => self.add_byte(alloc, byte),
            Kind::Long(set, least, greatest) => self.add_long(alloc, set, least, greatest),
            Kind::Ordinary => self.add_ordinary(alloc, item),
        }
    }

    /// The chain of all items.
    pub fn finish(self, alloc: Global) -> Result<Chain, AllocError>
        ensures { IfOk result (λ chain. plain_chain chain ≡ whole self []) }
    {
        let mut parts = self;
        parts.end_run(alloc)?;
        parts.end_items(alloc)?;
        Ok(Chain(parts.pieces))
    }

    /// Takes a byte of a literal.
    fn add_byte(&mut self, alloc: Global, byte: LitByte) -> Result<(), AllocError>
        ensures { IfOk result (λ done. (parts : List Part) →
            whole self.new parts ≡ whole self.old (literal (literal_byte byte ∷ []) ∷ parts)) }
    {
        if self.run.len() + 1 < MOST_LITERAL_BYTES {
            self.run.push(byte)?;
            return Ok(());
        }
        self.end_items(alloc)?;
        let mut full = std::mem::replace(&mut self.run, Vec::new(alloc));
        full.push(byte)?;
        self.pieces.push(Piece::Lit(full))?;
        Ok(())
    }

    /// Takes a long repeat of a set.
    fn add_long(
        &mut self,
        alloc: Global,
        set: ByteSet,
        least: u32,
        greatest: Option<u32>,
    ) -> Result<(), AllocError>
        ensures { IfOk result (λ done. (parts : List Part) →
            whole self.new parts ≡ whole self.old (long (members set) least greatest ∷ parts)) }
    {
        self.end_run(alloc)?;
        self.end_items(alloc)?;
        self.pieces.push(Piece::Rep(set, least, greatest))?;
        Ok(())
    }

    /// Takes an ordinary item.
    fn add_ordinary(&mut self, alloc: Global, item: &Expr) -> Result<(), AllocError>
        ensures { IfOk result (λ done. (parts : List Part) →
            whole self.new parts ≡ whole self.old (ordinary (tree_of item.now ∷ []) ∷ parts)) }
    {
        self.end_run(alloc)?;
        self.items.push(item.copy(alloc)?)?;
        Ok(())
    }

    /// Ends the run of literal bytes: one alone is an ordinary item.
    fn end_run(&mut self, alloc: Global) -> Result<(), AllocError>
        ensures run { IfOk result (λ done. self.new.run.items ≡ []) }
        ensures same { IfOk result (λ done. (cut : List Part) →
            whole_of_cut self.new cut ≡ whole_of_cut self.old
            (rest_of_run (map literal_byte self.old.run.items) ++ cut)) }
    {
        let run = std::mem::replace(&mut self.run, Vec::new(alloc));
        if run.len() > 1 {
            self.end_items(alloc)?;
            self.pieces.push(Piece::Lit(run))?;
            return Ok(());
        }
        let Some(byte) = run.first() else {
            return Ok(());
        };
        self.items.push(Expr::Class(byte.set()))?;
        Ok(())
    }

    /// Ends the ordinary items: together they are one piece.
    fn end_items(&mut self, alloc: Global) -> Result<(), AllocError>
        ensures items { IfOk result (λ done. self.new.items.items ≡ []) }
        ensures run { IfOk result (λ done. self.new.run.items ≡ self.old.run.items) }
        ensures pieces { IfOk result (λ done. map plain_piece self.new.pieces.items
            ≡ map plain_piece self.old.pieces.items ++ closed (map tree_of self.old.items.items)) }
    {
        if self.items.is_empty() {
            return Ok(());
        }
        let items = std::mem::replace(&mut self.items, Vec::new(alloc));
        self.pieces.push(Piece::Nfa(Expr::Cat(items)))?;
        Ok(())
    }
}
