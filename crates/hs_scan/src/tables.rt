//! What a scan reads and never writes.

ghost use Rattle.std.specs.Prelude.{◌≡◌, ◌^◌, ◌<◌, ℕ, true, None};
ghost use Rattle.std.specs.Option.{ForSome};
ghost use Rattle.hs_bits.specs.Marks.{is_marked, mark_room};
ghost use Rattle.hs_literals.specs.Held.{held};
ghost use Rattle.hs_nodes.specs.Openings.{AreOver, lasting_literals};
ghost use Rattle.hs_scan.specs.Hits.{sought};

use hs_bits::MarkSet;
use hs_layout::Layout;
use hs_literals::Literals;
use hs_nodes::{Graph, LoneNodes};

/// What a scan reads and never writes.
#[derive(Drop)]
pub struct Tables<'g, 'l, 'o, 'n, 'p, E> {
    /// The nodes, and what tells where matches end.
    pub graph: &'g Graph<E>,
    /// The literals that are looked for.
    pub literals: &'l Literals,
    /// Those of them that last: that are looked for where the chains are over that begin where the stream does. None
    /// where all do.
    pub lasting: Option<&'o Literals>,
    /// The nodes that one single identifier has for itself.
    pub lone: &'n LoneNodes,
    /// Where the parts of a region lie.
    pub layout: &'p Layout,
    ghost lasting_are: { ForSome lasting
        (λ own. held own.now ≡ lasting_literals graph.now.openings (held literals.now)) },
}

impl<E> Tables<'_, '_, '_, '_, '_, E> {
    /// Whether the chains are over that begin where the stream does, behind so many bytes, where nothing is live in the
    /// nodes that aren't marked; never where all literals last.
    pub(crate) fn are_over(&self, at: u64, marks: &MarkSet) -> bool
        requires room { (k : ℕ) → is_marked marks.now k ≡ true → k < mark_room self.now.graph.now.openings.nodes }
        requires few { (k : ℕ) → is_marked marks.now k ≡ true → k < 2 ^ 32 }
        ensures over { result ≡ true → AreOver self.now.graph.now.openings at marks.now }
        ensures apart { result ≡ true → self.now.lasting ≡ None → ⊥ }
    {
        if self.lasting.is_none() {
            return false;
        }
        self.graph.openings.are_over(at, marks)
    }

    /// The literals that are looked for where those chains are over, or aren't.
    pub(crate) fn sought(&self, are_over: bool) -> &Literals
        requires { are_over ≡ true → self.now.lasting ≡ None → ⊥ }
        ensures { held result.now ≡ sought are_over self.now.graph.now.openings (held self.now.literals.now) }
    {
        match self.lasting {
            Some(lasting) if are_over => lasting,
            _ => self.literals,
        }
    }
}
