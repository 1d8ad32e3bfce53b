//! What is known of a chunk before its nodes are run.

ghost use Rattle.std.specs.Prelude.{◌≡◌, ◌<◌, ℕ, true, false, length};
ghost use Rattle.hs_bits.specs.Marks.{is_marked, mark_room};
ghost use Rattle.hs_nodes.specs.Sparing.{IsUnhit};

use crate::hits::ChunkHits;
use crate::lone::Spent;
use crate::openings::Openings;
use crate::table::NodeTable;
use hs_bits::MarkSet;
use hs_lazy::Cache;
use hs_waking::Starts;

/// What is known of a chunk before its nodes are run.
#[derive(Clone, Copy, Debug)]
pub struct Foretold<'h, 'e, 's, 'c, 'o, 'l, 'b, 'p> {
    /// Where each literal ends in it.
    pub hits: &'h [ChunkHits],
    /// The literals that end somewhere in it: one that isn't marked ends nowhere.
    pub ending: &'e MarkSet,
    /// At which of its places matches of each engine without a parent may begin.
    pub starts: &'s Starts,
    /// What a cache tells of its nodes.
    pub cache: &'c Cache,
    /// The chains that begin where the stream does.
    pub openings: &'o Openings,
    /// Whether these are over: their nodes are passed over, whatever is marked.
    pub are_over: bool,
    /// The nodes of which it plays no part where they are left.
    pub spent: Spent<'l, 'l, 'l, 'b, 'p>,
    ghost unhit: { (number : ℕ) → is_marked ending.now number ≡ false → IsUnhit number hits.now },
}

impl Foretold<'_, '_, '_, '_, '_, '_, '_, '_> {
    ghost use Rattle.hs_nodes.specs.Foretelling.{passes, spends};

    /// Whether the node of that number is spent, the cache doesn't tell what it does, and it is worth while to catch up
    /// with the chunk at its end.
    #[inline(always)]
    pub(crate) fn is_left_behind<E>(&self, table: &NodeTable<E>, k: usize) -> bool
        requires { k < length table.now.nodes.items }
        ensures { result ≡ true → spends self.now k ≡ true }
    {
        self.spent.is_left(table, k) && !self.cache.is_told(k)
    }

    /// Whether the node of that number is passed over.
    #[inline(always)]
    pub(crate) fn passes(&self, k: usize) -> bool
        requires { k < mark_room self.now.openings.now.nodes }
        ensures { result ≡ passes self.now k }
    {
        self.are_over && self.openings.nodes.contains(k)
    }
}
