//! Memory that a scan uses within a write.

ghost use Rattle.std.specs.Prelude.{◌≡◌, ◌+◌, ◌<◌, ◌≤◌, ◌^◌, ◌↔◌, ℕ, IfOk, IsTrue, List, Some, false, length};
ghost use Rattle.std.specs.Prelude.{slice_get};
ghost use Rattle.hs_base.specs.Literals.{LiteralByte};
ghost use Rattle.hs_base.specs.Regions.{history_size};
ghost use Rattle.hs_literals.specs.Held.{held};
ghost use Rattle.hs_literals.specs.HitTables.{has_hit};
ghost use Rattle.hs_scan.specs.Hits.{HasNowhere};
ghost use Rattle.hs_scan.specs.Scratches.{FindsHits, ForgetsHits, HasNoHits, IsIdle, ServesGraph};

use crate::course::Course;
use crate::hits::{forget_hits, show_hits};
use crate::past::seen_of;
use hs_bits::word_count_for;
use hs_layout::HISTORY_SIZE;
use hs_literals::{HitRows, Literals};
use hs_nodes::{ChunkEnds, ChunkHits, Graph};
use hs_reports::IdentifierEnds;
use hs_waking::{ClassWords, Starts};
use std::alloc::{AllocError, Global};

/// For how many sets of bytes there is room: rows name no more.
const MAX_SETS: usize = 1 << 16;

/// Memory that a scan uses within a write, for one graph at a time.
#[derive(Drop)]
pub struct Scratch {
    /// Where each node is left in a chunk.
    pub(crate) ends: Vec<ChunkEnds>,
    /// Where each literal ends in a chunk.
    pub(crate) hits: Vec<ChunkHits>,
    /// The same as rows of bits.
    pub(crate) rows: HitRows,
    /// At which places of a chunk the sets have bytes by which first engines are woken.
    pub(crate) words: ClassWords,
    /// Where matches of each node may begin in a chunk, as far as it is one of an engine without a parent.
    pub(crate) starts: Starts,
    /// What goes from chunk to chunk.
    pub(crate) course: Course,
    /// Where matches of each identifier would end before a line feed, were that the last byte.
    pub(crate) finals: IdentifierEnds,
    /// Which identifiers a write leaves to the end.
    pub(crate) last: Vec<u64>,
    /// The last bytes of the stream.
    pub(crate) past: [u8; HISTORY_SIZE],
    /// How many bytes have come.
    pub(crate) at: u64,
}

impl Scratch {
    /// A scratch for the graph, with these literals. The only error is want of memory.
    pub fn new<E>(
        alloc: Global,
        graph: &Graph<E>,
        literals: &Literals,
    ) -> Result<Scratch, AllocError>
        requires nodes { length graph.now.table.nodes.items < 2 ^ 32 }
        requires identifiers { length graph.now.identifiers.items < 2 ^ 32 }
        requires literals { length (held literals.now) < 2 ^ 32 }
        ensures idle { IfOk result IsIdle }
        ensures serves { IfOk result (ServesGraph graph.now (length (held literals.now))) }
    {
        let nodes = graph.table.nodes.len();
        let identifiers = graph.identifiers.len();
        let count = literals.count();
        Ok(Scratch {
            ends: vec![in alloc; ChunkEnds::NOWHERE; nodes]?,
            hits: vec![in alloc; ChunkHits::NOWHERE; count]?,
            rows: HitRows::new(alloc, count)?,
            words: ClassWords::new(alloc, graph.wakes.sets.len().min(MAX_SETS))?,
            starts: Starts::new(alloc, nodes)?,
            course: Course::new(alloc, nodes, identifiers)?,
            finals: IdentifierEnds::new(alloc, identifiers)?,
            last: vec![in alloc; 0u64; word_count_for(identifiers)]?,
            past: [0; HISTORY_SIZE],
            at: 0,
        })
    }

    /// Whether it serves the graph, with these literals.
    pub fn fits<E>(&self, graph: &Graph<E>, literals: &Literals) -> bool
        ensures { IsTrue result ↔ ServesGraph graph.now (length (held literals.now)) self.now }
    {
        self.ends.len() == graph.table.nodes.len()
            && self.course.known.ends.count() == graph.identifiers.len()
            && self.hits.len() == literals.count()
    }
}

/// Finds where the literals end in the next bytes.
pub(crate) fn find_hits(literals: &Literals, scratch: &mut Scratch, bytes: &[u8])
    requires short { (number : ℕ) (literal : List LiteralByte) → slice_get (held literals.now) number ≡ Some literal →
        length literal ≤ 32 }
    requires rows { length (held literals.now) ≤ scratch.old.rows.count }
    requires hits { length scratch.old.hits.items ≡ scratch.old.rows.count }
    requires past { length scratch.old.past ≡ history_size }
    requires none { HasNoHits scratch.old }
    requires few { length bytes.now ≤ 512 }
    ensures { FindsHits (held literals.now) bytes.now scratch.old scratch.new }
{
    scratch
        .rows
        .find(literals, seen_of(scratch.at, &scratch.past), bytes);
    show_hits(&scratch.rows, &mut scratch.hits);
}

/// Takes the hits back.
pub(crate) fn forget(scratch: &mut Scratch)
    requires count { length scratch.old.hits.items ≡ scratch.old.rows.count }
    requires others { (k : ℕ) → has_hit scratch.old.rows k ≡ false → HasNowhere scratch.old.hits.items k }
    ensures { ForgetsHits scratch.old scratch.new }
{
    forget_hits(&scratch.rows, &mut scratch.hits);
}
