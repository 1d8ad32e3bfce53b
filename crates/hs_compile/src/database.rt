//! What a list is compiled to.

ghost use Rattle.std.specs.Prelude.{◌≡◌, ◌+◌, ◌^◌, ◌≤◌, IfOk, IfSome, Some, is_some, map, option_copied, take};
ghost use Rattle.hs_base.specs.LiteralView.{literal_bytes};
ghost use Rattle.hs_literals.specs.Held.{held};
ghost use Rattle.hs_kept.specs.Packing.{packed_size};
ghost use Rattle.hs_nodes.specs.Lone.{AreLiving};
ghost use Rattle.hs_rose.specs.PieceEngines.{piece_meaning};
ghost use Rattle.hs_compile.specs.GraphTables.{IsLaidFor};

use crate::arranging::arrange;
use crate::building::build_graph;
use hs_base::{ByteSet, LitByte};
use hs_kept::Packing;
use hs_layout::Layout;
use hs_literals::Literals;
use hs_nodes::{Graph, LoneNodes};
use hs_rose::{PieceEngine, Program};
use std::alloc::{AllocError, Global};
use std::marker::Model;

/// The length in bytes of what a file of a stream's state has beside what the stream keeps.
pub const STATE_FILE_HEAD: usize = 42;

/// What scans the expressions of a list. Nothing changes it, so one serves any number of streams.
///
/// It keeps tables of 4 to 256 KB for its literals, again for those that last where others are asked for near the start
/// of a stream alone, and an engine for each other piece, equal ones once: some 4 KB for each 64 positions where there
/// are more or a context matters, and else much less. For each expression that a chain
/// begins with and that has at most 255 states it keeps the sets of its states: 9 bytes a state where it has at most 64
/// positions. With the lists of `docs/MEASURED.md` that have more than 1,000 entries a process that scans takes 2 to 12
/// KB an entry.
#[derive(Drop)]
pub struct Database {
    graph: Graph<PieceEngine>,
    literals: Literals,
    lasting: Option<Literals>,
    lone: LoneNodes,
    layout: Layout,
    packing: Packing,
    digest: [u8; 32],
}

/// Those of the literals that are looked for where chains are over that begin where the stream does: so many, if these
/// aren't all.
fn lasting_of(
    alloc: Global,
    literals: &[Vec<LitByte>],
    others: usize,
) -> Result<Option<Literals>, AllocError>
    ensures { IfOk result (λ lasting. IfSome lasting (λ own.
        held own ≡ take others (map literal_bytes literals.now))) }
{
    if literals.len() <= others {
        return Ok(None);
    }
    Ok(Some(Literals::build(alloc, &literals[..others])?))
}

/// By engine, the bytes behind which something of it may be live.
fn living_bytes(alloc: Global, engines: &[PieceEngine]) -> Result<Vec<ByteSet>, AllocError>
    ensures { IfOk result (λ sets. AreLiving piece_meaning engines.now sets.items) }
{
    let mut sets = Vec::new(alloc);
    for k in 0..engines.len() {
        sets.push(engines[k].living_bytes())?;
    }
    Ok(sets)
}

impl Model for Database {
    ghost use Rattle.std.specs.Coded.{codes};
    ghost use Rattle.hs_kept.specs.contracts.packing.Packing as packing_row;
    ghost use Rattle.hs_compile.specs.Databases.{Compiled, IsWholeDatabase, compiled};

    ghost Value = { Compiled };

    ghost coded = { Prim.hlevel (codes, packing_row.the_row.coded) };

    ghost view = { λ d. compiled d.graph d.literals d.lasting d.lone d.layout d.packing d.digest };

    ghost invariant = { λ d.
        IsWholeDatabase (compiled d.graph d.literals d.lasting d.lone d.layout d.packing d.digest) };
}

impl Database {
    ghost use Rattle.hs_compile.specs.Databases.{IsWholeDatabase, compiled, digest_of, graph_of, layout_of};
    ghost use Rattle.hs_compile.specs.Databases.{lasting_in, literals_in, lone_in, packing_of};
    ghost use Rattle.hs_compile.specs.GraphLaws.{IsDatabaseOfPlans, IsPackedProgram};

    /// The database of a graph with these literals, of the layout and the packing of its regions, and of the digest of
    /// its list.
    fn new(
        graph: Graph<PieceEngine>,
        literals: Literals,
        lasting: Option<Literals>,
        lone: LoneNodes,
        layout: Layout,
        packing: Packing,
        digest: [u8; 32],
    ) -> Database
        requires { IsWholeDatabase (compiled graph literals lasting lone layout packing digest) }
        ensures { result ≡ compiled graph literals lasting lone layout packing digest }
    {
        Database {
            graph,
            literals,
            lasting,
            lone,
            layout,
            packing,
            digest,
        }
    }

    /// The database of a program, of the layout and the packing of its regions, and of the digest of its list. The only
    /// error is want of memory.
    pub(crate) fn of_program(
        alloc: Global,
        program: Program,
        layout: Layout,
        packing: Packing,
        digest: [u8; 32],
    ) -> Result<Database, AllocError>
        requires packed { IsPackedProgram program packing }
        requires laid { IsLaidFor program layout }
        ensures plans { IfOk result (λ database. IsDatabaseOfPlans program database) }
        ensures packing { IfOk result (λ database. packing_of database ≡ packing) }
        ensures digest { IfOk result (λ database. digest_of database ≡ digest) }
    {
        let (mut graph, named) = build_graph(alloc, program, &layout)?;
        let arranged = arrange(alloc, &mut graph, &named)?;
        let literals = Literals::build(alloc, &arranged)?;
        let lasting = lasting_of(alloc, &arranged, graph.openings.others as usize)?;
        let living = living_bytes(alloc, &graph.table.engines)?;
        let lone = LoneNodes::of_graph(alloc, &graph, living)?;
        Ok(Database::new(graph, literals, lasting, lone, layout, packing, digest))
    }

    /// The graph of nodes that a scan runs.
    pub fn graph(&self) -> &Graph<PieceEngine>
        ensures graph { result.now ≡ graph_of self.now }
        ensures whole { IsWholeDatabase self.now }
    {
        &self.graph
    }

    /// The literals that its nodes name.
    pub fn literals(&self) -> &Literals
        ensures literals { result.now ≡ literals_in self.now }
        ensures whole { IsWholeDatabase self.now }
    {
        &self.literals
    }

    /// Those of them that are looked for where chains are over that begin where the stream does, if there are others.
    pub fn lasting(&self) -> Option<&Literals>
        ensures lasting { option_copied result ≡ lasting_in self.now }
        ensures some { IfSome result (λ own. lasting_in self.now ≡ Some own.now) }
        ensures none { is_some result ≡ is_some (lasting_in self.now) }
        ensures whole { IsWholeDatabase self.now }
    {
        self.lasting.as_ref()
    }

    /// The nodes of which it plays no part where they are left, once a pair of their one identifier is told.
    pub fn lone(&self) -> &LoneNodes
        ensures lone { result.now ≡ lone_in self.now }
        ensures whole { IsWholeDatabase self.now }
    {
        &self.lone
    }

    /// Where the parts of a stream's region lie.
    pub fn layout(&self) -> &Layout
        ensures layout { result.now ≡ layout_of self.now }
        ensures whole { IsWholeDatabase self.now }
    {
        &self.layout
    }

    /// How a stream keeps its region: between its writes it has what the packing makes of that.
    pub fn packing(&self) -> &Packing
        ensures packing { result.now ≡ packing_of self.now }
        ensures whole { IsWholeDatabase self.now }
    {
        &self.packing
    }

    /// The SHA-256 digest of the encoding of its list, by which states of streams are told apart that belong to other
    /// lists.
    ///
    /// # Cost
    ///
    /// Nothing is computed, and it takes no memory.
    ///
    /// # Examples
    ///
    /// ```
    /// let is_same_list = database.digest() == other.digest();
    /// ```
    pub fn digest(&self) -> &[u8; 32]
        ensures { result.now ≡ digest_of self.now }
    {
        &self.digest
    }

    /// The length in bytes of what a stream keeps, however long it is: its region, in which one byte, the number of a
    /// state, stands for the positions of each expression that a chain begins with and that has at most 255 states.
    ///
    /// # Cost
    ///
    /// One number is read, and it takes no memory.
    ///
    /// # Examples
    ///
    /// ```
    /// println!(rt; "each stream keeps {} bytes", database.region_size())?;
    /// ```
    pub fn region_size(&self) -> usize
        ensures size { result ≡ packed_size (packing_of self.now) }
        ensures small { result ≤ 2 ^ 24 }
    {
        self.packing.size()
    }

    /// The length in bytes of the file of a stream's state, which is what a saved stream is: what the stream keeps, and
    /// what the file has beside it.
    ///
    /// # Cost
    ///
    /// One number is read, and it takes no memory.
    ///
    /// # Examples
    ///
    /// ```
    /// println!(rt; "a saved stream has {} bytes", database.stream_size())?;
    /// ```
    pub fn stream_size(&self) -> usize
        ensures { result ≡ packed_size (packing_of self.now) + 42 }
    {
        self.region_size() + STATE_FILE_HEAD
    }
}
