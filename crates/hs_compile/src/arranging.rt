//! The literals of a graph in another order: those of chains that begin where the stream does behind all others.

ghost use Rattle.std.specs.Prelude.{◌≡◌, ◌<◌, ◌≤◌, ◌^◌, ℕ, true, Bool, IfOk, Some, length, map};
ghost use Rattle.hs_base.specs.LiteralView.{literal_bytes};
ghost use Rattle.hs_bits.specs.Marks.{mark_room};
ghost use Rattle.hs_compile.specs.Arranging.{AreGiven, AreMarkedTo, AreNamed, AreOldTexts, AreParentsFirst};
ghost use Rattle.hs_compile.specs.Arranging.{AreRenumbered, GivesKind, GivesNumber, IsOpening, MayBeArranged};
ghost use Rattle.hs_compile.specs.Arranging.{GivesNodes};
ghost use Rattle.hs_base.specs.Regions.{Plan};
ghost use Rattle.hs_layout.specs.Layouts.{Laid};
ghost use Rattle.hs_nodes.specs.Graphs.{IsGraphSound, RunsPlan};
ghost use Rattle.hs_nodes.specs.Openings.{IsOpeningKind, named_literal};
ghost use Rattle.hs_rose.specs.PieceEngines.{piece_meaning};

use crate::graph_numbers::graph_number;
use crate::graph_wakes::literal_groups;
use hs_base::LitByte;
use hs_bits::MarkSet;
use hs_nodes::{Graph, LookBackPair, Node, NodeKind, Openings, begins_at_start};
use hs_rose::PieceEngine;
use std::alloc::{AllocError, Global};

/// Whether matches of a node of that kind, which has no parent, begin where the stream does and nowhere else.
fn is_first_opening(kind: NodeKind) -> bool
    ensures { result ≡ true → IsOpeningKind kind }
{
    match kind {
        NodeKind::LookBack(pair) => begins_at_start(&pair),
        NodeKind::Engine(_, _) | NodeKind::Literal(_, _) | NodeKind::FirstLiteral(_, _) => false,
    }
}

/// Whether the node is one of a chain that begins where the stream does, where those of its parents are marked.
fn is_opening(openings: &MarkSet, node: &Node) -> bool
    requires { (p : ℕ) → node.now.parent ≡ Some p → p < mark_room openings.now }
    ensures { result ≡ true → IsOpening openings.now node.now }
{
    match node.parent {
        Some(parent) => openings.contains(parent as usize),
        None => is_first_opening(node.kind),
    }
}

/// The nodes of chains that begin where the stream does.
fn opening_nodes(alloc: Global, nodes: &[Node]) -> Result<MarkSet, AllocError>
    requires few { length nodes.now < 2 ^ 32 }
    requires earlier { AreParentsFirst nodes.now }
    ensures { IfOk result (λ marks. AreMarkedTo nodes.now (length nodes.now) marks) }
{
    let mut openings = MarkSet::new(alloc, nodes.len())?;
    for k in 0..nodes.len() {
        let opens = is_opening(&openings, &nodes[k]);
        openings.write(k, opens);
    }
    Ok(openings)
}

/// Literals that are given numbers anew, in the order in which nodes ask for them.
#[derive(Drop)]
struct Numbering {
    /// Those that have one.
    literals: Vec<Vec<LitByte>>,
    /// Their numbers by those that they had, so far as they are given.
    numbers: Vec<Option<u32>>,
}

impl Numbering {
    /// None is given yet, of the literals of so many old numbers; new ones come behind these literals.
    fn behind(
        alloc: Global,
        named: &[Vec<LitByte>],
        literals: Vec<Vec<LitByte>>,
    ) -> Result<Numbering, AllocError>
        requires { AreOldTexts (map literal_bytes named.now) (map literal_bytes literals.items) }
        ensures literals { IfOk result (λ numbering. numbering.literals ≡ literals) }
        ensures given { IfOk result (λ numbering. AreGiven (map literal_bytes named.now)
            (map literal_bytes numbering.literals.items) numbering.numbers.items) }
    {
        let numbers = vec![in alloc; None; named.len()]?;
        Ok(Numbering { literals, numbers })
    }

    /// The number of a literal, which is given to it now if it has none.
    fn number(
        &mut self,
        alloc: Global,
        named: &[Vec<LitByte>],
        literal: u32,
    ) -> Result<u32, AllocError>
        requires known { literal < length named.now }
        requires given { AreGiven (map literal_bytes named.now) (map literal_bytes self.old.literals.items)
            self.old.numbers.items }
        ensures { IfOk result (λ number. GivesNumber (map literal_bytes named.now)
            (map literal_bytes self.old.literals.items) (map literal_bytes self.new.literals.items)
            self.new.numbers.items literal number) }
    {
        let at = literal as usize;
        if let Some(number) = self.numbers[at] {
            return Ok(number);
        }
        let number = graph_number(self.literals.len())?;
        self.literals.push(Vec::from_slice(alloc, &named[at])?)?;
        self.numbers[at] = Some(number);
        Ok(number)
    }

    /// The kind of a node by the new number of its literal.
    fn kind(
        &mut self,
        alloc: Global,
        named: &[Vec<LitByte>],
        kind: NodeKind,
    ) -> Result<NodeKind, AllocError>
        requires known { (literal : ℕ) → named_literal kind ≡ Some literal → literal < length named.now }
        requires given { AreGiven (map literal_bytes named.now) (map literal_bytes self.old.literals.items)
            self.old.numbers.items }
        ensures { IfOk result (λ own. GivesKind (map literal_bytes named.now)
            (map literal_bytes self.old.literals.items) (map literal_bytes self.new.literals.items)
            self.new.numbers.items kind own) }
    {
        match kind {
            NodeKind::Engine(_, _) => Ok(kind),
            NodeKind::Literal(old, len) => {
                let number = self.number(alloc, named, old)?;
                Ok(NodeKind::Literal(number, len))
            }
            NodeKind::FirstLiteral(old, len) => {
                let number = self.number(alloc, named, old)?;
                Ok(NodeKind::FirstLiteral(number, len))
            }
            NodeKind::LookBack(pair) => {
                let literal = self.number(alloc, named, pair.literal)?;
                Ok(NodeKind::LookBack(LookBackPair { literal, ..pair }))
            }
        }
    }

    /// Gives numbers to the literals of those nodes that are openings, or of the others.
    fn take(
        &mut self,
        alloc: Global,
        named: &[Vec<LitByte>],
        nodes: &mut [Node],
        openings: &MarkSet,
        wanted: bool,
    ) -> Result<(), AllocError>
        requires room { length nodes.old ≤ mark_room openings.now }
        requires known { AreNamed openings.now wanted (length named.now) nodes.old }
        requires given { AreGiven (map literal_bytes named.now) (map literal_bytes self.old.literals.items)
            self.old.numbers.items }
        ensures { IfOk result (λ done. GivesNodes (map literal_bytes named.now)
            (map literal_bytes self.old.literals.items) (map literal_bytes self.new.literals.items)
            self.new.numbers.items openings.now wanted (length nodes.old) nodes.old nodes.new) }
    {
        for k in 0..nodes.len() {
            if openings.contains(k) == wanted {
                let node = nodes[k];
                let kind = self.kind(alloc, named, node.kind)?;
                nodes[k] = Node { kind, ..node };
            }
        }
        Ok(())
    }
}

/// Gives the literals of nodes other numbers, first those that nodes name that aren't openings. Answers the literals by
/// these numbers, and how many are those of the first kind.
fn renumber(
    alloc: Global,
    named: &[Vec<LitByte>],
    nodes: &mut [Node],
    openings: &MarkSet,
) -> Result<(Vec<Vec<LitByte>>, u32), AllocError>
    requires room { length nodes.old ≤ mark_room openings.now }
    requires known { (wanted : Bool) → AreNamed openings.now wanted (length named.now) nodes.old }
    ensures { IfOk result (λ made. AreRenumbered (map literal_bytes named.now) (map literal_bytes made.0.items)
        openings.now made.1 nodes.old nodes.new) }
{
    let mut first = Numbering::behind(alloc, named, Vec::new(alloc))?;
    first.take(alloc, named, nodes, openings, false)?;
    let others = graph_number(first.literals.len())?;
    let mut second = Numbering::behind(alloc, named, first.literals)?;
    second.take(alloc, named, nodes, openings, true)?;
    let _ = graph_number(second.literals.len())?;
    Ok((second.literals, others))
}

/// Gives the literals of a graph other numbers, those of chains that begin where the stream does behind all others, and
/// says which chains these are. Answers the literals by their new numbers. The only error is want of memory.
pub(crate) fn arrange(
    alloc: Global,
    graph: &mut Graph<PieceEngine>,
    named: &[Vec<LitByte>],
) -> Result<Vec<Vec<LitByte>>, AllocError>
    requires { MayBeArranged graph.old.table.nodes.items (length named.now) }
    ensures sound { IfOk result (λ literals. (l : Laid) →
        IsGraphSound piece_meaning graph.old (map literal_bytes named.now) l →
        IsGraphSound piece_meaning graph.new (map literal_bytes literals.items) l) }
    ensures runs { IfOk result (λ literals. (plan : Plan) →
        RunsPlan piece_meaning graph.old (map literal_bytes named.now) plan →
        RunsPlan piece_meaning graph.new (map literal_bytes literals.items) plan) }
{
    let nodes = opening_nodes(alloc, &graph.table.nodes)?;
    let (literals, others) = renumber(alloc, named, &mut graph.table.nodes, &nodes)?;
    let groups = literal_groups(alloc, &graph.table.nodes, literals.len())?;
    graph.wakes.literal_starts = groups.starts;
    graph.wakes.literal_nodes = groups.list;
    graph.openings = Openings { nodes, others };
    Ok(literals)
}
