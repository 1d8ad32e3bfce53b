//! The nodes that a chunk may wake, as a table.

ghost use Rattle.std.specs.Prelude.{◌≡◌, IfOk, length};
ghost use Rattle.std.specs.List.Sorted.{IsPermutation};
ghost use Rattle.hs_compile.specs.GraphWakes.{AreFirstEngines, AreRowsAt, AreWakeable, PutsRows};
ghost use Rattle.hs_compile.specs.GraphWakes.{is_first_engine, waking_literals};
ghost use Rattle.hs_forest.specs.Groups.{AreGroups};
ghost use Rattle.hs_waking.specs.BeginningRows.{rows_of_beginnings};
ghost use Rattle.hs_nodes.specs.Waking.{AreRowsOf, AreWakesSound, waking_literal};
ghost use Rattle.hs_rose.specs.PieceEngines.{piece_meaning};

use crate::graph_numbers::graph_number;
use hs_base::{ByteSet, Prev};
use hs_forest::{Groups, group};
use hs_nodes::{Node, NodeKind, WakeTable};
use hs_rose::PieceEngine;
use hs_waking::{Beginnings, PrevSet, RowTable};
use std::alloc::{AllocError, Global};

/// How many sets of a beginning tell which others are alike.
const ALIKE_SETS: usize = 8;

/// An odd number whose bits are mixed well.
const MIXER: u64 = 0x9E37_79B9_7F4A_7C15;

/// The nodes that a chunk may wake, for so many literals, and what wakes those of engines.
pub(crate) fn wake_table(
    alloc: Global,
    nodes: &[Node],
    literals: usize,
    engines: &[PieceEngine],
) -> Result<WakeTable, AllocError>
    requires { AreWakeable nodes.now literals }
    ensures sound { IfOk result (λ table. AreWakesSound nodes.now table literals) }
    ensures rows { IfOk result (λ table. AreRowsOf piece_meaning nodes.now engines.now table.first_engines.items
        table.row_starts.items table.rows.items table.sets.items) }
{
    let groups = literal_groups(alloc, nodes, literals)?;
    let listed = first_engines(alloc, nodes)?;
    let first_engines = alike_together(nodes, listed, engines)?;
    let (row_starts, table) = row_table(alloc, nodes, &first_engines, engines)?;
    Ok(WakeTable {
        literal_starts: groups.starts,
        literal_nodes: groups.list,
        first_engines,
        row_starts,
        rows: table.rows,
        sets: table.sets,
    })
}

/// The nodes by the literal that wakes them, for so many literals.
pub(crate) fn literal_groups(
    alloc: Global,
    nodes: &[Node],
    literals: usize,
) -> Result<Groups, AllocError>
    requires { AreWakeable nodes.now literals }
    ensures { IfOk result (λ groups. AreGroups (waking_literals nodes.now) literals groups.starts.items
        groups.list.items) }
{
    let wakers = literals_before(alloc, nodes)?;
    group(alloc, &wakers, literals)
}

/// The literals that wake the nodes.
fn literals_before(alloc: Global, nodes: &[Node]) -> Result<Vec<Option<u32>>, AllocError>
    ensures { IfOk result (λ literals. literals.items ≡ waking_literals nodes.now) }
{
    nodes.iter().map(|node| literal_before(node)).collect(alloc)
}

/// The literal that wakes the node where it ends, if there is one.
fn literal_before(node: &Node) -> Option<u32>
    ensures { result ≡ waking_literal node.now.kind }
{
    match node.kind {
        NodeKind::FirstLiteral(number, _) => Some(number),
        NodeKind::LookBack(pair) => Some(pair.literal),
        NodeKind::Engine(_, _) | NodeKind::Literal(_, _) => None,
    }
}

/// The node is one of an engine, and has no parent.
fn is_first(node: &Node) -> bool
    ensures { result ≡ is_first_engine node.now.kind node.now.parent }
{
    if node.parent.is_some() {
        return false;
    }
    matches!(node.kind, NodeKind::Engine(_, _))
}

/// The nodes of engines that have no parent, rising.
fn first_engines(alloc: Global, nodes: &[Node]) -> Result<Vec<u32>, AllocError>
    ensures { IfOk result (λ list. AreFirstEngines nodes.now (length nodes.now) list.items) }
{
    let mut list = Vec::new(alloc);
    for (number, node) in nodes.iter().enumerate() {
        if is_first(node) {
            list.push(graph_number(number)?)?;
        }
    }
    Ok(list)
}

/// How each match of the engine of the node of that number begins; where there is none, by no row.
fn beginnings_at<'e>(nodes: &[Node], k: usize, engines: &'e [PieceEngine]) -> Beginnings<'e>
    ensures { AreRowsAt nodes.now engines.now k result.behind (rows_of_beginnings result.rows) }
{
    let Some(node) = nodes.get(k) else {
        return Beginnings::none();
    };
    let NodeKind::Engine(number, _) = node.kind else {
        return Beginnings::none();
    };
    match engines.get(number as usize) {
        Some(engine) => engine.beginnings(),
        None => Beginnings::none(),
    }
}

/// The same nodes, those of engines whose matches begin alike next to each other: a scan that finds where one may begin
/// then finds it for the next one too.
fn alike_together(
    nodes: &[Node],
    mut list: Vec<u32>,
    engines: &[PieceEngine],
) -> Result<Vec<u32>, AllocError>
    ensures { IfOk result (λ sorted. IsPermutation list.items sorted.items) }
{
    list.sort_by_cached_key(|k| start_key(&beginnings_at(nodes, *k as usize, engines)))?;
    Ok(list)
}

/// A key that is equal where matches begin alike, and unequal nearly always where they don't: what may stand before
/// them, and then each set of the first row.
fn start_key(beginnings: &Beginnings<'_>) -> [u32; 1 + ALIKE_SETS] {
    let mut key = [0; 1 + ALIKE_SETS];
    key[0] = behind_key(beginnings.behind);
    if let Some(beginning) = beginnings.get(0) {
        for depth in 0..beginning.row.len().min(ALIKE_SETS) {
            key[1 + depth] = set_key(&beginning.row[depth]);
        }
    }
    key
}

/// The members, each as a bit.
fn behind_key(behind: PrevSet) -> u32 {
    let start = behind.contains(Prev::Start) as u32;
    let word = behind.contains(Prev::Word) as u32;
    let newline = behind.contains(Prev::Newline) as u32;
    let other = behind.contains(Prev::Other) as u32;
    start | (word << 1) | (newline << 2) | (other << 3)
}

/// The words of the set, mixed.
fn set_key(set: &ByteSet) -> u32 {
    let words = set.words();
    let mut mixed = MIXER;
    for i in 0..words.len() {
        mixed = (mixed.rotate_left(29) ^ words[i]).wrapping_mul(MIXER);
    }
    (mixed >> 32) as u32
}

/// What wakes each of the engines of these nodes, and where the rows of each begin.
fn row_table(
    alloc: Global,
    nodes: &[Node],
    list: &[u32],
    engines: &[PieceEngine],
) -> Result<(Vec<u32>, RowTable), AllocError>
    ensures { IfOk result (λ made. AreRowsOf piece_meaning nodes.now engines.now list.now
        made.0.items made.1.rows.items made.1.sets.items) }
{
    let mut table = RowTable::new(alloc);
    let mut starts = Vec::new(alloc);
    starts.push(0)?;
    for i in 0..list.len() {
        push_rows(&mut table, &beginnings_at(nodes, list[i] as usize, engines))?;
        starts.push(graph_number(table.rows.len())?)?;
    }
    Ok((starts, table))
}

/// Puts the rows by which matches begin behind the others.
fn push_rows(table: &mut RowTable, beginnings: &Beginnings<'_>) -> Result<(), AllocError>
    ensures { IfOk result (λ done. PutsRows table.old table.new beginnings.now.behind
        (rows_of_beginnings beginnings.now.rows)) }
{
    let mut number: u32 = 0;
    while let Some(beginning) = beginnings.get(number as usize) {
        table.push(&beginning)?;
        number = graph_number(number as usize + 1)?;
    }
    Ok(())
}
