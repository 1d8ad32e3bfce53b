//! Fields that are copies of what is kept of a node.

ghost use Rattle.std.specs.Prelude.{◌≡◌, ◌<◌, ◌≤◌, IfSome, None, Some, length, slice_get};
ghost use Rattle.hs_layout.specs.Layouts.{laid_size};
ghost use Rattle.hs_nodes.specs.Graphs.{FitsLayout, IsCopySound};
ghost use Rattle.hs_nodes.specs.declared.table.Node.{Node};
ghost use Rattle.hs_scan.specs.Copying.{AreFieldsCopied, AreMadeOf, ArePassed, GoesOn, IsCopyAround, IsFieldCopied};
ghost use Rattle.hs_scan.specs.Copying.{IsKeptUpTo, IsSpot, MakesCopies};

use hs_block::BlockEngine;
use hs_layout::Layout;
use hs_nodes::{FieldCopy, Graph, copy_at, next_live, node_around, node_at, start_of};

/// Makes one copy.
fn copy_field<E: BlockEngine>(graph: &Graph<E>, layout: &Layout, region: &mut [u8], copy: FieldCopy)
    requires sound { IsCopySound graph.now layout.now copy }
    requires fits { FitsLayout graph.now layout.now }
    requires sized { length region.old ≡ laid_size layout.now }
    ensures { IsFieldCopied graph.now layout.now copy region.old region.new }
{
    let node = node_at(&graph.table, copy.node as usize);
    region.copy_within(
        node.start as usize..node.end as usize,
        layout.place(copy.field as usize),
    );
}

/// Makes the copies of what is kept of the node of that number.
fn copy_node<E: BlockEngine>(graph: &Graph<E>, layout: &Layout, region: &mut [u8], k: usize)
    requires fits { FitsLayout graph.now layout.now }
    requires sized { length region.old ≡ laid_size layout.now }
    requires there { k < length graph.now.table.nodes.items }
    ensures makes { MakesCopies graph.now layout.now region.old region.new }
    ensures made { AreMadeOf graph.now layout.now region.new k }
{
    let copies = &graph.node_copies;
    for i in start_of(&copies.starts, k)..start_of(&copies.starts, k + 1) {
        let copy = copy_at(graph, start_of(&copies.numbers, i));
        copy_field(graph, layout, region, copy);
    }
}

/// The number of the first copy from `from` on whose field doesn't end up to the place; or how many there are. It looks
/// at the next copies first, then farther and farther on.
fn copy_around<E>(graph: &Graph<E>, layout: &Layout, from: usize, place: usize) -> usize
    requires fits { FitsLayout graph.now layout.now }
    requires from { from ≤ length graph.now.copies.items }
    ensures { IsCopyAround graph.now layout.now from place result }
{
    let mut low = from;
    let mut high = graph.copies.len();
    let mut reach = 0;
    while low < high {
        let middle = low + reach.min((high - low) / 2);
        if place < layout.place(copy_at(graph, middle).field as usize + 1) {
            high = middle;
        } else {
            low = middle + 1;
        }
        reach = reach.saturating_mul(2).saturating_add(1);
    }
    low
}

/// How far the copies of a region are made.
#[derive(Clone, Copy, Debug)]
pub struct Spot {
    /// The byte up to which they are.
    pub from: usize,
    /// All nodes before the one of that number end up to there,
    pub node: usize,
    /// and so do the fields of all copies before the one of that number.
    pub copy: usize,
}

/// Makes the copies of the node of that number, if it keeps the byte, which is before its end. Answers where it ends.
fn copy_kept<E: BlockEngine>(
    graph: &Graph<E>,
    layout: &Layout,
    region: &mut [u8],
    place: usize,
    k: usize,
) -> Option<usize>
    requires fits { FitsLayout graph.now layout.now }
    requires sized { length region.old ≡ laid_size layout.now }
    ensures makes { MakesCopies graph.now layout.now region.old region.new }
    ensures some { IfSome result (IsKeptUpTo graph.now layout.now region.new k place) }
    ensures none { result ≡ None → (node : Node) → slice_get graph.now.table.nodes.items k ≡ Some node →
        place < node.start }
{
    if k >= graph.table.nodes.len() {
        return None;
    }
    let node = node_at(&graph.table, k);
    if place < node.start as usize {
        return None;
    }
    copy_node(graph, layout, region, k);
    Some(node.end as usize)
}

/// Makes the copy of that number, if its field has the byte, which is before its end. Answers where the field ends, and
/// else the next byte.
fn copy_into<E: BlockEngine>(
    graph: &Graph<E>,
    layout: &Layout,
    region: &mut [u8],
    place: usize,
    n: usize,
) -> usize
    requires fits { FitsLayout graph.now layout.now }
    requires sized { length region.old ≡ laid_size layout.now }
    requires room { place < length region.old }
    ensures makes { MakesCopies graph.now layout.now region.old region.new }
    ensures goes_on { GoesOn graph.now layout.now region.new n place result }
{
    if n >= graph.copies.len() {
        return place + 1;
    }
    let copy = copy_at(graph, n);
    if place < layout.place(copy.field as usize) {
        return place + 1;
    }
    copy_field(graph, layout, region, copy);
    layout.place(copy.field as usize + 1)
}

/// Makes the copies of the node that keeps a byte, or the copy whose field has it, if there is one.
fn copy_byte<E: BlockEngine>(
    graph: &Graph<E>,
    layout: &Layout,
    region: &mut [u8],
    place: usize,
    spot: &mut Spot,
)
    requires fits { FitsLayout graph.now layout.now }
    requires sized { length region.old ≡ laid_size layout.now }
    requires room { place < length region.old }
    requires spot { IsSpot graph.now layout.now spot.old }
    requires from { spot.old.from ≤ place }
    ensures makes { MakesCopies graph.now layout.now region.old region.new }
    ensures spot { IsSpot graph.now layout.now spot.new }
    ensures later { place < spot.new.from }
    ensures within { spot.new.from ≤ length region.old }
    ensures passed { ArePassed graph.now layout.now region.new place spot.new.from }
{
    spot.node = node_around(&graph.table.nodes, spot.node, place);
    if let Some(end) = copy_kept(graph, layout, region, place, spot.node) {
        spot.from = end;
        return;
    }
    spot.copy = copy_around(graph, layout, spot.copy, place);
    spot.from = copy_into(graph, layout, region, place, spot.copy);
}

/// Makes all copies: those of nodes and into fields of which a byte isn't 0. The others are made.
pub(crate) fn copy_fields<E: BlockEngine>(graph: &Graph<E>, layout: &Layout, region: &mut [u8])
    requires fits { FitsLayout graph.now layout.now }
    requires sized { length region.old ≡ laid_size layout.now }
    ensures { AreFieldsCopied graph.now layout.now (length graph.now.copies.items) region.old region.new }
{
    if graph.copies.is_empty() {
        return;
    }
    let mut spot = Spot {
        from: layout.place(0),
        node: 0,
        copy: 0,
    };
    while let Some(place) = next_live(region, spot.from) {
        copy_byte(graph, layout, region, place, &mut spot);
    }
}
