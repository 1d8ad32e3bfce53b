//! Whether bytes may be what is kept of a region.

ghost use Rattle.std.specs.Prelude.{◌≡◌, ◌↔◌, ◌+◌, ◌-◌, ◌^◌, ◌<◌, ◌≤◌, true, IfSome, IsNone, IsTrue, length};
ghost use Rattle.std.specs.Prelude.{slice_range};
ghost use Rattle.hs_base.specs.RepeatRows.{IsRingAt};
ghost use Rattle.hs_base.specs.Regions.{region_offset};
ghost use Rattle.hs_kept.specs.Packing.{AreNumbers, packed_size, unpacked, unpacked_size};
ghost use Rattle.hs_kept.specs.Parts.{AreNumbersBefore, IsPartIn};
ghost use Rattle.hs_nodes.specs.Graphs.{FitsLayout, keeps_field};
ghost use Rattle.hs_nodes.specs.Nodes.{IsWellPart};
ghost use Rattle.hs_regions.specs.Checking.{AreCopiesIn, ArePartsIn, IsPartSized};
ghost use Rattle.hs_regions.specs.Faults.{AreCopiesWellBefore, AreFieldsWellBefore, AreNodesWellBefore};
ghost use Rattle.hs_regions.specs.Faults.{IsCopyFault, IsFieldFault, IsNodeFault};
ghost use Rattle.hs_regions.specs.KeptFaults.{IsFirstFault, IsFirstPartFault};
ghost use Rattle.hs_regions.specs.Packed.{IsWellPacked, RunsSomePacked};

use crate::header::{header_fault, offset_in};
use hs_bits::{BYTE_BITS, has_bit_in};
use hs_block::BlockEngine;
use hs_engine::Engine;
use hs_kept::Packing;
use hs_layout::Layout;
use hs_nodes::{Graph, NodeKind, copy_at, node_at};

/// Whether the row may be one of a literal of so many bytes at that offset: no bit is set that stands for nothing, or
/// for an entry before the stream's first byte.
fn is_row(row: &[u8], count: usize, at: u64) -> bool
    requires row { length row.now ≡ 4 }
    requires short { count ≤ 32 }
    ensures { IsTrue result ↔ IsRingAt count row.now at }
{
    let first = at.min(count as u64) as usize;
    !has_bit_in(row, first, BYTE_BITS * row.len())
}

/// Whether the bytes may be a region of the engine at that offset.
fn is_field<E: Engine>(engine: &E, part: &[u8], at: u64) -> bool
    requires { length part.now ≡ (E.meaning engine.now).width }
    ensures { IsTrue result ↔ (E.meaning engine.now).well part.now at }
{
    engine.well_formed(part, at)
}

/// Whether the bytes may be what is kept of a node of that kind at the offset.
fn is_part<E: BlockEngine>(kind: NodeKind, engines: &[E], part: &[u8], at: u64) -> bool
    requires { IsPartSized E.meaning engines.now kind (length part.now) }
    ensures { IsTrue result ↔ IsWellPart E.meaning engines.now kind part.now at }
{
    match kind {
        NodeKind::Engine(number, _) => is_field(&engines[number as usize], part, at),
        NodeKind::Literal(_, len) => is_row(part, len as usize, at),
        NodeKind::FirstLiteral(_, _) => true,
        NodeKind::LookBack(_) => true,
    }
}

/// Whether something is kept of a node of that kind.
fn keeps(kind: NodeKind) -> bool
    ensures { result ≡ keeps_field kind }
{
    match kind {
        NodeKind::Engine(_, _) => true,
        NodeKind::Literal(_, _) => true,
        NodeKind::FirstLiteral(_, _) => false,
        NodeKind::LookBack(_) => false,
    }
}

/// Whether what is kept of a node of that kind may stand at the offset, which lies in a region from the one to before
/// the other byte; or it begins at the bound or behind it.
fn stands<E: BlockEngine>(
    kind: NodeKind,
    engines: &[E],
    packing: &Packing,
    kept: &[u8],
    low: usize,
    high: usize,
    at: u64,
    bound: usize,
) -> bool
    requires kept { length kept.now ≡ packed_size packing.now }
    requires part { keeps_field kind ≡ true → IsPartIn packing.now low high }
    requires sized { IsPartSized E.meaning engines.now kind (high - low) }
    requires numbers { AreNumbersBefore packing.now kept.now bound }
    ensures { IsTrue result ↔ (low < bound →
        IsWellPart E.meaning engines.now kind (slice_range (unpacked packing.now kept.now) low high) at) }
{
    if low >= bound {
        return true;
    }
    if !keeps(kind) {
        return true;
    }
    is_part(kind, engines, packing.part(kept, low, high), at)
}

/// Where the field of the first node begins of which what is kept may not stand at the offset, among those that begin
/// before the bound. None: each of them may.
fn node_fault<E: BlockEngine>(
    graph: &Graph<E>,
    packing: &Packing,
    kept: &[u8],
    at: u64,
    bound: usize,
) -> Option<usize>
    requires kept { length kept.now ≡ packed_size packing.now }
    requires parts { ArePartsIn E.meaning graph.now packing.now }
    requires numbers { AreNumbersBefore packing.now kept.now bound }
    ensures none { IsNone result → AreNodesWellBefore E.meaning graph.now (unpacked packing.now kept.now) at bound }
    ensures first { IfSome result (IsNodeFault E.meaning graph.now (unpacked packing.now kept.now) at) }
    ensures early { IfSome result (λ place. place < bound) }
{
    for k in 0..graph.table.nodes.len() {
        let node = node_at(&graph.table, k);
        let low = node.start as usize;
        let high = node.end as usize;
        if !stands(
            node.kind,
            &graph.table.engines,
            packing,
            kept,
            low,
            high,
            at,
            bound,
        ) {
            return Some(low);
        }
    }
    None
}

/// Where the first field begins that is a copy of a node's and may not stand at the offset, among those that begin
/// before the bound. None: each of them may.
fn copy_fault<E: BlockEngine>(
    graph: &Graph<E>,
    layout: &Layout,
    packing: &Packing,
    kept: &[u8],
    at: u64,
    bound: usize,
) -> Option<usize>
    requires kept { length kept.now ≡ packed_size packing.now }
    requires parts { ArePartsIn E.meaning graph.now packing.now }
    requires copies { AreCopiesIn graph.now layout.now packing.now }
    requires fits { FitsLayout graph.now layout.now }
    requires numbers { AreNumbersBefore packing.now kept.now bound }
    ensures none { IsNone result →
        AreCopiesWellBefore E.meaning graph.now (unpacked packing.now kept.now) at layout.now bound }
    ensures first { IfSome result (IsCopyFault E.meaning graph.now (unpacked packing.now kept.now) at layout.now) }
    ensures early { IfSome result (λ place. place < bound) }
{
    for i in 0..graph.copies.len() {
        let copy = copy_at(graph, i);
        let node = node_at(&graph.table, copy.node as usize);
        let low = layout.place(copy.field as usize);
        let high = layout.place(copy.field as usize + 1);
        if !stands(
            node.kind,
            &graph.table.engines,
            packing,
            kept,
            low,
            high,
            at,
            bound,
        ) {
            return Some(low);
        }
    }
    None
}

/// Where the first field behind the header begins in a region that may not stand at the offset, among those that begin
/// before the bound. None: each of them may.
fn field_fault<E: BlockEngine>(
    graph: &Graph<E>,
    layout: &Layout,
    packing: &Packing,
    kept: &[u8],
    at: u64,
    bound: usize,
) -> Option<usize>
    requires runs { RunsSomePacked E.meaning graph.now layout.now packing.now }
    requires kept { length kept.now ≡ packed_size packing.now }
    requires numbers { AreNumbersBefore packing.now kept.now bound }
    ensures none { IsNone result →
        AreFieldsWellBefore E.meaning graph.now (unpacked packing.now kept.now) at layout.now bound }
    ensures first { IfSome result (IsFieldFault E.meaning graph.now (unpacked packing.now kept.now) at layout.now) }
    ensures early { IfSome result (λ place. place < bound) }
    ensures within { IfSome result (λ place. place ≤ unpacked_size packing.now) }
{
    let Some(own) = node_fault(graph, packing, kept, at, bound) else {
        return copy_fault(graph, layout, packing, kept, at, bound);
    };
    let Some(copied) = copy_fault(graph, layout, packing, kept, at, bound) else {
        return Some(own);
    };
    Some(own.min(copied))
}

/// Where the first part begins, of what is kept of the pieces, that breaks its rule: one by the number of no state, or
/// one that may not stand at the offset. None: each part keeps to its rule.
fn part_fault<E: BlockEngine>(
    graph: &Graph<E>,
    layout: &Layout,
    packing: &Packing,
    kept: &[u8],
    at: u64,
) -> Option<usize>
    requires runs { RunsSomePacked E.meaning graph.now layout.now packing.now }
    requires kept { length kept.now ≡ packed_size packing.now }
    requires offset { at ≡ region_offset kept.now }
    ensures none { IsNone result → AreNumbers packing.now kept.now × AreFieldsWellBefore E.meaning graph.now
        (unpacked packing.now kept.now) at layout.now (unpacked_size packing.now + 1) }
    ensures first { IfSome result (IsFirstPartFault E.meaning graph.now layout.now packing.now kept.now) }
    ensures within { IfSome result (λ place. place ≤ 2 ^ 24) }
{
    match packing.number_fault(kept) {
        None => match field_fault(graph, layout, packing, kept, at, packing.region_size() + 1) {
            None => None,
            Some(low) => Some(packing.place(low)),
        },
        Some((bound, place)) => match field_fault(graph, layout, packing, kept, at, bound) {
            None => Some(place),
            Some(low) => Some(packing.place(low)),
        },
    }
}

/// Where the first part begins that breaks its rule, of bytes that have the length: one of the header, or else one of
/// what is kept of the pieces. None: the bytes may be what is kept of a region.
pub fn first_fault<E: BlockEngine>(
    graph: &Graph<E>,
    layout: &Layout,
    packing: &Packing,
    kept: &[u8],
) -> Option<usize>
    requires runs { RunsSomePacked E.meaning graph.now layout.now packing.now }
    requires kept { length kept.now ≡ packed_size packing.now }
    ensures none { IsNone result ↔ IsWellPacked E.meaning graph.now layout.now packing.now kept.now }
    ensures first { IfSome result (IsFirstFault E.meaning graph.now layout.now packing.now kept.now) }
    ensures within { IfSome result (λ place. place ≤ 2 ^ 24) }
{
    match header_fault(layout.singles(), graph.identifiers.len(), kept) {
        Some(at) => Some(at),
        None => part_fault(graph, layout, packing, kept, offset_in(kept)),
    }
}

/// Whether the bytes may be what is kept of a region of the graph: they have the length, and the header and each part
/// keep to their rules.
pub fn well_formed<E: BlockEngine>(
    graph: &Graph<E>,
    layout: &Layout,
    packing: &Packing,
    kept: &[u8],
) -> bool
    requires { RunsSomePacked E.meaning graph.now layout.now packing.now }
    ensures { IsTrue result ↔ IsWellPacked E.meaning graph.now layout.now packing.now kept.now }
{
    if kept.len() != packing.size() {
        return false;
    }
    first_fault(graph, layout, packing, kept).is_none()
}
