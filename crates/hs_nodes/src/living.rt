//! Nodes in which something is live: the bytes of a region tell, and those that are 0 are passed over eight at a time.

ghost use Rattle.std.specs.Prelude.{◌≡◌, ◌+◌, ◌<◌, ◌≤◌, ℕ, List, IfOk, Some, true, false, length, slice_get};
ghost use Rattle.std.specs.Slice.Scan.{HoldsNowhere};
ghost use Rattle.hs_bits.specs.NextBits.{IsNextBitIn};
ghost use Rattle.hs_nodes.specs.Living.{AreInTurn, IsAround, is_live};
ghost use Rattle.hs_bits.specs.Marks.{is_marked, mark_room};
ghost use Rattle.hs_nodes.specs.Resting.{AreEnginesIdle, AreNodesResting, IsIdleEngine};
ghost use Rattle.hs_nodes.specs.Walks.{IsTableSound, node_part};
ghost use Rattle.hs_nodes.specs.declared.table.Node.{Node};
ghost use Rattle.hs_base.specs.Bits.{AreZero};

use crate::table::{Node, NodeTable};
use hs_bits::{MarkSet, SPAN_BYTES, WORD_BYTES, is_zero_span, word_at};
use hs_engine::Engine;
use std::alloc::{AllocError, Global};

/// Sees to it that the engine's region of the empty stream is all 0. The only error is want of memory.
fn idle_engine<E: Engine>(alloc: Global, engine: &E) -> Result<(), AllocError>
    ensures { IfOk result (λ done. (E.meaning engine.now).always ≡ false → (part : List ℕ) →
        length part ≡ (E.meaning engine.now).width → AreZero part → IsIdleEngine (E.meaning engine.now) part) }
{
    let mut region = vec![in alloc; 0u8; engine.size()]?;
    engine.clear(&mut region);
    let _is_at_rest = engine.at_rest(&region);
    Ok(())
}

/// Sees to it that nothing is live in a region of the engines in which all bytes are 0, as a graph has to know of its
/// own. The only error is want of memory.
pub fn idle_engines<E: Engine>(alloc: Global, engines: &[E]) -> Result<(), AllocError>
    ensures { IfOk result (λ done. AreEnginesIdle E.meaning engines.now) }
{
    for k in 0..engines.len() {
        idle_engine(alloc, &engines[k])?;
    }
    Ok(())
}

/// A place up to which all bytes from `from` on are 0: behind it fewer than 32 are left, or one of the next 32 is not
/// 0.
#[inline]
fn pass_spans(bytes: &[u8], from: usize) -> usize
    requires { from ≤ length bytes.now }
    ensures low { from ≤ result }
    ensures high { result ≤ length bytes.now }
    ensures zero { HoldsNowhere (is_live bytes.now) from result }
{
    let mut at = from;
    while SPAN_BYTES <= bytes.len() - at && is_zero_span(bytes, at) {
        at += SPAN_BYTES;
    }
    at
}

/// A place up to which all bytes from `from` on are 0: behind it fewer than eight are left, or one of the next eight is
/// not 0.
fn pass_zeros(bytes: &[u8], from: usize) -> usize
    requires { from ≤ length bytes.now }
    ensures low { from ≤ result }
    ensures high { result ≤ length bytes.now }
    ensures zero { HoldsNowhere (is_live bytes.now) from result }
{
    let mut at = pass_spans(bytes, from);
    while WORD_BYTES <= bytes.len() - at && word_at(bytes, at) == 0 {
        at += WORD_BYTES;
    }
    at
}

/// The place of the first byte from `from` on that isn't 0; None exactly where there is none.
pub fn next_live(bytes: &[u8], from: usize) -> Option<usize>
    requires { from ≤ length bytes.now }
    ensures { IsNextBitIn (is_live bytes.now) from (length bytes.now) result }
{
    for place in pass_zeros(bytes, from)..bytes.len() {
        if bytes[place] != 0 {
            return Some(place);
        }
    }
    None
}

/// The first node from `from` on that doesn't end up to the place, where nodes end in their order; or how many there
/// are. It looks at the next nodes first, then farther and farther on.
pub fn node_around(nodes: &[Node], from: usize, place: usize) -> usize
    requires from { from ≤ length nodes.now }
    requires turn { (size : ℕ) × AreInTurn nodes.now size }
    ensures { IsAround nodes.now from place result }
{
    let mut low = from;
    let mut high = nodes.len();
    let mut reach = 0;
    while low < high {
        let middle = low + reach.min((high - low) / 2);
        if place < nodes[middle].end as usize {
            high = middle;
        } else {
            low = middle + 1;
        }
        reach = reach.saturating_mul(2).saturating_add(1);
    }
    low
}

/// The node of that number.
fn node_in(nodes: &[Node], k: usize) -> Node
    requires { k < length nodes.now }
    ensures { slice_get nodes.now k ≡ Some result }
{
    nodes[k]
}

/// Marks the number, if that is wanted.
fn mark_if(marks: &mut MarkSet, number: usize, wanted: bool)
    requires { number < mark_room marks.old }
    ensures room { length marks.new ≡ length marks.old }
    ensures put { wanted ≡ true → is_marked marks.new number ≡ true }
    ensures kept { (k : ℕ) → is_marked marks.old k ≡ true → is_marked marks.new k ≡ true }
    ensures others { (k : ℕ) → (k ≡ number → ⊥) → is_marked marks.new k ≡ is_marked marks.old k }
{
    if wanted {
        marks.write(number, true);
    }
}

/// Marks the nodes of which a byte isn't 0.
fn mark_around(nodes: &[Node], region: &[u8], marks: &mut MarkSet)
    requires turn { AreInTurn nodes.now (length region.now) }
    requires room { length nodes.now ≤ mark_room marks.old }
    requires below { (k : ℕ) → is_marked marks.old k ≡ true → k < length nodes.now }
    ensures room { length marks.new ≡ length marks.old }
    ensures below { (k : ℕ) → is_marked marks.new k ≡ true → k < length nodes.now }
    ensures zero { (k : ℕ) (node : Node) → slice_get nodes.now k ≡ Some node → is_marked marks.new k ≡ false →
        AreZero (node_part region.now node) }
{
    let mut past = 0;
    let mut from = 0;
    while let Some(place) = next_live(region, from) {
        past = node_around(nodes, past, place);
        if past == nodes.len() {
            return;
        }
        let node = node_in(nodes, past);
        let is_begun = node.start as usize <= place;
        mark_if(marks, past, is_begun);
        from = if is_begun { node.end } else { node.start } as usize;
    }
}

/// Marks those nodes in which something is live, and takes all other marks away.
pub fn mark_live<E: Engine>(table: &NodeTable<E>, region: &[u8], marks: &mut MarkSet)
    requires sound { (literals : ℕ) × IsTableSound E.meaning table.now literals (length region.now) }
    requires idle { AreEnginesIdle E.meaning table.now.engines.items }
    requires room { length table.now.nodes.items ≤ mark_room marks.old }
    ensures room { length marks.new ≡ length marks.old }
    ensures below { (k : ℕ) → is_marked marks.new k ≡ true → k < length table.now.nodes.items }
    ensures resting { AreNodesResting E.meaning table.now marks.new region.now }
{
    marks.clear();
    mark_around(&table.nodes, region, marks);
}
