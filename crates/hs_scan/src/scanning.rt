//! Chunks in a row.

ghost use Rattle.std.specs.Prelude.{◌≡◌, ◌+◌, ◌*◌, ◌<◌, ◌≤◌, ◌^◌, ℕ, true, false, length, slice_index};
ghost use Rattle.hs_base.specs.Lists.{Each};
ghost use Rattle.hs_layout.specs.Layouts.{laid_size};
ghost use Rattle.hs_literals.specs.Held.{held};
ghost use Rattle.hs_literals.specs.HitTables.{has_hit};
ghost use Rattle.hs_nodes.specs.Lone.{AreLoneNodes};
ghost use Rattle.hs_nodes.specs.Walks.{IsOutside};
ghost use Rattle.hs_nodes.specs.Openings.{AreOver};
ghost use Rattle.hs_reports.specs.Events.{Takes};
ghost use Rattle.hs_scan.specs.Hits.{HasNowhere, sought};
ghost use Rattle.hs_nodes.specs.Graphs.{IsGraphSound};
ghost use Rattle.hs_scan.specs.Past.{KeepsEarly};
ghost use Rattle.hs_scan.specs.Scans.{Scans, ScansChunk};
ghost use Rattle.hs_scan.specs.Scratches.{HasNoHits, IsBetweenChunks, KeepsAll, KeepsTables, MayRunNodes};
ghost use Rattle.hs_scan.specs.Scratches.{stand_of};

use crate::node_cache::NodeCache;
use crate::past::{prev_of, push_past};
use crate::running::run_nodes;
use crate::scratch::{Scratch, find_hits, forget};
use crate::tables::Tables;
use crate::telling::tell_chunk;
use hs_block::BlockEngine;
use hs_engine::{Steps, TimelessEngine};
use hs_nodes::{Chunk, MAX_CHUNK, everywhere, settle};
use hs_reports::Events;
use std::sync::ledger::Ledger;

/// Takes a chunk, of which the scratch has where the literals end in it: the nodes, and then the reports. Nothing is
/// live then in the nodes that aren't marked.
fn run_chunk<E: BlockEngine + TimelessEngine, V: Events, L: Ledger>(
    tables: &Tables<E>,
    region: &mut [u8],
    cache: &mut NodeCache,
    scratch: &mut Scratch,
    are_over: bool,
    chunk: &Chunk,
    events: &mut V,
    steps: &mut Steps<L>,
)
    requires runs { MayRunNodes E.meaning tables.now.graph.now scratch.old.rows.count (length region.old) }
    requires before { IsBetweenChunks E.meaning tables.now.graph.now chunk.now.at region.old cache.old scratch.old }
    requires small { Each (λ b. b < 256) chunk.now.bytes.now }
    requires others { (k : ℕ) → has_hit scratch.old.rows k ≡ false → HasNowhere scratch.old.hits.items k }
    requires lone { AreLoneNodes E.meaning tables.now.graph.now tables.now.lone.now }
    requires over { are_over ≡ true → AreOver tables.now.graph.now.openings chunk.now.at scratch.old.course.marks }
    ensures len { length region.new ≡ length region.old }
    ensures outside { (i : ℕ) → IsOutside tables.now.graph.now.table.nodes.items i →
        slice_index region.new i ≡ slice_index region.old i }
    ensures behind { IsBetweenChunks E.meaning tables.now.graph.now (chunk.now.at + length chunk.now.bytes.now)
        region.new cache.new scratch.new }
    ensures ticks { steps.new ≤
        steps.old + 16 * (length tables.now.graph.now.table.nodes.items * (length chunk.now.bytes.now + 1)) }
    ensures keeps { KeepsTables scratch.old scratch.new }
    ensures scans { Takes V.tells events.old events.new (ScansChunk E.meaning tables.now.graph.now region.old region.new
        chunk.now.prev chunk.now.at chunk.now.past.now chunk.now.bytes.now
        (sought are_over tables.now.graph.now.openings scratch.old.hits.items) scratch.old.course.known.told.items
        scratch.old.course.known.here.items scratch.new.course.known.told.items
        scratch.new.course.known.here.items) }
{
    let graph = tables.graph;
    run_nodes(
        graph,
        region,
        cache,
        scratch,
        are_over,
        tables.lone,
        chunk,
        steps,
    );
    let all = everywhere(chunk);
    tell_chunk(
        graph,
        chunk,
        &scratch.course.marks,
        &scratch.ends,
        &all,
        &mut scratch.course.known,
        events,
    );
    let marks = &mut scratch.course.marks;
    settle(&graph.table, region, &mut scratch.ends, marks);
}

/// Takes up to 512 bytes.
pub(crate) fn scan_chunk<E: BlockEngine + TimelessEngine, V: Events, L: Ledger>(
    tables: &Tables<E>,
    region: &mut [u8],
    cache: &mut NodeCache,
    scratch: &mut Scratch,
    bytes: &[u8],
    events: &mut V,
    steps: &mut Steps<L>,
)
    requires sound { IsGraphSound E.meaning tables.now.graph.now (held tables.now.literals.now) tables.now.layout.now }
    requires lone { AreLoneNodes E.meaning tables.now.graph.now tables.now.lone.now }
    requires sized { length region.old ≡ laid_size tables.now.layout.now }
    requires before { IsBetweenChunks E.meaning tables.now.graph.now scratch.old.at region.old cache.old scratch.old }
    requires rows { scratch.old.rows.count ≡ length (held tables.now.literals.now) }
    requires none { HasNoHits scratch.old }
    requires few { length bytes.now ≤ 512 }
    requires small { scratch.old.at + length bytes.now ≤ 2 ^ 63 }
    ensures len { length region.new ≡ length region.old }
    ensures behind { IsBetweenChunks E.meaning tables.now.graph.now scratch.new.at region.new cache.new scratch.new }
    ensures outside { (i : ℕ) → IsOutside tables.now.graph.now.table.nodes.items i →
        slice_index region.new i ≡ slice_index region.old i }
    ensures keeps { KeepsAll scratch.old scratch.new }
    ensures none { HasNoHits scratch.new }
    ensures at { scratch.new.at ≡ scratch.old.at + length bytes.now }
    ensures ticks { steps.new ≤
        steps.old + 16 * (length tables.now.graph.now.table.nodes.items * (length bytes.now + 1)) }
    ensures early { KeepsEarly scratch.old.at scratch.new.at scratch.old.past scratch.new.past }
    ensures scans { Takes V.tells events.old events.new (Scans E.meaning tables.now.graph.now
        (held tables.now.literals.now) (stand_of scratch.old region.old) (stand_of scratch.new region.new) bytes.now) }
{
    let are_over = tables.are_over(scratch.at, &scratch.course.marks);
    find_hits(tables.sought(are_over), scratch, bytes);
    let past = scratch.past;
    let chunk = Chunk {
        bytes,
        past: &past,
        prev: prev_of(scratch.at, &past),
        at: scratch.at,
    };
    run_chunk(
        tables, region, cache, scratch, are_over, &chunk, events, steps,
    );
    forget(scratch);
    push_past(&mut scratch.past, bytes);
    scratch.at += bytes.len() as u64;
}

/// Takes bytes, 512 at a time.
pub(crate) fn scan_bytes<E: BlockEngine + TimelessEngine, V: Events, L: Ledger>(
    tables: &Tables<E>,
    region: &mut [u8],
    cache: &mut NodeCache,
    scratch: &mut Scratch,
    bytes: &[u8],
    events: &mut V,
    steps: &mut Steps<L>,
)
    requires sound { IsGraphSound E.meaning tables.now.graph.now (held tables.now.literals.now) tables.now.layout.now }
    requires lone { AreLoneNodes E.meaning tables.now.graph.now tables.now.lone.now }
    requires sized { length region.old ≡ laid_size tables.now.layout.now }
    requires before { IsBetweenChunks E.meaning tables.now.graph.now scratch.old.at region.old cache.old scratch.old }
    requires rows { scratch.old.rows.count ≡ length (held tables.now.literals.now) }
    requires none { HasNoHits scratch.old }
    requires small { scratch.old.at + length bytes.now ≤ 2 ^ 63 }
    ensures len { length region.new ≡ length region.old }
    ensures behind { IsBetweenChunks E.meaning tables.now.graph.now scratch.new.at region.new cache.new scratch.new }
    ensures outside { (i : ℕ) → IsOutside tables.now.graph.now.table.nodes.items i →
        slice_index region.new i ≡ slice_index region.old i }
    ensures keeps { KeepsAll scratch.old scratch.new }
    ensures none { HasNoHits scratch.new }
    ensures at { scratch.new.at ≡ scratch.old.at + length bytes.now }
    ensures ticks { steps.new ≤ steps.old + 32 * (length tables.now.graph.now.table.nodes.items * length bytes.now) }
    ensures early { KeepsEarly scratch.old.at scratch.new.at scratch.old.past scratch.new.past }
    ensures scans { Takes V.tells events.old events.new (Scans E.meaning tables.now.graph.now
        (held tables.now.literals.now) (stand_of scratch.old region.old) (stand_of scratch.new region.new) bytes.now) }
{
    let mut from = 0;
    while from < bytes.len() {
        let end = (from + MAX_CHUNK).min(bytes.len());
        scan_chunk(
            tables,
            region,
            cache,
            scratch,
            &bytes[from..end],
            events,
            steps,
        );
        from = end;
    }
}
