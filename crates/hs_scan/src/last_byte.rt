//! The bytes of a write, and what its last one leaves to the end.

ghost use Rattle.std.specs.Prelude.{◌≡◌, ◌+◌, ◌-◌, ◌*◌, ◌<◌, ◌≤◌, ◌^◌, ℕ, [], ◌∷◌, length, slice_index};
ghost use Rattle.hs_base.specs.declared.context.Next.TheVariants as after;
ghost use Rattle.hs_base.specs.Assertions.{line_feed};
ghost use Rattle.hs_layout.specs.Layouts.{laid_size};
ghost use Rattle.hs_literals.specs.Held.{held};
ghost use Rattle.hs_nodes.specs.Graphs.{IsGraphSound};
ghost use Rattle.hs_nodes.specs.Lone.{AreLoneNodes};
ghost use Rattle.hs_nodes.specs.Walks.{IsOutside};
ghost use Rattle.hs_reports.specs.EndTables.{HasNoEnds};
ghost use Rattle.hs_reports.specs.Events.{Takes};
ghost use Rattle.hs_scan.specs.Asking.{AsksEnds};
ghost use Rattle.hs_scan.specs.Past.{KeepsEarly};
ghost use Rattle.hs_scan.specs.Scans.{Scans};
ghost use Rattle.hs_scan.specs.Scratches.{IsBetweenChunks, HasNoHits, stand_of};
ghost use Rattle.hs_scan.specs.Writing.{LeavesToEnd};

use crate::asking::ask_ends;
use crate::line_feed::{LINE_FEED, run_line_feed};
use crate::node_cache::NodeCache;
use crate::past::{prev_of, push_past};
use crate::scanning::scan_bytes;
use crate::scratch::{Scratch, find_hits, forget};
use crate::tables::Tables;
use hs_base::Next;
use hs_block::BlockEngine;
use hs_engine::{Steps, TimelessEngine};
use hs_keeping::{forget_finals, leave_none};
use hs_nodes::Chunk;
use hs_reports::Events;
use std::sync::ledger::Ledger;

/// Takes a line feed of which is asked what would end before it, and writes which identifiers it leaves to the end.
fn scan_asked<E: BlockEngine + TimelessEngine, V: Events, L: Ledger>(
    tables: &Tables<E>,
    region: &mut [u8],
    cache: &mut NodeCache,
    scratch: &mut Scratch,
    events: &mut V,
    steps: &mut Steps<L>,
)
    requires sound { IsGraphSound E.meaning tables.now.graph.now (held tables.now.literals.now) tables.now.layout.now }
    requires lone { AreLoneNodes E.meaning tables.now.graph.now tables.now.lone.now }
    requires sized { length region.old ≡ laid_size tables.now.layout.now }
    requires before { IsBetweenChunks E.meaning tables.now.graph.now scratch.old.at region.old cache.old scratch.old }
    requires rows { scratch.old.rows.count ≡ length (held tables.now.literals.now) }
    requires none { HasNoHits scratch.old }
    requires small { scratch.old.at < 2 ^ 63 }
    requires asks { AsksEnds E.meaning tables.now.graph.now (held tables.now.literals.now) scratch.old.at
        scratch.old.past region.old after.FinalNewline scratch.old.finals }
    ensures len { length region.new ≡ length region.old }
    ensures behind { IsBetweenChunks E.meaning tables.now.graph.now scratch.new.at region.new cache.new scratch.new }
    ensures outside { (i : ℕ) → IsOutside tables.now.graph.now.table.nodes.items i →
        slice_index region.new i ≡ slice_index region.old i }
    ensures rows { scratch.new.rows.count ≡ scratch.old.rows.count }
    ensures none { HasNoHits scratch.new }
    ensures at { scratch.new.at ≡ scratch.old.at + 1 }
    ensures ticks { steps.new ≤ steps.old + 32 * length tables.now.graph.now.table.nodes.items }
    ensures early { KeepsEarly scratch.old.at scratch.new.at scratch.old.past scratch.new.past }
    ensures scans { Takes V.tells events.old events.new (Scans E.meaning tables.now.graph.now
        (held tables.now.literals.now) (stand_of scratch.old region.old) (stand_of scratch.new region.new)
        (line_feed ∷ [])) }
    ensures left { LeavesToEnd E.meaning tables.now.graph.now (held tables.now.literals.now)
        (stand_of scratch.old region.old) (line_feed ∷ []) scratch.new.last.items }
{
    let _ = tables.layout.fields();
    find_hits(tables.literals, scratch, &LINE_FEED);
    let past = scratch.past;
    let chunk = Chunk {
        bytes: &LINE_FEED,
        past: &past,
        prev: prev_of(scratch.at, &past),
        at: scratch.at,
    };
    run_line_feed(
        tables.graph,
        region,
        cache,
        scratch,
        tables.lone,
        &chunk,
        events,
        steps,
    );
    forget(scratch);
    push_past(&mut scratch.past, &LINE_FEED);
    scratch.at += 1;
}

/// Takes a line feed, and writes which identifiers it leaves to the end.
fn scan_line_feed<E: BlockEngine + TimelessEngine, V: Events, L: Ledger>(
    tables: &Tables<E>,
    region: &mut [u8],
    cache: &mut NodeCache,
    scratch: &mut Scratch,
    events: &mut V,
    steps: &mut Steps<L>,
)
    requires sound { IsGraphSound E.meaning tables.now.graph.now (held tables.now.literals.now) tables.now.layout.now }
    requires lone { AreLoneNodes E.meaning tables.now.graph.now tables.now.lone.now }
    requires sized { length region.old ≡ laid_size tables.now.layout.now }
    requires before { IsBetweenChunks E.meaning tables.now.graph.now scratch.old.at region.old cache.old scratch.old }
    requires rows { scratch.old.rows.count ≡ length (held tables.now.literals.now) }
    requires none { HasNoHits scratch.old }
    requires no_finals { HasNoEnds scratch.old.finals }
    requires small { scratch.old.at < 2 ^ 63 }
    ensures len { length region.new ≡ length region.old }
    ensures behind { IsBetweenChunks E.meaning tables.now.graph.now scratch.new.at region.new cache.new scratch.new }
    ensures outside { (i : ℕ) → IsOutside tables.now.graph.now.table.nodes.items i →
        slice_index region.new i ≡ slice_index region.old i }
    ensures rows { scratch.new.rows.count ≡ scratch.old.rows.count }
    ensures none { HasNoHits scratch.new }
    ensures no_finals { HasNoEnds scratch.new.finals }
    ensures at { scratch.new.at ≡ scratch.old.at + 1 }
    ensures ticks { steps.new ≤ steps.old + 48 * length tables.now.graph.now.table.nodes.items }
    ensures early { KeepsEarly scratch.old.at scratch.new.at scratch.old.past scratch.new.past }
    ensures scans { Takes V.tells events.old events.new (Scans E.meaning tables.now.graph.now
        (held tables.now.literals.now) (stand_of scratch.old region.old) (stand_of scratch.new region.new)
        (line_feed ∷ [])) }
    ensures left { LeavesToEnd E.meaning tables.now.graph.now (held tables.now.literals.now)
        (stand_of scratch.old region.old) (line_feed ∷ []) scratch.new.last.items }
{
    ask_ends(tables, region, scratch, Next::FinalNewline, steps);
    scan_asked(tables, region, cache, scratch, events, steps);
    forget_finals(&mut scratch.finals);
}

/// Takes bytes up to a line feed, which is the last one.
fn scan_to_line_feed<E: BlockEngine + TimelessEngine, V: Events, L: Ledger>(
    tables: &Tables<E>,
    region: &mut [u8],
    cache: &mut NodeCache,
    scratch: &mut Scratch,
    bytes: &[u8],
    events: &mut V,
    steps: &mut Steps<L>,
)
    requires sound { IsGraphSound E.meaning tables.now.graph.now (held tables.now.literals.now) tables.now.layout.now }
    requires lone { AreLoneNodes E.meaning tables.now.graph.now tables.now.lone.now }
    requires sized { length region.old ≡ laid_size tables.now.layout.now }
    requires before { IsBetweenChunks E.meaning tables.now.graph.now scratch.old.at region.old cache.old scratch.old }
    requires rows { scratch.old.rows.count ≡ length (held tables.now.literals.now) }
    requires none { HasNoHits scratch.old }
    requires no_finals { HasNoEnds scratch.old.finals }
    requires some { 0 < length bytes.now }
    requires ends { slice_index bytes.now (length bytes.now - 1) ≡ line_feed }
    requires small { scratch.old.at + length bytes.now ≤ 2 ^ 63 }
    ensures len { length region.new ≡ length region.old }
    ensures behind { IsBetweenChunks E.meaning tables.now.graph.now scratch.new.at region.new cache.new scratch.new }
    ensures outside { (i : ℕ) → IsOutside tables.now.graph.now.table.nodes.items i →
        slice_index region.new i ≡ slice_index region.old i }
    ensures rows { scratch.new.rows.count ≡ scratch.old.rows.count }
    ensures none { HasNoHits scratch.new }
    ensures no_finals { HasNoEnds scratch.new.finals }
    ensures at { scratch.new.at ≡ scratch.old.at + length bytes.now }
    ensures ticks { steps.new ≤ steps.old + 48 * (length tables.now.graph.now.table.nodes.items * length bytes.now) }
    ensures early { KeepsEarly scratch.old.at scratch.new.at scratch.old.past scratch.new.past }
    ensures scans { Takes V.tells events.old events.new (Scans E.meaning tables.now.graph.now
        (held tables.now.literals.now) (stand_of scratch.old region.old) (stand_of scratch.new region.new) bytes.now) }
    ensures left { LeavesToEnd E.meaning tables.now.graph.now (held tables.now.literals.now)
        (stand_of scratch.old region.old) bytes.now scratch.new.last.items }
{
    let last = bytes.len() - 1;
    scan_bytes(
        tables,
        region,
        cache,
        scratch,
        &bytes[..last],
        events,
        steps,
    );
    scan_line_feed(tables, region, cache, scratch, events, steps);
}

/// Takes bytes of which the last one is no line feed.
fn scan_to_other<E: BlockEngine + TimelessEngine, V: Events, L: Ledger>(
    tables: &Tables<E>,
    region: &mut [u8],
    cache: &mut NodeCache,
    scratch: &mut Scratch,
    bytes: &[u8],
    events: &mut V,
    steps: &mut Steps<L>,
)
    requires sound { IsGraphSound E.meaning tables.now.graph.now (held tables.now.literals.now) tables.now.layout.now }
    requires lone { AreLoneNodes E.meaning tables.now.graph.now tables.now.lone.now }
    requires sized { length region.old ≡ laid_size tables.now.layout.now }
    requires before { IsBetweenChunks E.meaning tables.now.graph.now scratch.old.at region.old cache.old scratch.old }
    requires rows { scratch.old.rows.count ≡ length (held tables.now.literals.now) }
    requires none { HasNoHits scratch.old }
    requires no_finals { HasNoEnds scratch.old.finals }
    requires some { 0 < length bytes.now }
    requires ends { slice_index bytes.now (length bytes.now - 1) ≡ line_feed → ⊥ }
    requires small { scratch.old.at + length bytes.now ≤ 2 ^ 63 }
    ensures len { length region.new ≡ length region.old }
    ensures behind { IsBetweenChunks E.meaning tables.now.graph.now scratch.new.at region.new cache.new scratch.new }
    ensures outside { (i : ℕ) → IsOutside tables.now.graph.now.table.nodes.items i →
        slice_index region.new i ≡ slice_index region.old i }
    ensures rows { scratch.new.rows.count ≡ scratch.old.rows.count }
    ensures none { HasNoHits scratch.new }
    ensures no_finals { HasNoEnds scratch.new.finals }
    ensures at { scratch.new.at ≡ scratch.old.at + length bytes.now }
    ensures ticks { steps.new ≤ steps.old + 48 * (length tables.now.graph.now.table.nodes.items * length bytes.now) }
    ensures early { KeepsEarly scratch.old.at scratch.new.at scratch.old.past scratch.new.past }
    ensures scans { Takes V.tells events.old events.new (Scans E.meaning tables.now.graph.now
        (held tables.now.literals.now) (stand_of scratch.old region.old) (stand_of scratch.new region.new) bytes.now) }
    ensures left { LeavesToEnd E.meaning tables.now.graph.now (held tables.now.literals.now)
        (stand_of scratch.old region.old) bytes.now scratch.new.last.items }
{
    scan_bytes(tables, region, cache, scratch, bytes, events, steps);
    leave_none(&mut scratch.last);
}

/// Takes the bytes of a write, of which there are some, and writes which identifiers the last one leaves to the end.
pub(crate) fn scan_write<E: BlockEngine + TimelessEngine, V: Events, L: Ledger>(
    tables: &Tables<E>,
    region: &mut [u8],
    cache: &mut NodeCache,
    scratch: &mut Scratch,
    bytes: &[u8],
    events: &mut V,
    steps: &mut Steps<L>,
)
    requires sound { IsGraphSound E.meaning tables.now.graph.now (held tables.now.literals.now) tables.now.layout.now }
    requires lone { AreLoneNodes E.meaning tables.now.graph.now tables.now.lone.now }
    requires sized { length region.old ≡ laid_size tables.now.layout.now }
    requires before { IsBetweenChunks E.meaning tables.now.graph.now scratch.old.at region.old cache.old scratch.old }
    requires rows { scratch.old.rows.count ≡ length (held tables.now.literals.now) }
    requires none { HasNoHits scratch.old }
    requires no_finals { HasNoEnds scratch.old.finals }
    requires some { 0 < length bytes.now }
    requires small { scratch.old.at + length bytes.now ≤ 2 ^ 63 }
    ensures len { length region.new ≡ length region.old }
    ensures behind { IsBetweenChunks E.meaning tables.now.graph.now scratch.new.at region.new cache.new scratch.new }
    ensures outside { (i : ℕ) → IsOutside tables.now.graph.now.table.nodes.items i →
        slice_index region.new i ≡ slice_index region.old i }
    ensures rows { scratch.new.rows.count ≡ scratch.old.rows.count }
    ensures none { HasNoHits scratch.new }
    ensures no_finals { HasNoEnds scratch.new.finals }
    ensures at { scratch.new.at ≡ scratch.old.at + length bytes.now }
    ensures ticks { steps.new ≤ steps.old + 48 * (length tables.now.graph.now.table.nodes.items * length bytes.now) }
    ensures early { KeepsEarly scratch.old.at scratch.new.at scratch.old.past scratch.new.past }
    ensures scans { Takes V.tells events.old events.new (Scans E.meaning tables.now.graph.now
        (held tables.now.literals.now) (stand_of scratch.old region.old) (stand_of scratch.new region.new) bytes.now) }
    ensures left { LeavesToEnd E.meaning tables.now.graph.now (held tables.now.literals.now)
        (stand_of scratch.old region.old) bytes.now scratch.new.last.items }
{
    let last = bytes.len() - 1;
    if bytes[last] == b'\n' {
        scan_to_line_feed(tables, region, cache, scratch, bytes, events, steps);
    } else {
        scan_to_other(tables, region, cache, scratch, bytes, events, steps);
    }
}
