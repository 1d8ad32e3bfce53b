//! Which bytes may be a region of a repeat, and which bytes wake it. It is `#[cfg(test)]`.

use crate::spans::is_at_rest;
use crate::verdicts::{Verdict, ensure};
use hs_base::ByteSet;
use hs_engine::Engine;
use hs_repeat::{First, Last, Ring};

/// Two bytes at an offset: whether they are at rest, and whether they may be a region there.
type Row = ([u8; 2], u64, bool, bool);

/// Of at least 300 copies.
const FIRST: [Row; 5] = [
    ([0, 0], 0, true, true),
    ([0, 1], 300, false, true),
    ([44, 1], 300, false, true),
    ([44, 1], 299, false, false),
    ([45, 1], 400, false, false),
];

/// Of 5 to 12 copies.
const RING: [Row; 4] = [
    ([0, 0], 0, true, true),
    ([0, 8], 12, false, true),
    ([0, 8], 11, false, false),
    ([0, 16], 99, false, false),
];

/// Of at most 40 copies.
const LAST: [Row; 3] = [
    ([40, 0], 40, false, true),
    ([41, 0], 50, false, false),
    ([2, 0], 1, false, false),
];

/// Whether the bytes may be a region of the engine at that offset, if they are of its length.
fn is_region<E: Engine>(engine: &E, bytes: &[u8], at: u64) -> Option<bool> {
    if bytes.len() == engine.size() {
        Some(engine.well_formed(bytes, at))
    } else {
        None
    }
}

/// Compares what the engine says of each row.
fn judge_rows<E: Engine>(engine: &E, rows: &[Row]) -> Verdict {
    for (bytes, at, rests, fits) in rows {
        let found = (is_at_rest(engine, bytes), is_region(engine, bytes, *at));
        let what = format_args!("{found:?} of {bytes:?} at {at}");
        ensure(found == (Some(*rests), Some(*fits)), what)?;
    }
    Ok(())
}

/// Fails where another byte than `a` wakes the engine, of `a` and `b`.
fn judge_wakers<E: Engine>(engine: &E) -> Verdict {
    let wakers = engine.wakers();
    let is_a_alone = wakers.contains(b'a') && !wakers.contains(b'b');
    ensure(is_a_alone, "another waker")
}

/// Judges the engines of repeats of `a`.
pub(crate) fn judge_regions() -> Verdict {
    let set = ByteSet::of(b'a');
    let first = First::new(set, 300);
    judge_rows(&first, &FIRST)?;
    judge_wakers(&first)?;
    let ring = Ring::new(set, 5, 12);
    judge_rows(&ring, &RING)?;
    judge_wakers(&ring)?;
    judge_rows(&Last::new(set, 40), &LAST)
}
