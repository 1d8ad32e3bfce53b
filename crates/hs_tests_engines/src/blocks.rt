//! The masks of blocks by lanes, beside the plain loop. It is `#[cfg(test)]`.
ghost use Rattle.std.specs.Prelude.{◌≡◌, ◌≤◌, ◌*◌, ◌^◌, IfOk, vec_len};

use hs_fdr::{PLACES, Tables, plain_block, scan_block};
use std::alloc::{AllocError, Global};

/// As many masks as tables of that width have, all the same.
fn all_masks(alloc: Global, width: u8, mask: u8) -> Result<Vec<u8>, AllocError>
    requires { width ≤ 15 }
    ensures { IfOk result (λ masks. vec_len masks ≡ 8 * 2 ^ width) }
{
    vec![in alloc; mask; PLACES << width]
}

/// Tables whose masks follow no pattern.
fn mixed_tables(alloc: Global, width: u8) -> Result<Tables, AllocError>
    requires { (9 ≤ width) × (width ≤ 15) }
{
    let mut masks = all_masks(alloc, width, 0)?;
    let mut state = 1u32;
    for mask in masks.iter_mut() {
        state = state.wrapping_mul(1_664_525).wrapping_add(1_013_904_223);
        *mask = (state >> 24) as u8;
    }
    Tables::from_masks(alloc, width, masks.as_slice())
}

/// A text that follows no pattern.
fn mixed_text() -> [u8; 71] {
    let mut text = [0; 71];
    let mut state = 7u32;
    for byte in text.iter_mut() {
        state = state.wrapping_mul(1_664_525).wrapping_add(1_013_904_223);
        *byte = (state >> 24) as u8;
    }
    text
}

/// The masks of a block by lanes, with at most seven bytes before it.
fn by_lanes(tables: &Tables, before: &[u8], block: &[u8], next: Option<u8>) -> [u8; 64] {
    let mut out = [0; 64];
    if before.len() <= 7 && block.len() <= 64 {
        scan_block(tables, before, block, next, &mut out);
    }
    out
}

/// The same by the plain program.
fn by_loop(tables: &Tables, before: &[u8], block: &[u8], next: Option<u8>) -> [u8; 64] {
    let mut out = [1; 64];
    if before.len() <= 7 && block.len() <= 64 {
        plain_block(tables, before, block, next, &mut out);
    }
    out
}

/// Whether the lanes and the plain program make the same of a block, whatever stands behind it.
fn agrees(tables: &Tables, before: &[u8], block: &[u8]) -> bool {
    for next in [None, Some(0), Some(1), Some(255)] {
        if by_lanes(tables, before, block, next) != by_loop(tables, before, block, next) {
            return false;
        }
    }
    true
}

/// Whether they make the same of blocks of many lengths, with so many bytes of the text before them.
fn agrees_behind(tables: &Tables, text: &[u8; 71], before: usize) -> bool {
    for length in [0, 1, 7, 8, 9, 15, 16, 17, 56, 57, 63, 64] {
        if !agrees(tables, &text[7 - before.min(7)..7], &text[7..7 + length]) {
            return false;
        }
    }
    true
}

#[test]
fn lanes_agree_with_the_plain_program(rt: HostRuntime) -> Result<(), AllocError> {
    let text = mixed_text();
    for width in [9, 12, 15] {
        let tables = mixed_tables(rt.alloc(), width)?;
        for before in 0..8 {
            let holds = agrees_behind(&tables, &text, before);
            assert!(rt; holds, "width {width}, {before} before");
        }
    }
    Ok(())
}

/// Tables of width 9 for the literal `ab` in bucket 0, and in bucket 1 for `b` before a byte that is odd.
fn tables_of_ab(alloc: Global) -> Result<Tables, AllocError> {
    let mut masks = all_masks(alloc, 9, 0xFC)?;
    let rows = masks.as_mut_slice();
    for v in 0..1024 {
        rows[v] = 0xFF;
    }
    for v in 1024..4096 {
        rows[v] = 0xFC;
    }
    rows[98] = 0xFE;
    rows[256 + 98] = 0xFC;
    for v in 512..1024 {
        rows[v] = 0xFD;
    }
    rows[512 + 97] = 0xFC;
    Tables::from_masks(alloc, 9, masks.as_slice())
}

/// The bytes before a block, the block, the byte behind it, if there is one, and the first masks; the others are 255.
type Row = (&'static [u8], &'static [u8], Option<u8>, &'static [u8]);

const ROWS: [Row; 9] = [
    (b"", b"", None, b""),
    (b"", b"xab", None, b"\xFF\xFF\xFE"),
    (b"", b"b", None, b"\xFE"),
    (b"x", b"b", None, b"\xFF"),
    (b"a", b"b", None, b"\xFE"),
    (b"xxxxxxa", b"bx", None, b"\xFE\xFF"),
    (b"a", b"b", Some(1), b"\xFC"),
    (b"a", b"b", Some(2), b"\xFE"),
    (b"", b"aba", Some(1), b"\xFF\xFC\xFF"),
];

/// Whether the masks of a row are as they are to be.
fn is_so(tables: &Tables, row: Row) -> bool {
    let (before, block, next, masks) = row;
    let mut wanted = [0xFF; 64];
    for (slot, mask) in wanted.iter_mut().zip(masks.iter()) {
        *slot = *mask;
    }
    by_lanes(tables, before, block, next) == wanted
}

/// The first row that isn't so.
fn first_wrong(tables: &Tables) -> Option<Row> {
    for row in ROWS {
        if !is_so(tables, row) {
            return Some(row);
        }
    }
    None
}

/// Whether the tables have their width, and masks at some places.
fn have_masks(tables: &Tables) -> bool {
    tables.width() == 9
        && tables.mask(0, 98) == 0xFE
        && tables.mask(1, 97) == 0xFC
        && tables.mask(1, 98) == 0xFD
        && tables.mask(7, 0) == 0xFC
}

#[test]
fn marks_the_last_byte_of_a_literal(rt: HostRuntime) -> Result<(), AllocError> {
    let tables = tables_of_ab(rt.alloc())?;
    assert!(rt; have_masks(&tables));
    assert_eq!(rt; first_wrong(&tables), None);
    Ok(())
}
