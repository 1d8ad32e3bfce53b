//! Every end of many literals, beside the plain program. It is `#[cfg(test)]`.
use crate::lists::literals_of;
use hs_base::LitByte;
use hs_confirm::plain_ends;
use hs_literals::{LitScan, Literals};
use std::alloc::{AllocError, Global};
use std::process::Abort;

/// All ends, one place after the other.
fn plain_scan(
    alloc: Global,
    literals: &[Vec<LitByte>],
    history: &[u8],
    bytes: &[u8],
) -> Result<Vec<(usize, usize)>, AllocError> {
    let buckets = vec![in alloc; 0u8; literals.len()]?;
    let mut ends = Vec::new(alloc);
    for at in 1..bytes.len().saturating_add(1) {
        if at <= bytes.len() {
            let numbers = plain_ends(alloc, literals, buckets.as_slice(), 0, history, bytes, at)?;
            for number in &numbers {
                ends.push((at, *number))?;
            }
        }
    }
    Ok(ends)
}

/// A text over a few letters that follows no pattern.
fn mixed_text(alloc: Global, len: usize, letters: u8) -> Result<Vec<u8>, AllocError> {
    let mut text = Vec::new(alloc);
    let mut state = 7u32;
    for _ in 0..len {
        state = state.wrapping_mul(1_664_525).wrapping_add(1_013_904_223);
        text.push(b'a' + (state >> 24) as u8 % letters.max(1) % 26)?;
    }
    Ok(text)
}

/// All ends that are told.
fn told(
    alloc: Global,
    built: &Literals,
    history: &[u8],
    bytes: &[u8],
) -> Result<Vec<(usize, usize)>, AllocError> {
    LitScan::new(built, history, bytes).collect(alloc)
}

/// Lists of literals: none, one, all equal, each the end of another, of two bytes and of thirty-two, with both cases.
const LISTS: &[u8] = b"|ab,|ba,ba,ba,ba,|\
    a,ba,aba,baba,ababa,bababa,abababa,babababa,ababababa,bababababa,|aa,ab,ac,ba,bb,bc,ca,cb,cc,|\
    abcabcabcabcabcabcabcabcabcabcabca,bcabcabcabcabcabcabcabcabcabcabcab,|~aB,~a~b,Ab,AB,~cab,~c~a~b,";

/// Whether what is told of the text, cut there, is what the plain program tells.
fn agrees_at(
    alloc: Global,
    built: &Literals,
    literals: &[Vec<LitByte>],
    text: &[u8],
    cut: usize,
) -> Result<bool, AllocError> {
    let (history, bytes) = text.split_at(cut.min(text.len()));
    let found = told(alloc, built, history, bytes)?;
    Ok(found == plain_scan(alloc, literals, history, bytes)?)
}

/// Whether it is that at each of some cuts.
fn agrees(alloc: Global, literals: &[Vec<LitByte>], text: &[u8]) -> Result<bool, AllocError> {
    let built = Literals::build(alloc, literals)?;
    for cut in [0, 1, 7, 8, 64, 150] {
        if !agrees_at(alloc, &built, literals, text, cut)? {
            return Ok(false);
        }
    }
    Ok(true)
}

/// Whether it is that of the literals of a list.
fn agrees_on(alloc: Global, list: &[u8], text: &[u8]) -> Result<bool, AllocError> {
    let literals = literals_of(alloc, list)?;
    agrees(alloc, &literals, text)
}

/// Asserts that of a text over so many letters each list tells what the plain program tells.
fn check_letters(rt: &impl Abort, alloc: Global, letters: u8) -> Result<(), AllocError> {
    let text = mixed_text(alloc, 150, letters)?;
    for list in LISTS.split(|byte| *byte == b'|') {
        assert!(rt; agrees_on(alloc, list, &text)?, "{list:?}");
    }
    Ok(())
}

#[test]
fn agrees_with_the_plain_program(rt: HostRuntime) -> Result<(), AllocError> {
    check_letters(&rt, rt.alloc(), 2)?;
    check_letters(&rt, rt.alloc(), 3)
}

/// A text of 75 bytes, with `abc` at that place.
fn text_with_abc(alloc: Global, at: usize) -> Result<Vec<u8>, AllocError> {
    let mut bytes = vec![in alloc; b'-'; 75]?;
    for (slot, byte) in bytes.iter_mut().skip(at).zip(b"abc".iter()) {
        *slot = *byte;
    }
    Ok(bytes)
}

#[test]
fn tells_ends_over_block_edges(rt: HostRuntime) -> Result<(), AllocError> {
    let literals = literals_of(rt.alloc(), b"abc,bc,")?;
    let built = Literals::build(rt.alloc(), literals.as_slice())?;
    for at in 0..70 {
        let bytes = text_with_abc(rt.alloc(), at)?;
        let found = told(rt.alloc(), &built, b"a", bytes.as_slice())?;
        let wanted = [(at + 3, 0), (at + 3, 1)];
        assert!(rt; found.as_slice() == wanted.as_slice(), "at {at}");
    }
    Ok(())
}

#[test]
fn an_end_in_the_history_is_not_told(rt: HostRuntime) -> Result<(), AllocError> {
    let literals = literals_of(rt.alloc(), b"abc,")?;
    let built = Literals::build(rt.alloc(), literals.as_slice())?;
    assert!(rt; LitScan::new(&built, b"abc", b"").next() == None);
    assert!(rt; LitScan::new(&built, b"abc", b"bc").next() == None);
    assert!(rt; LitScan::new(&built, b"xab", b"c").next() == Some((1, 0)));
    Ok(())
}
