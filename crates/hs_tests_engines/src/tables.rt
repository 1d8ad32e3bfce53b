//! No end of a literal is masked out by the tables of a list. It is `#[cfg(test)]`.
use hs_base::LitByte;
use hs_fdr::{BLOCK_LEN, PLACES, Tables, scan_block};
use hs_fdr_build::build;
use std::alloc::{AllocError, Global};

/// A literal of a text's bytes, its small letters in both cases or not.
fn literal(alloc: Global, text: &[u8], both_cases: bool) -> Result<Vec<LitByte>, AllocError> {
    let mut places = Vec::new(alloc);
    for byte in text {
        let place = if both_cases && byte.is_ascii_lowercase() {
            LitByte::letter(*byte)
        } else {
            LitByte::one(*byte)
        };
        places.push(place)?;
    }
    Ok(places)
}

/// The count of a row, and its literals, which stand between commas; with an `i` behind the count in both cases.
fn read_row(alloc: Global, row: &str) -> Result<(u32, Vec<Vec<LitByte>>), AllocError> {
    let (head, texts) = row.split_once(' ').unwrap_or((row, ""));
    let mut list = Vec::new(alloc);
    for text in texts.split(',') {
        if !text.is_empty() {
            list.push(literal(alloc, text.as_bytes(), head.ends_with('i'))?)?;
        }
    }
    let count = head.trim_end_matches('i').parse::<u32>().unwrap_or(0);
    Ok((count, list))
}

/// The masks of a text, block by block.
fn scanned(alloc: Global, tables: &Tables, text: &[u8]) -> Result<Vec<u8>, AllocError> {
    let mut masks = Vec::new(alloc);
    for number in 0..text.len().div_ceil(BLOCK_LEN) {
        let start = number * BLOCK_LEN;
        let end = text.len().min(start + BLOCK_LEN);
        let before = &text[start - start.min(7)..start];
        let block = &text[start..end];
        let mut out = [0; BLOCK_LEN];
        scan_block(tables, before, block, text.get(end).copied(), &mut out);
        for mask in out.iter().take(block.len()) {
            masks.push(*mask)?;
        }
    }
    Ok(masks)
}

/// Whether the literal ends at that place of the text, behind its last byte.
fn ends_at(literal: &[LitByte], text: &[u8], offset: usize) -> bool {
    let front = text
        .get(offset.wrapping_sub(literal.len())..offset)
        .unwrap_or(b"");
    let mut pairs = front.iter().zip(literal.iter());
    front.len() == literal.len() && pairs.all(|(byte, place)| place.contains(*byte))
}

/// How many ends the literals have in the text, and at how many of them the mask has a 1 for the literal's bucket.
fn ends_and_missed(
    alloc: Global,
    list: &[Vec<LitByte>],
    text: &[u8],
) -> Result<(u32, u32), AllocError> {
    let (tables, buckets) = build(alloc, list)?;
    let masks = scanned(alloc, &tables, text)?;
    let mut ends = 0u32;
    let mut missed = 0u32;
    for (literal, bucket) in list.iter().zip(buckets.iter()) {
        for (place, mask) in masks.iter().enumerate() {
            if ends_at(literal.as_slice(), text, place.wrapping_add(1)) {
                ends = ends.wrapping_add(1);
                missed = missed.wrapping_add(u32::from((*mask >> (*bucket % 8)) & 1));
            }
        }
    }
    Ok((ends, missed))
}

/// How many ends they have in a text, and literals.
const ENDS: &str = "0 |3 to|9 to,to,to|13 he,the, the,in the|2i wh,qu|\
2 slings and arrows of outrageous ,s of outrageous fortune|\
12i whether,not,mind,suffer,slings,arrows,outrageous,fortune,be,or";

#[test]
fn misses_no_end(rt: HostRuntime) -> Result<(), AllocError> {
    let text = b"to be or not to be, that is the question: Whether 'tis nobler in the mind to \
        suffer the slings and arrows of outrageous fortune";
    for row in ENDS.split('|') {
        let (ends, list) = read_row(rt.alloc(), row)?;
        let found = ends_and_missed(rt.alloc(), list.as_slice(), text.as_slice())?;
        assert!(rt; found == (ends, 0), "{row}");
    }
    Ok(())
}

/// A row of words of four to eleven letters that follow no pattern.
fn words(alloc: Global, count: u32) -> Result<String, AllocError> {
    let mut text = String::from_str(alloc, "600 ")?;
    let mut state = 1u32;
    for _ in 0..count {
        let length = 4 + (state >> 16) % 8;
        for _ in 0..length {
            state = state.wrapping_mul(1_664_525).wrapping_add(1_013_904_223);
            text.push(char::from(b'a' + ((state >> 24) % 26) as u8))?;
        }
        text.push(',')?;
    }
    Ok(text)
}

#[test]
fn misses_no_end_of_many(rt: HostRuntime) -> Result<(), AllocError> {
    let text = words(rt.alloc(), 600)?;
    let (least, list) = read_row(rt.alloc(), text.as_str())?;
    let (ends, missed) = ends_and_missed(rt.alloc(), list.as_slice(), text.as_bytes())?;
    assert!(rt; ends >= least && missed == 0);
    Ok(())
}

/// How many bits of the masks are 0.
fn zeros(tables: &Tables) -> u32 {
    let mut count = 0u32;
    if tables.width() == 9 {
        for j in 0..PLACES {
            for v in 0..512 {
                count = count.wrapping_add(tables.mask(j, v).count_zeros());
            }
        }
    }
    count
}

/// How many bits are 0, and literals. At the last byte both further bits, at the one before it one of them, and at the
/// six places of 512 masks before those of `ab` none counts.
const ZEROS: &str = "0 |3075 ab|3078i ab|9 abcdefghi";

#[test]
fn makes_no_other_bit_zero(rt: HostRuntime) -> Result<(), AllocError> {
    for row in ZEROS.split('|') {
        let (count, list) = read_row(rt.alloc(), row)?;
        let (tables, _buckets) = build(rt.alloc(), list.as_slice())?;
        assert!(rt; zeros(&tables) == count, "{row}");
    }
    Ok(())
}

/// The literals of two bytes, by number.
fn all_pairs(alloc: Global) -> Result<Vec<Vec<LitByte>>, AllocError> {
    let mut list = Vec::new(alloc);
    for number in 0..=u16::MAX {
        list.push(literal(alloc, &number.to_be_bytes(), false)?)?;
    }
    Ok(list)
}

/// Whether the mask of the second byte of each pair in the text leaves the pair's bucket open.
fn leaves_each_open(buckets: &[u8], text: &[u8], masks: &[u8]) -> bool {
    let pairs = text.iter().zip(text.iter().skip(1));
    for ((first, second), mask) in pairs.zip(masks.iter().skip(1)) {
        let number = u16::from_be_bytes([*first, *second]);
        let bucket = buckets.get(usize::from(number)).copied().unwrap_or(0);
        if (*mask >> (bucket % 8)) & 1 == 1 {
            return false;
        }
    }
    true
}

#[test]
fn misses_no_pair_of_bytes(rt: HostRuntime) -> Result<(), AllocError> {
    let (tables, buckets) = build(rt.alloc(), &all_pairs(rt.alloc())?)?;
    let text = b"any two bytes are one of the literals";
    let masks = scanned(rt.alloc(), &tables, text)?;
    assert!(rt; leaves_each_open(&buckets, text, &masks));
    Ok(())
}
