//! Which literals of a bucket end at a place, beside the plain program. It is `#[cfg(test)]`.
use crate::lists::literals_of;
use hs_base::LitByte;
use hs_confirm::{Confirm, plain_ends};
use std::alloc::{AllocError, Global};

/// The numbers that are told of literals in the first bucket, at the end of the bytes.
fn told(
    alloc: Global,
    list: &[u8],
    history: &[u8],
    bytes: &[u8],
) -> Result<Vec<usize>, AllocError> {
    let literals = literals_of(alloc, list)?;
    let buckets = vec![in alloc; 0u8; literals.len()]?;
    let confirm = Confirm::build(alloc, literals.as_slice(), buckets.as_slice())?;
    confirm
        .ends_at(0, history, bytes, bytes.len())
        .collect(alloc)
}

/// Whether the numbers, which are below 10, are these digits.
fn are_digits(numbers: &[usize], digits: &[u8]) -> bool {
    let mut same = numbers.len() == digits.len();
    for (number, digit) in numbers.iter().zip(digits.iter()) {
        same &= *number == usize::from(digit.wrapping_sub(b'0'));
    }
    same
}

/// Literals, what stands before, the bytes, and which numbers end behind the last byte.
const ROWS: &[u8] = b";ab;cd;\n\
ab,;;;\n\
ab,;;ab;0\n\
ab,;a;b;0\n\
ab,;ab;;0\n\
abc,;;bc;\n\
abc,;b;c;\n\
ab,ab,ab,;;xab;012\n\
abcd,bcd,cd,xcd,;ab;cd;012\n\
cd,bcd,abcd,;abc;d;012\n\
~a~b,AB,ab,Ab,~ab,;;AB;01\n\
~a~b,AB,ab,Ab,~ab,;;Ab;034\n\
@@,``,@`,;;@`;2\n\
[{,{{,[[,;;{{;1\n\
~zz,;;Zz;0\n\
~k~k,;;\x0bk;\n\
00,\x10\x10,;;00;0\n\
xabcdefgh,yabcdefgh,abcdefgh,;;xabcdefgh;02\n\
xabcdefgh,yabcdefgh,abcdefgh,;y;abcdefgh;12\n\
xabcdefgh,yabcdefgh,;;abcdefgh;\n\
hi,ghi,fghi,efghi,defghi,cdefghi,bcdefghi,abcdefghi,;;abcdefghi;01234567\n\
hi,ghi,fghi,efghi,defghi,cdefghi,bcdefghi,abcdefghi,;xc;defghi;012345\n\
hi,ghi,fghi,efghi,defghi,cdefghi,bcdefghi,abcdefghi,;abcdefghi;;01234567\n\
hi,ghi,fghi,efghi,defghi,cdefghi,bcdefghi,abcdefghi,;;ghi;01\n\
~a~b~c~d~e~f~g~h~i,;;ABCDEFGHI;0\n\
~a~b~c~d~e~f~g~h~i,;Ab;CdEfGhI;0";

/// Whether a row is so.
fn is_so(alloc: Global, row: &[u8]) -> Result<bool, AllocError> {
    let mut fields = row.split(|byte| *byte == b';');
    let list = fields.next().unwrap_or(b"");
    let history = fields.next().unwrap_or(b"");
    let bytes = fields.next().unwrap_or(b"");
    let wanted = fields.next().unwrap_or(b"?");
    let found = told(alloc, list, history, bytes)?;
    Ok(are_digits(&found, wanted))
}

#[test]
fn tells_the_literals_that_end(rt: HostRuntime) -> Result<(), AllocError> {
    for row in ROWS.split(|byte| *byte == b'\n') {
        assert!(rt; is_so(rt.alloc(), row)?, "{row:?}");
    }
    Ok(())
}

const LIST: &[u8] = b"aa,ab,ba,aaa,aba,~a~a,~ab,bab,abab,babab,\
    abbaabba,abaabaabaabaabaabaabaabaabaabaab,baabaaba,abaabaaba,aabaabaaba,";

const FILED: [u8; 15] = [3, 1, 4, 1, 5, 2, 2, 5, 3, 5, 0, 7, 6, 6, 6];

const TEXT: &[u8] = b"abaabaabaabaabaabaabaabaabaabaababbaabbAABbaBABABaAb";

/// Whether the plain program tells the same of that bucket at that place.
fn agrees_at(
    alloc: Global,
    confirm: &Confirm,
    literals: &[Vec<LitByte>],
    bucket: u8,
    cut: usize,
    at: usize,
) -> Result<bool, AllocError> {
    let (history, bytes) = TEXT.split_at(cut.min(TEXT.len()));
    if at > bytes.len() || bucket >= 8 || literals.len() != FILED.len() {
        return Ok(false);
    }
    let fast: Vec<usize> = confirm.ends_at(bucket, history, bytes, at).collect(alloc)?;
    let plain = plain_ends(alloc, literals, &FILED, bucket, history, bytes, at)?;
    Ok(fast.as_slice() == plain.as_slice())
}

/// Whether the plain program tells the same of each bucket at each place behind that cut.
fn agrees_behind(
    alloc: Global,
    confirm: &Confirm,
    literals: &[Vec<LitByte>],
    cut: usize,
) -> Result<bool, AllocError> {
    for at in 0..TEXT.len().saturating_sub(cut).saturating_add(1) {
        for bucket in 0..8 {
            if !agrees_at(alloc, confirm, literals, bucket, cut, at)? {
                return Ok(false);
            }
        }
    }
    Ok(true)
}

/// Whether the plain program tells the same of each bucket at each place behind some cuts.
fn agrees(alloc: Global, confirm: &Confirm, literals: &[Vec<LitByte>]) -> Result<bool, AllocError> {
    for cut in [0, 1, 2, 33, TEXT.len()] {
        if !agrees_behind(alloc, confirm, literals, cut)? {
            return Ok(false);
        }
    }
    Ok(true)
}

/// Whether it is so of the list.
fn agrees_on_the_list(alloc: Global) -> Result<bool, AllocError> {
    let literals = literals_of(alloc, LIST)?;
    if literals.len() != FILED.len() {
        return Ok(false);
    }
    agrees(alloc, &Confirm::build(alloc, &literals, &FILED)?, &literals)
}

#[test]
fn agrees_with_the_plain_program_at_each_place(rt: HostRuntime) -> Result<(), AllocError> {
    assert!(rt; agrees_on_the_list(rt.alloc())?);
    Ok(())
}

/// Whether just these numbers end behind `cab` of the buckets that the mask leaves open.
fn is_left(alloc: Global, confirm: &Confirm, mask: u8, wanted: &[u8]) -> Result<bool, AllocError> {
    let told: Vec<usize> = confirm.place_ends(mask, b"ca", b"b", 1).collect(alloc)?;
    Ok(are_digits(&told, wanted))
}

/// Whether just the buckets are told that are left open: all, and three of them.
fn are_left(alloc: Global, confirm: &Confirm) -> Result<bool, AllocError> {
    let all = is_left(alloc, confirm, 0, b"01235")?;
    Ok(is_left(alloc, confirm, 0b1111_0110, b"015")? & all)
}

/// Whether just those are told of six literals.
fn are_told(alloc: Global) -> Result<bool, AllocError> {
    let literals = literals_of(alloc, b"ab,b,ab,cab,xab,ab,")?;
    if literals.len() != 6 {
        return Ok(false);
    }
    are_left(
        alloc,
        &Confirm::build(alloc, &literals, &[3, 0, 7, 1, 0, 0])?,
    )
}

#[test]
fn tells_all_buckets_that_are_left_open(rt: HostRuntime) -> Result<(), AllocError> {
    assert!(rt; are_told(rt.alloc())?);
    Ok(())
}
