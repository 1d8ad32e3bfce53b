//! Expressions over code points, read from their texts. It is `#[cfg(test)]`.
use crate::written::written;
use hs_base::{Flags, Refusal};
use hs_expr::{Expr, Kind, kind_of, positions};
use hs_parse::{ParseFault, parse};
use hs_utf8::lower;
use std::alloc::{AllocError, Global};
use std::test::Fail;

/// UTF-8, and under it other flags.
fn utf8(others: u16) -> Flags {
    Flags(Flags::UTF8.0 | others)
}

/// The ranges of a set of code points, in hexadecimal: a comma between each two.
fn ranges_text(alloc: Global, ranges: &[(u32, u32)]) -> Result<String, AllocError> {
    let mut text = String::new(alloc);
    for (first, last) in ranges {
        if !text.is_empty() {
            text.push(',')?;
        }
        let range = format!(in alloc; "{first:X}-{last:X}")?;
        text.push_str(range.as_str())?;
    }
    Ok(text)
}

/// The code points of an expression that is one set of them.
fn points_text(alloc: Global, expr: &Expr) -> Result<String, AllocError> {
    match expr {
        Expr::Points(ranges) => ranges_text(alloc, ranges),
        _ => String::from_str(alloc, "none"),
    }
}

/// A row: flags besides UTF-8, a text that is one set of code points, and these.
fn reads_points(alloc: Global, row: &str) -> Result<(), Fail> {
    let mut fields = row.split(' ');
    let flags = fields.next().unwrap_or("").parse::<u16>().unwrap_or(0);
    let text = fields.next().unwrap_or("");
    let wanted = fields.next().unwrap_or("");
    let expr = parse(alloc, text.as_bytes(), utf8(flags))?;
    let found = points_text(alloc, &expr)?;
    if found.as_str() == wanted {
        return Ok(());
    }
    Err(Fail::new(format_args!("{text} has {found}")))
}

/// Sets of code points.
const POINTS: &str = "\
0 a 61-61;0 é E9-E9;0 \\é E9-E9;0 \\Qé E9-E9;0 . 0-9,B-D7FF,E000-10FFFF;2 . 0-D7FF,E000-10FFFF;\
1 k 4B-4B,6B-6B,212A-212A;1 [k] 4B-4B,6B-6B,212A-212A;1 ß DF-DF,1E9E-1E9E,1DF95-1DF95;\
1 \\x{212a} 4B-4B,6B-6B,212A-212A;\
0 [\\x{e0}\\x{120}] E0-E0,120-120;0 [é-ü] E9-FC;0 [a-é] 61-E9;0 [^é] 0-E8,EA-D7FF,E000-10FFFF;\
0 [\\x{d7ff}-\\x{e000}] D7FF-D7FF,E000-E000;0 \\x{10ffff} 10FFFF-10FFFF;0 \\o{4177777} 10FFFF-10FFFF;\
0 \\h 9-9,20-20,A0-A0,1680-1680,180E-180E,2000-200A,202F-202F,205F-205F,3000-3000;0 \\v A-D,85-85,2028-2029;\
0 \\d 30-39;0 \\D 0-2F,3A-D7FF,E000-10FFFF;0 [^\\D] 30-39;0 [\\d\\D] 0-D7FF,E000-10FFFF;\
0 [[:^ascii:]] 80-D7FF,E000-10FFFF;1 [^k] 0-4A,4C-6A,6C-2129,212B-D7FF,E000-10FFFF;1 [[:upper:]] 41-5A,61-7A;\
1 \\w 30-39,41-5A,5F-5F,61-7A;0 [^\\x{0}-\\x{10ffff}] ;0 [é\\]] 5D-5D,E9-E9;0 [\\é-ë] E9-EB";

#[test]
fn reads_sets_of_code_points(rt: HostRuntime) -> Result<(), Fail> {
    for row in POINTS.split(';') {
        reads_points(rt.alloc(), row)?;
    }
    Ok(())
}

/// Where a text is refused that has no form.
fn refused_at(alloc: Global, text: &[u8]) -> Option<u32> {
    match parse(alloc, text, utf8(0)) {
        Err(ParseFault::Refused(Refusal::Syntax(at))) => Some(at),
        _ => None,
    }
}

/// Texts that aren't read, with the place: bytes that begin no well-formed encoding, and other faults before or behind
/// characters of several bytes.
const REFUSED: [(&[u8], u32); 39] = [
    (b"\xFF", 0),
    (b"a\xFF", 1),
    (b"\xC3\xA9\xFF", 2),
    (b"\xC3\xA9)", 2),
    (b"\xC3\xA9{3,2}", 2),
    (b"\xC3\xA9[\xC3\xA9-a]", 3),
    (b"\x80", 0),
    (b"\xC0\x80", 0),
    (b"\xC1\xBF", 0),
    (b"\xC3", 0),
    (b"\xC3(", 0),
    (b"\xE0\x80\x80", 0),
    (b"\xE2\x82", 0),
    (b"\xE2\x82a", 0),
    (b"\xED\xA0\x80", 0),
    (b"\xF0\x80\x80\x80", 0),
    (b"\xF4\x90\x80\x80", 0),
    (b"\xF5\x80\x80\x80", 0),
    (b"\xF8\x88\x80\x80\x80", 0),
    (b"(?#\xFF", 0),
    (b"(?#\xFF)", 3),
    (b"(?#\xC3\xA9\xFF)", 5),
    (b"(?x)#\xFF", 5),
    (b"(?x)#\xC3\xA9\xFF\na", 7),
    (b"\\\xFF", 1),
    (b"\\\xE2\x82", 1),
    (b"\\Q\xFF", 2),
    (b"\\c\xFF", 0),
    (b"\\c\xC3\xA9", 0),
    (b"\\x{4\xFF}", 0),
    (b"(?<\xFF>a)", 0),
    (b"(\xFF", 1),
    (b"[a\xFF", 2),
    (b"[\\\xFF]", 2),
    (b"[a-\xFF]", 3),
    (b"[\xC3\xA9", 0),
    (b"\\x{d800}", 0),
    (b"a\\x{110000}", 1),
    (b"[\\o{4200000}]", 1),
];

#[test]
fn refuses_what_is_not_well_formed(rt: HostRuntime) -> Result<(), Fail> {
    for (text, at) in REFUSED {
        let found = refused_at(rt.alloc(), text);
        if found != Some(at) {
            return Err(Fail::new(format_args!("{text:?} at {found:?}")));
        }
    }
    Ok(())
}

/// The expression of a text in bytes.
fn in_bytes(alloc: Global, text: &str, others: u16) -> Result<Expr, Fail> {
    let expr = parse(alloc, text.as_bytes(), utf8(others))?;
    Ok(lower(alloc, &expr)?)
}

#[test]
fn a_dot_that_is_read_has_27_positions(rt: HostRuntime) -> Result<(), Fail> {
    assert_eq!(rt; positions(&in_bytes(rt.alloc(), ".", 0)?), 27);
    Ok(())
}

#[test]
fn a_class_of_two_code_points_has_two_runs(rt: HostRuntime) -> Result<(), Fail> {
    let expr = in_bytes(rt.alloc(), "[\\x{e0}\\x{120}]", 0)?;
    let text = written(rt.alloc(), &expr)?;
    assert_eq!(rt; text.as_str(), "C3-C3 A0-A0\nC4-C4 A0-A0\n");
    Ok(())
}

#[test]
fn a_letter_with_a_third_case_is_no_literal(rt: HostRuntime) -> Result<(), Fail> {
    let both = in_bytes(rt.alloc(), "[Kk]", 0)?;
    assert!(rt; matches!(kind_of(&both), Kind::Literal(_)));
    let three = in_bytes(rt.alloc(), "[Kk]", 1)?;
    assert!(rt; matches!(kind_of(&three), Kind::Ordinary));
    Ok(())
}
