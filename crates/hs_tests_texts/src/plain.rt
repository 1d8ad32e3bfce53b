//! The definitions judged by rows from outside: what PCRE's pattern syntax and the Hyperscan guide say
//! of ends, bounds and single matches. It is `#[cfg(test)]`.

use crate::trees::tree;
use hs_base::{ExprId, Report};
use hs_plain::{Pattern, match_reports};
use std::alloc::{AllocError, Global};
use std::process::Abort;

/// Why, the patterns with a bar between them, the stream, the pairs that its bytes decide, and those that only its end
/// decides; a semicolon stands between these. An exclamation mark is a line feed. A pattern is a tree, with its
/// identifier and a slash before it where that isn't 1, or something is asked of its matches: `s` that it is reported
/// once, `b` that it ends at 10 to 15. A pair is its end, with the identifier and a colon before it where that isn't 1.
const ROWS: &[u8] = b"each end of foo.*bar;(foo.*bar);fooxyzbarbar;9 12;
a* on nothing matches at its end;a*;;;0
a* matches the empty text at each place;a*;b;0 1;
ab+? lazy or not, every end counts;(ab+);abb;2 3;
each alternative that matches;[a(ab)];ab;1 2;
an alternation of nothing never matches;[];a;;
(a|b){2}: copies may differ;[ab]{2};aba;2 3;
a{2,3}: at least two, at most three;(<a{2,3});aaaa;2 3;
a{2,}: two and more;(<a{2,});aaaa;2 3 4;
a{0}: as if it weren't there;(<a{0}b);bab;1;
(a?){3}: copies may be empty;(<a?{3});aaaa;0 1 2 3;
(a|)*b: a loop whose body takes nothing ends;([a_]*b);aab;3;
a great bound over a body that takes nothing;(<*{32767}{32767,}a);aa;1 2;
a dot is no line feed;(a.b);a!b;;
a dot is any other byte;(a.b);a\rba\xFFb;3 6;
a match may begin within another;(aa);aaa;2 3;
$ stands before a final line feed;(a$);a!;;1
$ doesn't stand before the last but one;(a$);a!!;;
\\z stands at the very end alone;(a>);a!;;
\\z at the end;(a>);ba;;2
\\bfoo\\b at the end is decided by the end;(%foo%);foo;;3
no boundary within a word;(%foo%);food;;
a boundary before a hyphen;(%foo%);foo-;3;
an underscore is a word byte;(a%);a_;;
\\B between word bytes;(-b);ab;2;
no \\B at the start of a word;(-b);b;;
^ with m behind a line feed;(^b);a!b;3;
^ with m not behind a final line feed;(!^);a!;;
^ without m at the start alone;(<b);a!b;;
$ with m before a line feed and at the end;(a&);a!ba;1;4
^$ with m on an empty line;(^&);!;0;
\\A.\\z takes one byte;(<.>);ab;;
an assertion takes no byte;(<<a);a;1;
two bytes are one code point;(<@$);\xC3\xA9;;2
FF begins none;(<@$);\xFF;;
four bytes;(<@);\xF0\x9F\x98\x80;4;
no surrogate;(<@);\xED\xA0\x80;;
no overlong form;(<@);\xC0\x80;;
no code point without its last byte;(<@);\xE2\x82;;
no end below the least;1b/(foo.*bar);foobar;;
an end at the least;1b/(foo.*bar);foo0123bar;10;
an end between;1b/(foo.*bar);foo0123456bar;13;
an end at the greatest;1b/(foo.*bar);foo012345678bar;15;
no end above the greatest;1b/(foo.*bar);foo0123456789bar;;
one identifier at one end, once;1/(ab)|1/b;ab;2;
once: the first that the bytes decide;1s/[(a$)!];a!;2;
once: the first end;1s/a;aaa;1;
once: at the end, if not before;1s/(a>);aa;;2
each time, where one of the two patterns asks for that;1s/a|1/b;aab;1 2 3;
what is decided first is told first;5/(a%)|9/a;a ;9:1 5:1;
at one end by identifier;2/a|1/a;a;1 2:1;";

/// The pattern of a text.
fn pattern(alloc: Global, text: &[u8]) -> Result<Pattern, AllocError> {
    let mut parts = text.rsplit(|byte| *byte == b'/');
    let body = parts.next().unwrap_or(b"");
    let named = parts.next().unwrap_or(b"1");
    let bounded = named.get(1) == Some(&b'b');
    Ok(Pattern {
        id: ExprId(u32::from(named.first().copied().unwrap_or(b'1')) % 16),
        single: named.get(1) == Some(&b's'),
        least: if bounded { 10 } else { 0 },
        greatest: if bounded { 15 } else { u64::MAX },
        expr: tree(alloc, body)?,
    })
}

/// The patterns of a list, with a bar between them.
fn patterns_of(alloc: Global, list: &[u8]) -> Result<Vec<Pattern>, AllocError> {
    let mut patterns = Vec::new(alloc);
    for text in list.split(|byte| *byte == b'|') {
        patterns.push(pattern(alloc, text)?)?;
    }
    Ok(patterns)
}

/// The stream of a text, in which an exclamation mark is a line feed.
fn stream_of(alloc: Global, text: &[u8]) -> Result<Vec<u8>, AllocError> {
    let mut stream = Vec::new(alloc);
    for byte in text {
        stream.push(if *byte == b'!' { b'\n' } else { *byte })?;
    }
    Ok(stream)
}

/// Appends reports, as they stand in a row.
fn write_reports(alloc: Global, out: &mut String, reports: &[Report]) -> Result<(), AllocError> {
    let mut blank = "";
    for report in reports {
        let text = match report.id.0 {
            1 => format!(in alloc; "{blank}{}", report.to)?,
            id => format!(in alloc; "{blank}{id}:{}", report.to)?,
        };
        out.push_str(text.as_str())?;
        blank = " ";
    }
    Ok(())
}

/// What is reported of a stream, as it stands in a row.
fn written(alloc: Global, patterns: &[Pattern], stream: &[u8]) -> Result<String, AllocError> {
    let found = match_reports(alloc, patterns, stream)?;
    let mut out = String::new(alloc);
    write_reports(alloc, &mut out, &found.told)?;
    out.push(';')?;
    write_reports(alloc, &mut out, &found.last)?;
    Ok(out)
}

/// Checks a row.
fn check_row(rt: &impl Abort, alloc: Global, row: &[u8]) -> Result<(), AllocError> {
    let mut parts = row.splitn(4, |byte| *byte == b';');
    let why = parts.next().unwrap_or(b"");
    let patterns = patterns_of(alloc, parts.next().unwrap_or(b""))?;
    let stream = stream_of(alloc, parts.next().unwrap_or(b""))?;
    let found = written(alloc, &patterns, &stream)?;
    let wanted = parts.next().unwrap_or(b"");
    assert!(rt; found.as_bytes() == wanted, "{why:?}: {found}");
    Ok(())
}

#[test]
fn reports_every_pair(rt: HostRuntime) -> Result<(), AllocError> {
    for row in ROWS.split(|byte| *byte == b'\n') {
        check_row(&rt, rt.alloc(), row)?;
    }
    Ok(())
}
