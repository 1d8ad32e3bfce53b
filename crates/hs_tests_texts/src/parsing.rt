//! Texts with their trees or their faults: tables of lines, and what fills a text. It is `#[cfg(test)]`.
use hs_base::{Assertion, ByteSet, Construct, Flags, Refusal};
use hs_expr::Expr;
use hs_parse::{MAX_TEXT_LEN, ParseFault, parse};
use std::alloc::{AllocError, Global};
use std::process::Abort;
use std::test::Fail;

mod faults;
mod trees;

/// Appends a byte, by `%` and two hexadecimal digits where it isn't printed.
fn write_byte(alloc: Global, out: &mut String, byte: u8) -> Result<(), AllocError> {
    if matches!(byte, 0x21..=0x7E) {
        return out.push(char::from(byte));
    }
    let text = format!(in alloc; "%{byte:02X}")?;
    out.push_str(text.as_str())
}

/// Appends a set: `_` for every byte but the line feed, the byte itself where it is the only one, and else the ranges
/// of the members between brackets.
fn write_set(alloc: Global, out: &mut String, set: &ByteSet) -> Result<(), AllocError> {
    if *set == ByteSet::NOT_NEWLINE {
        return out.push('_');
    }
    let first = set.iter().next().unwrap_or(0);
    if *set == ByteSet::of(first) {
        return write_byte(alloc, out, first);
    }
    out.push('[')?;
    let mut before = false;
    for byte in 0..=255u8 {
        let here = set.contains(byte);
        let next = byte < 255 && set.contains(byte + 1);
        if here && (!before || !next) {
            if before {
                out.push('-')?;
            }
            write_byte(alloc, out, byte)?;
        }
        before = here;
    }
    out.push(']')
}

/// Appends a tree: `~` for the empty text, `(..)` for a concatenation, `<..>` for an alternation, `!` and a letter for
/// an assertion, and a repeat by its quantifier behind its body.
#[cycle(write)]
fn write_tree(alloc: Global, out: &mut String, expr: &Expr) -> Result<(), AllocError> {
    match expr {
        Expr::Empty => out.push('~'),
        Expr::Class(set) => write_set(alloc, out, set),
        Expr::Points(_) => out.push('#'),
        Expr::Assert(assertion) => out.push_str(mark(*assertion)),
        Expr::Cat(items) => write_trees(alloc, out, '(', items, ')'),
        Expr::Alt(items) => write_trees(alloc, out, '<', items, '>'),
        Expr::Repeat(body, least, greatest) => {
            write_tree(alloc, out, body)?;
            write_quantifier(alloc, out, *least, *greatest)
        }
    }
}

#[cycle(write)]
fn write_trees(
    alloc: Global,
    out: &mut String,
    open: char,
    items: &[Expr],
    close: char,
) -> Result<(), AllocError> {
    out.push(open)?;
    for item in items {
        write_tree(alloc, out, item)?;
    }
    out.push(close)
}

/// What an assertion is written as.
fn mark(assertion: Assertion) -> &'static str {
    match assertion {
        Assertion::StreamStart => "!A",
        Assertion::LineStart => "!^",
        Assertion::LineEnd => "!$",
        Assertion::EndOrFinalNewline => "!Z",
        Assertion::StreamEnd => "!z",
        Assertion::WordBoundary => "!b",
        Assertion::NotWordBoundary => "!B",
    }
}

/// Appends the quantifier of two bounds.
fn write_quantifier(
    alloc: Global,
    out: &mut String,
    least: u32,
    greatest: Option<u32>,
) -> Result<(), AllocError> {
    let text = match (least, greatest) {
        (0, None) => return out.push('*'),
        (1, None) => return out.push('+'),
        (0, Some(1)) => return out.push('?'),
        (_, None) => format!(in alloc; "{{{least},}}")?,
        (_, Some(bound)) => format!(in alloc; "{{{least},{bound}}}")?,
    };
    out.push_str(text.as_str())
}

/// The tree of a text, or its fault without blanks.
fn outcome(alloc: Global, flags: Flags, text: &[u8]) -> Result<String, AllocError> {
    let mut out = String::new(alloc);
    match parse(alloc, text, flags) {
        Ok(expr) => write_tree(alloc, &mut out, &expr)?,
        Err(ParseFault::Refused(refusal)) => {
            let shown = format!(in alloc; "{refusal:?}")?;
            for part in shown.split(' ') {
                out.push_str(part)?;
            }
        }
        Err(ParseFault::Memory) => out.push_str("no memory")?,
    }
    Ok(out)
}

/// Checks a text against its tree or its fault.
fn check(
    rt: &impl Abort,
    alloc: Global,
    flags: Flags,
    text: &[u8],
    wanted: &[u8],
) -> Result<(), AllocError> {
    let found = outcome(alloc, flags, text)?;
    assert!(rt; found.as_bytes() == wanted, "{text:?} gives {found}");
    Ok(())
}

/// The flags of a line, by their digit.
fn flags_of(digit: Option<&[u8]>) -> Flags {
    match digit {
        Some([digit]) => Flags(*digit as u16 % 8),
        _ => Flags::NONE,
    }
}

/// The mark between the fields of a table and the one behind its lines, whether its texts are refused, and the table. A
/// line has flags, and then texts, each with its tree behind it; or flags, a fault, and then texts that have it.
type Table<'a> = (u8, u8, bool, &'a [u8]);

/// The table of a number below 7.
fn table(number: usize) -> Table<'static> {
    match number {
        0 => (b' ', b'\n', false, trees::TREES),
        1 => (b' ', b'\n', false, trees::CLASSES),
        2 => (b';', b'\n', false, trees::SPACED),
        3 => (b';', b'$', false, trees::BLANKS),
        4 => (b' ', b'\n', true, faults::FAULTS),
        5 => (b';', b'\n', true, faults::SPACED),
        _ => (b';', b'$', true, faults::BLANKS),
    }
}

/// Checks the texts of a line.
fn check_line(
    rt: &impl Abort,
    alloc: Global,
    mark: u8,
    refused: bool,
    line: &[u8],
) -> Result<(), AllocError> {
    let mut fields = line.split(|byte| *byte == mark);
    let flags = flags_of(fields.next());
    // The fault of the line, or the text whose tree comes next.
    let mut before: &[u8] = b"";
    for field in fields {
        if field.is_empty() {
            continue;
        }
        if before.is_empty() {
            before = field;
        } else if refused {
            check(rt, alloc, flags, field, before)?;
        } else {
            check(rt, alloc, flags, before, field)?;
            before = b"";
        }
    }
    Ok(())
}

/// Checks the texts of a table.
fn check_table(rt: &impl Abort, alloc: Global, table: Table) -> Result<(), AllocError> {
    let (mark, end, refused, lines) = table;
    for line in lines.split(|byte| *byte == end) {
        check_line(rt, alloc, mark, refused, line)?;
    }
    Ok(())
}

#[test]
fn reads_and_refuses_by_the_tables(rt: HostRuntime) -> Result<(), AllocError> {
    for number in 0..7 {
        check_table(&rt, rt.alloc(), table(number))?;
    }
    Ok(())
}

/// So many copies of a byte, and a text behind them.
fn long_text(alloc: Global, count: &str, byte: &str, behind: &str) -> Result<Vec<u8>, AllocError> {
    let byte = byte.as_bytes().first().copied().unwrap_or(0);
    let mut text = vec![in alloc; byte; count.parse::<usize>().unwrap_or(0)]?;
    text.extend_from_slice(behind.as_bytes())?;
    Ok(text)
}

/// Checks a text that is long, by its row.
fn check_long(rt: &impl Abort, alloc: Global, row: &str) -> Result<(), AllocError> {
    let mut fields = row.split(' ');
    let count = fields.next().unwrap_or("");
    let byte = fields.next().unwrap_or("");
    let text = long_text(alloc, count, byte, fields.next().unwrap_or(""))?;
    match fields.next() {
        Some(fault) => check(rt, alloc, Flags::NONE, &text, fault.as_bytes()),
        None => {
            assert!(rt; parse(alloc, &text, Flags::NONE).is_ok(), "{row}");
            Ok(())
        }
    }
}

#[test]
fn bounds_length_and_depth(rt: HostRuntime) -> Result<(), AllocError> {
    for row in faults::LONG.split(';') {
        check_long(&rt, rt.alloc(), row)?;
    }
    Ok(())
}

#[test]
fn closes_as_many_groups_as_open(rt: HostRuntime) -> Result<(), AllocError> {
    let mut text = vec![in rt.alloc(); b'('; 128]?;
    text.push(b'a')?;
    for _ in 0..128 {
        text.push(b')')?;
    }
    check(&rt, rt.alloc(), Flags::NONE, &text, b"a")
}

/// How many children a tree has.
fn children(expr: &Expr) -> usize {
    match expr {
        Expr::Cat(items) | Expr::Alt(items) => items.len(),
        Expr::Empty | Expr::Class(_) | Expr::Points(_) | Expr::Assert(_) | Expr::Repeat(_, _, _) =>
            0,
    }
}

/// Forms that fill a text, with the number of children of the whole.
const FILLED: [(&[u8], usize); 8] = [
    (b"a", 16_000),
    (b"a*", 8_000),
    (b"|", 16_001),
    (b"a|", 8_001),
    (b"(a)", 5_333),
    (b"[\x00-\xff]", 3_200),
    (b"\\.", 8_000),
    (b"[:a]", 4_000),
];

#[test]
fn reads_whole_texts_of_a_form(rt: HostRuntime) -> Result<(), Fail> {
    for (form, count) in FILLED {
        let mut text = Vec::with_capacity(rt.alloc(), MAX_TEXT_LEN)?;
        for _ in 0..MAX_TEXT_LEN / form.len().max(1) {
            text.extend_from_slice(form)?;
        }
        let expr = parse(rt.alloc(), &text, Flags::NONE)?;
        assert_eq!(rt; children(&expr), count, "{form:?}");
    }
    Ok(())
}

#[test]
fn looks_at_no_other_flags(rt: HostRuntime) -> Result<(), AllocError> {
    for flags in [0, 8, 16, 64, 128, u16::MAX - 39] {
        check(&rt, rt.alloc(), Flags(flags), b"a.[b]^", b"(a_b!A)")?;
    }
    check(&rt, rt.alloc(), Flags::NONE, b"", b"~")
}

#[test]
fn tells_its_faults(rt: HostRuntime) -> Result<(), AllocError> {
    let refused = ParseFault::Refused(Refusal::Unsupported(Construct::Keep, 7));
    let text = format!(in rt.alloc(); "{refused}")?;
    assert_eq!(rt;
        text.as_str(),
        "the expression is refused: a reset of the match's start at byte 7 isn't supported"
    );
    let memory = format!(in rt.alloc(); "{}", ParseFault::Memory)?;
    assert_eq!(rt; memory.as_str(), "out of memory");
    Ok(())
}
