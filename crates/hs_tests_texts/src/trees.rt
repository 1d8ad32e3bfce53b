//! Trees, as tests write them. It is `#[cfg(test)]`.
use hs_base::{Assertion, ByteSet};
use hs_expr::Expr;
use hs_rows::number_of;
use std::alloc::{AllocError, Global};

/// Of the trees that are read, those of the innermost list, which ends.
fn close(trees: &mut Vec<Expr>, open: &mut Vec<usize>) -> Result<Vec<Expr>, AllocError> {
    let before = open.pop().unwrap_or(0);
    trees.split_off(before.min(trees.len()))
}

/// The bounds that stand between braces.
fn bounds_in(inside: &[u8]) -> (u32, Option<u32>) {
    let mut numbers = inside.split(|byte| *byte == b',');
    let least = number_of(numbers.next().unwrap_or(b""));
    match numbers.next() {
        Some(greatest) => (least.unwrap_or(0), number_of(greatest)),
        None => (least.unwrap_or(0), least),
    }
}

/// The bounds of the quantifier that the bytes begin with.
fn bounds(bytes: &[u8]) -> (u32, Option<u32>) {
    match bytes {
        [b'*', ..] => (0, None),
        [b'+', ..] => (1, None),
        [b'{', behind @ ..] => {
            bounds_in(behind.split(|byte| *byte == b'}').next().unwrap_or(b""))
        }
        _ => (0, Some(1)),
    }
}

/// The tree of a byte that stands alone.
fn leaf(byte: u8) -> Expr {
    match byte {
        b'_' => Expr::Empty,
        b'.' => Expr::Class(ByteSet::NOT_NEWLINE),
        b'<' => Expr::Assert(Assertion::StreamStart),
        b'>' => Expr::Assert(Assertion::StreamEnd),
        b'$' => Expr::Assert(Assertion::EndOrFinalNewline),
        b'^' => Expr::Assert(Assertion::LineStart),
        b'&' => Expr::Assert(Assertion::LineEnd),
        b'%' => Expr::Assert(Assertion::WordBoundary),
        b'-' => Expr::Assert(Assertion::NotWordBoundary),
        b'!' => Expr::Class(ByteSet::of(b'\n')),
        _ => Expr::Class(ByteSet::of(byte)),
    }
}

/// The tree of a text.
///
/// `(..)` is a concatenation and `[..]` an alternation. Behind an item stand `*`, `+`, `?`, or `{n}`, `{n,}` and
/// `{n,m}` for so many copies, in order or not. `_` is the empty text, `.` every byte but the line feed, `@` every code
/// point but that, `!` the line feed, `<` is `\A`, `>` is `\z`, `$` is `\Z`, `^` and `&` begin and end a line, `%` is
/// `\b`, `-` is `\B`, and any other byte but a digit and a comma is itself.
pub(crate) fn tree(alloc: Global, text: &[u8]) -> Result<Expr, AllocError> {
    // Trees that are read wait for the list that they are items of; before each list that is open stand so many.
    let (mut trees, mut open) = (Vec::new(alloc), Vec::new(alloc));
    for (at, byte) in text.iter().enumerate() {
        let made = match *byte {
            b'(' | b'[' => {
                open.push(trees.len())?;
                continue;
            }
            b'0'..=b'9' | b',' | b'}' => continue,
            b')' => Expr::Cat(close(&mut trees, &mut open)?),
            b']' => Expr::Alt(close(&mut trees, &mut open)?),
            b'@' => Expr::Points(vec![in alloc; (0, 9), (11, 0x10FFFF)]?),
            b'*' | b'+' | b'?' | b'{' => {
                let (least, greatest) = bounds(&text[at..]);
                let body = trees.pop().unwrap_or(Expr::Empty);
                Expr::Repeat(Box::new(alloc, body)?, least, greatest)
            }
            byte => leaf(byte),
        };
        trees.push(made)?;
    }
    Ok(trees.pop().unwrap_or(Expr::Empty))
}
