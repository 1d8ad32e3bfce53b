//! Lines for many streams.
ghost use Rattle.std.specs.Prelude.{◌≤◌, length, IfOk};

use std::alloc::{AllocError, Global};

/// The bytes of which the names of many streams are made, two a name.
const NAME_BYTES: &[u8] = b"ABCDEFGHIJKLMNOPQRSTUVWXYZabcdefghijklmnopqrstuvwxyz0123456789-_";

/// Adds a line for each name of two letters that begins with that one.
fn add_names(lines: &mut Vec<u8>, start: &[u8], first: u8) -> Result<(), AllocError> {
    for second in NAME_BYTES {
        lines.extend_from_slice(start)?;
        lines.extend_from_slice(&[first, *second, b'\n'])?;
    }
    Ok(())
}

/// A line for each of 4,096 names, which begins so, and the text behind them.
pub(crate) fn name_lines(alloc: Global, start: &[u8], text: &[u8]) -> Result<Vec<u8>, AllocError>
    ensures { IfOk result (λ lines. length text.now ≤ length lines.items) }
{
    let mut lines = Vec::new(alloc);
    for first in NAME_BYTES {
        add_names(&mut lines, start, *first)?;
    }
    lines.extend_from_slice(text)?;
    Ok(lines)
}
