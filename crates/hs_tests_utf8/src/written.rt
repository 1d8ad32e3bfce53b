//! A lowered set as a text: a line for each part, its places by a space, and the ranges of bytes of each by a comma. It
//! is `#[cfg(test)]`.
use hs_base::ByteSet;
use hs_expr::Expr;
use std::alloc::{AllocError, Global};
use std::fmt::Write;

/// The text of a lowered set.
pub(crate) fn written(alloc: Global, lowered: &Expr) -> Result<String, AllocError> {
    let mut text = String::new(alloc);
    match lowered {
        Expr::Alt(parts) => write_parts(parts, &mut text)?,
        _ => write_part(lowered, &mut text)?,
    }
    Ok(text)
}

fn write_parts(parts: &[Expr], text: &mut String) -> Result<(), AllocError> {
    for part in parts {
        write_part(part, text)?;
    }
    Ok(())
}

fn write_part(part: &Expr, text: &mut String) -> Result<(), AllocError> {
    match part {
        Expr::Cat(places) => write_places(places, text)?,
        _ => write_place(part, "", text)?,
    }
    text.push('\n')?;
    Ok(())
}

fn write_places(places: &[Expr], text: &mut String) -> Result<(), AllocError> {
    let mut before = "";
    for place in places {
        write_place(place, before, text)?;
        before = " ";
    }
    Ok(())
}

fn write_place(place: &Expr, before: &str, text: &mut String) -> Result<(), AllocError> {
    match place {
        Expr::Class(set) => write_set(set, before, text),
        _ => Ok(text.push('?')?),
    }
}

/// The ranges of the set, as `41-5A,61-7A`.
fn write_set(set: &ByteSet, before: &str, text: &mut String) -> Result<(), AllocError> {
    let mut inside = false;
    let mut before = before;
    for byte in 0..=255u8 {
        if set.contains(byte) != inside {
            write_edge(byte, inside, before, text)?;
            inside = !inside;
            before = ",";
        }
    }
    if inside {
        text.push_str("-FF")?;
    }
    Ok(())
}

/// The byte at which a range begins, or the one before the end of one.
fn write_edge(byte: u8, inside: bool, before: &str, text: &mut String) -> Result<(), AllocError> {
    if inside {
        let last = byte.wrapping_sub(1);
        write!(text, "-{last:02X}")
    } else {
        write!(text, "{before}{byte:02X}")
    }
}
