//! A set of code points in bytes.
ghost use Rattle.std.specs.Prelude.{◌≡◌, map, IfOk, OnOk};
ghost use Rattle.hs_base.specs.ByteSets.{members, bytes_where};
ghost use Rattle.hs_expr.specs.Meaning.{tree_of};
ghost use Rattle.hs_utf8.specs.Lowered.{IsLoweredSet, alternatives, is_ascii_member};
ghost use Rattle.hs_utf8.specs.Steps.{AddsAscii};

use crate::runs::{ASCII_END, push_runs};
use hs_base::ByteSet;
use hs_expr::Expr;
use regex_class::Class;
use std::alloc::{AllocError, Global};

/// The encodings of the code points of the ranges.
pub(crate) fn lower_set(alloc: Global, ranges: &[(u32, u32)]) -> Result<Expr, AllocError>
    ensures { IfOk result (λ e. IsLoweredSet ranges.now (tree_of e)) }
{
    let class = Class::from_ranges(alloc, ranges)?;
    let mut parts = Vec::new(alloc);
    push_ascii(&class, &mut parts)?;
    push_runs(alloc, &class, &mut parts)?;
    Ok(alternatives(parts))
}

/// Appends the class of the members of ASCII, if there are any.
fn push_ascii(class: &Class, parts: &mut Vec<Expr>) -> Result<(), AllocError>
    ensures { OnOk result (AddsAscii class.now.ranges.items
        (map tree_of parts.old.items) (map tree_of parts.new.items)) }
{
    match class.bounds() {
        None => Ok(()),
        Some(bounds) => {
            if bounds.0 >= ASCII_END {
                return Ok(());
            }
            parts.push(Expr::Class(ascii_members(class)))?;
            Ok(())
        }
    }
}

/// The members of ASCII.
fn ascii_members(class: &Class) -> ByteSet
    ensures { members result ≡ bytes_where (is_ascii_member class.now.ranges.items) }
{
    let mut set = ByteSet::EMPTY;
    for byte in 0..0x80 {
        if class.contains(u32::from(byte)) {
            set.insert(byte);
        }
    }
    set
}

/// One of the parts.
fn alternatives(mut parts: Vec<Expr>) -> Expr
    ensures { tree_of result ≡ alternatives (map tree_of parts.items) }
{
    if parts.len() > 1 {
        return Expr::Alt(parts);
    }
    match parts.pop() {
        Some(part) => part,
        None => Expr::Class(ByteSet::EMPTY),
    }
}
