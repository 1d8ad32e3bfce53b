//! What an item becomes in a chain of pieces.
ghost use Rattle.std.specs.Prelude.{◌≡◌};
ghost use Rattle.hs_base.specs.ByteSets.{members};
ghost use Rattle.hs_base.specs.Chains.{part_of, class_part, repeat_part, is_long};
ghost use Rattle.hs_base.specs.Literals.{literal_of};
ghost use Rattle.hs_base.specs.Trees.{class, repeat};
ghost use Rattle.hs_expr.specs.Kinds.{kind_part};
ghost use Rattle.hs_expr.specs.Meaning.{tree_of};

use crate::expr::Expr;
use crate::literal_set::literal_byte_of;
use hs_base::{ByteSet, LitByte};

/// The most bytes of one literal.
pub const MOST_LITERAL_BYTES: usize = 32;

/// The least copies of a set that are a piece of their own.
pub const LEAST_LONG_REPEAT: u32 = 65;

/// What an item becomes.
#[derive(Clone, Copy, Debug)]
pub enum Kind {
    /// A byte of a literal.
    Literal(LitByte),
    /// A piece of its own: so many bytes of a set.
    Long(ByteSet, u32, Option<u32>),
    /// A part of an expression.
    Ordinary,
}

/// What the item becomes.
pub fn kind_of(item: &Expr) -> Kind
    ensures { kind_part result (tree_of item.now) ≡ part_of (tree_of item.now) }
{
    match item {
        Expr::Class(set) => class_kind(set),
        Expr::Repeat(body, least, greatest) => repeat_kind(body, *least, *greatest),
        Expr::Empty => Kind::Ordinary,
        Expr::Points(_) => Kind::Ordinary,
        Expr::Assert(_) => Kind::Ordinary,
        Expr::Cat(_) => Kind::Ordinary,
        Expr::Alt(_) => Kind::Ordinary,
    }
}

/// What one byte of a set becomes.
fn class_kind(set: &ByteSet) -> Kind
    ensures { kind_part result (class (members set.now)) ≡ class_part (members set.now) (literal_of (members set.now)) }
{
    match literal_byte_of(set) {
        Some(byte) => Kind::Literal(byte),
        None => Kind::Ordinary,
    }
}

/// What a repeat becomes.
fn repeat_kind(body: &Expr, least: u32, greatest: Option<u32>) -> Kind
    ensures { kind_part result (repeat (tree_of body.now) least greatest) ≡ part_of
        (repeat (tree_of body.now) least greatest) }
{
    match body {
        Expr::Class(set) => set_repeat_kind(set, least, greatest),
        Expr::Empty => Kind::Ordinary,
        Expr::Points(_) => Kind::Ordinary,
        Expr::Assert(_) => Kind::Ordinary,
        Expr::Cat(_) => Kind::Ordinary,
        Expr::Alt(_) => Kind::Ordinary,
        Expr::Repeat(_, _, _) => Kind::Ordinary,
    }
}

/// What a repeat of a set becomes.
fn set_repeat_kind(set: &ByteSet, least: u32, greatest: Option<u32>) -> Kind
    ensures { kind_part result (repeat (class (members set.now)) least greatest)
        ≡ repeat_part (members set.now) least greatest (is_long least greatest) }
{
    if is_long(least, greatest) {
        Kind::Long(*set, least, greatest)
    } else {
        Kind::Ordinary
    }
}

/// Whether so many copies of a set are too many for an ordinary item.
fn is_long(least: u32, greatest: Option<u32>) -> bool
    ensures { result ≡ is_long least greatest }
{
    greatest.unwrap_or(least) >= LEAST_LONG_REPEAT
}
