//! The tree of an expression, and its deep copy.
ghost use Rattle.std.specs.Prelude.{◌≡◌, map, IfOk};
ghost use Rattle.hs_expr.specs.Meaning.{tree_of};

use hs_base::{Assertion, ByteSet};
use std::alloc::{AllocError, Global};

/// An expression as a tree. Groups leave no node.
#[derive(Debug, Drop)]
pub enum Expr {
    /// The empty text.
    Empty,
    /// One byte of the set.
    Class(ByteSet),
    /// The UTF-8 encoding of one code point of the ranges, each given by its first and its last.
    Points(Vec<(u32, u32)>),
    /// A place where the assertion holds; it takes no byte.
    Assert(Assertion),
    /// The items, one after the other.
    Cat(Vec<Expr>),
    /// One of the alternatives.
    Alt(Vec<Expr>),
    /// So many copies of the body: at least the first number and, where there is a second, at most that.
    Repeat(Box<Expr>, u32, Option<u32>),
}

impl Expr {
    /// A copy that shares no memory with the original.
    #[cycle(copy)]
    pub fn copy(&self, alloc: Global) -> Result<Expr, AllocError>
        ensures { IfOk result (λ new. tree_of new ≡ tree_of self.now) }
    {
        match self {
            Expr::Empty => Ok(Expr::Empty),
            Expr::Class(set) => Ok(Expr::Class(*set)),
            Expr::Points(ranges) => Ok(Expr::Points(Vec::from_slice(alloc, ranges)?)),
            Expr::Assert(assertion) => Ok(Expr::Assert(*assertion)),
            Expr::Cat(items) => Ok(Expr::Cat(copy_all(alloc, items)?)),
            Expr::Alt(items) => Ok(Expr::Alt(copy_all(alloc, items)?)),
            Expr::Repeat(body, least, greatest) => {
                let body = Box::new(alloc, body.copy(alloc)?)?;
                Ok(Expr::Repeat(body, *least, *greatest))
            }
        }
    }
}

/// Copies of several expressions.
#[cycle(copy)]
fn copy_all(alloc: Global, items: &[Expr]) -> Result<Vec<Expr>, AllocError>
    ensures { IfOk result (λ new. map tree_of new.items ≡ map tree_of items.now) }
{
    let mut all = Vec::with_capacity(alloc, items.len())?;
    for item in items {
        all.push(item.copy(alloc)?)?;
    }
    Ok(all)
}
