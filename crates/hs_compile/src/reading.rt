//! The expression of an entry: read, then lowered to bytes.

ghost use Rattle.std.specs.Prelude.{IfOk, IfErr};
ghost use Rattle.hs_base.specs.Trees.{IsProper};
ghost use Rattle.hs_base.specs.WrittenOut.{IsPlain};
ghost use Rattle.hs_expr.specs.Meaning.{tree_of};
ghost use Rattle.hs_parse.specs.Faults.{IsParseFault};
ghost use Rattle.hs_compile.specs.Lists.{IsReadTree};

use hs_base::Flags;
use hs_expr::Expr;
use hs_parse::{ParseFault, parse};
use hs_utf8::lower;
use std::alloc::Global;

/// The expression of a text in bytes: without the flag for UTF-8 it is the expression as it is read. A text is refused
/// for its own fault alone.
pub fn read_expr(alloc: Global, text: &[u8], flags: Flags) -> Result<Expr, ParseFault>
    ensures read { IfOk result (λ expr. IsReadTree text.now flags (tree_of expr)) }
    ensures proper { IfOk result (λ expr. IsProper (tree_of expr)) }
    ensures plain { IfOk result (λ expr. IsPlain (tree_of expr)) }
    ensures refused { IfErr result (IsParseFault text.now flags) }
{
    let expr = parse(alloc, text, flags)?;
    let lowered = lower(alloc, &expr)?;
    Ok(lowered)
}
