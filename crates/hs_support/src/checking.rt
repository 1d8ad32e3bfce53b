//! The refusals of an expression that its text doesn't show.
ghost use Rattle.std.specs.Prelude.{true, [], MatchBool, MatchResult};
ghost use Rattle.hs_base.specs.Spans.{Spans};
ghost use Rattle.hs_expr.specs.Meaning.{tree_of};
ghost use Rattle.hs_support.specs.Refused.{AllowsEmpty, HasRefusal, IsSupported, IsLeast};

use crate::fault::flags_fault;
use crate::pieces::excess_positions;
use hs_base::{Ext, Flags, Refusal};
use hs_expr::{Expr, has_embedded_end, matches_empty};

/// Looks for the refusals of an expression that go by its flags, its parameters and its tree: a flag or a parameter
/// that isn't supported, a match of the empty text that no flag allows, bytes behind an assertion of the stream's end,
/// a piece with too many positions, a least end offset above the greatest. The error is the one of least number.
pub fn check(expr: &Expr, flags: Flags, ext: Ext) -> Result<(), Refusal>
    ensures { MatchResult result (λ done. IsSupported flags ext (tree_of expr.now))
        (IsLeast (HasRefusal flags ext (tree_of expr.now))) }
{
    if let Some(refusal) = flags_fault(flags, ext) {
        return Err(refusal);
    }
    if needs_leave_to_be_empty(expr, flags) {
        return Err(Refusal::MatchesEmpty);
    }
    if has_embedded_end(expr, false) {
        return Err(Refusal::EmbeddedEnd);
    }
    if let Some(count) = excess_positions(expr) {
        return Err(Refusal::PositionLimit(count));
    }
    if ext.min_offset > ext.max_offset {
        return Err(Refusal::OffsetOrder);
    }
    Ok(())
}

/// Whether the expression matches the empty text over the stream that has no byte and has ended, and no flag allows it.
fn needs_leave_to_be_empty(expr: &Expr, flags: Flags) -> bool
    ensures { MatchBool result ((AllowsEmpty flags → ⊥) × Spans [] true (tree_of expr.now) 0 0)
        ((AllowsEmpty flags → ⊥) → Spans [] true (tree_of expr.now) 0 0 → ⊥) }
{
    if flags.contains(Flags::ALLOWEMPTY) {
        return false;
    }
    matches_empty(expr)
}
