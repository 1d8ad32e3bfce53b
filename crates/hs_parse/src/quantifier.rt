//! What may be wrong with a quantifier.
ghost use Rattle.std.specs.Prelude.{◌≡◌, ◌≤◌, [], MatchOption};
ghost use Rattle.hs_parse.specs.Faults.{atom, bounds_faults, quantifier_faults};
ghost use Rattle.hs_parse.specs.Reading.{IsLeastOf, bounds_list};

use crate::parser::MAX_TEXT_LEN;
use hs_base::{Construct, Refusal};

/// The greatest bound of a quantifier.
const MAX_BOUND: u32 = 32_767;

/// Why a quantifier that begins at a place behind an atom is refused: the reason of least number.
pub(crate) fn quantifier_fault(
    at: usize,
    least: u32,
    greatest: Option<u32>,
    possessive: bool,
) -> Option<Refusal>
    requires { at ≤ MAX_TEXT_LEN }
    ensures { MatchOption result
        (quantifier_faults at least greatest possessive atom ≡ [])
        (λ refusal. IsLeastOf refusal (quantifier_faults at least greatest possessive atom)) }
{
    let bounds = bounds_fault(at, least, greatest);
    if possessive && !matches!(bounds, Some(Refusal::Syntax(_))) {
        return Some(Refusal::Unsupported(Construct::Possessive, at as u32));
    }
    bounds
}

/// Why the bounds of a quantifier that begins at a place are refused.
fn bounds_fault(at: usize, least: u32, greatest: Option<u32>) -> Option<Refusal>
    requires { at ≤ MAX_TEXT_LEN }
    ensures { bounds_list result ≡ bounds_faults at least greatest }
{
    if least > MAX_BOUND {
        return Some(Refusal::RepeatLimit(least));
    }
    match greatest {
        None => None,
        Some(bound) if bound > MAX_BOUND => Some(Refusal::RepeatLimit(bound)),
        Some(bound) if bound < least => Some(Refusal::Syntax(at as u32)),
        Some(_) => None,
    }
}
