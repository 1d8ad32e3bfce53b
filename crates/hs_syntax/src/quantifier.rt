//! Quantifiers.
ghost use Rattle.std.specs.Prelude.{◌≡◌, ◌≤◌, ◌+◌, length};
ghost use Rattle.hs_syntax.specs.Quantifiers.{quantifier_at, first_of, second_of, brace_at};

use crate::form::Form;
use crate::name::is_byte_at;
use crate::number::{Number, decimal_at};

/// The quantifier of these bounds that ends at a place, where a mark may follow.
#[tactic(auto, unfolding(crate::specs::Quantifiers::quantifier_at))]
pub(crate) fn quantifier_at(least: u32, greatest: Option<u32>, bytes: &[u8], at: usize) -> Form
    requires { at ≤ length bytes.now }
    ensures { result ≡ quantifier_at least greatest bytes.now at }
{
    match bytes.get(at) {
        Some(b'?') => Form::Quantifier(least, greatest, false, at + 1),
        Some(b'+') => Form::Quantifier(least, greatest, true, at + 1),
        _ => Form::Quantifier(least, greatest, false, at),
    }
}

/// What the `{` that the bytes begin with begins.
#[tactic(auto, unfolding(crate::specs::Quantifiers::brace_at))]
pub(crate) fn brace_at(bytes: &[u8]) -> Form
    requires { 1 ≤ length bytes.now }
    ensures { result ≡ brace_at bytes.now }
{
    let first = decimal_at(bytes, 1);
    if first.count == 0 {
        return Form::Character(b'{' as u32, 1);
    }
    first_of(bytes, first, first.count + 1)
}

/// What the `{` begins, by the first bound and the place behind it.
fn first_of(bytes: &[u8], first: Number, at: usize) -> Form
    requires { at ≤ length bytes.now }
    ensures { result ≡ first_of bytes.now first at }
{
    match bytes.get(at) {
        Some(b'}') => quantifier_at(first.value, Some(first.value), bytes, at + 1),
        Some(b',') => {
            let second = decimal_at(bytes, at + 1);
            second_of(bytes, first, second, at + 1 + second.count)
        }
        _ => Form::Character(b'{' as u32, 1),
    }
}

/// What the `{` begins, by both bounds and the place behind the second one.
fn second_of(bytes: &[u8], first: Number, second: Number, at: usize) -> Form
    requires { at ≤ length bytes.now }
    ensures { result ≡ second_of bytes.now first second at }
{
    if !is_byte_at(b'}', bytes, at) {
        return Form::Character(b'{' as u32, 1);
    }
    let greatest = if second.count == 0 {
        None
    } else {
        Some(second.value)
    };
    quantifier_at(first.value, greatest, bytes, at + 1)
}
