//! Contexts by their numbers, by which tables keep a row for each.

ghost use Rattle.std.specs.Prelude.{◌≡◌, ◌<◌, ◌/◌, ◌%◌};
ghost use Rattle.hs_base.specs.Contexts.{context_number};
ghost use Rattle.hs_engine.specs.Between.{between};
ghost use Rattle.hs_limex.specs.Numbers.{next_numbered, prev_numbered};

use hs_base::{Next, Prev};

/// How many contexts there are.
pub(crate) const CONTEXT_COUNT: usize = 24;
/// How many values `Next` has.
pub(crate) const NEXT_COUNT: usize = Next::COUNT as usize;

/// The number of a context.
pub(crate) fn number_of(prev: Prev, next: Next) -> usize
    ensures number { result ≡ context_number (between prev next) }
    ensures few { result < 24 }
{
    NEXT_COUNT * prev.number() as usize + next.number() as usize
}

/// The context of a number.
pub(crate) fn context_of(number: usize) -> (Prev, Next)
    ensures { (result.0 ≡ prev_numbered (number / 6)) × (result.1 ≡ next_numbered (number % 6)) }
{
    (prev_of(number / NEXT_COUNT), next_of(number % NEXT_COUNT))
}

/// What stands before, by its number.
fn prev_of(number: usize) -> Prev
    ensures { result ≡ prev_numbered number }
{
    match number {
        0 => Prev::Start,
        1 => Prev::Word,
        2 => Prev::Newline,
        _ => Prev::Other,
    }
}

/// What comes next, by its number.
pub(crate) fn next_of(number: usize) -> Next
    ensures { result ≡ next_numbered number }
{
    match number {
        0 => Next::Word,
        1 => Next::Newline,
        2 => Next::Other,
        3 => Next::End,
        4 => Next::FinalNewline,
        _ => Next::Unknown,
    }
}
