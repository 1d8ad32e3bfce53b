//! The engines that are judged. A further one is an `impl` here and a line in `ask_each`. It is `#[cfg(test)]`.
ghost use Rattle.std.specs.Prelude.{◌≡◌, ◌≤◌, ◌<◌, false, IfOk};
ghost use Rattle.hs_base.specs.EndAssertions.{has_embedded_end};
ghost use Rattle.hs_base.specs.WrittenOut.{IsPlain, count, write_out};
ghost use Rattle.hs_expr.specs.Meaning.{tree_of};

use crate::spans::{Spans, judge_leaving, judge_spans};
use crate::verdicts::Verdict;
use hs_base::{ByteSet, Mask};
use hs_engine::{Automaton, Engine};
use hs_expr::{Expr, has_embedded_end, is_plain, positions};
use hs_glushkov::build;
use hs_limex::Limex;
use hs_nfa::Plain;
use hs_repeat::{First, Last, Ring};
use hs_rows::Text;
use std::alloc::Global;
use std::test::Fail;

/// An engine that is judged.
pub(crate) trait Judged: Engine + Drop + Sized {
    /// The engine of the expression, and where that matches no byte, if it runs such expressions.
    fn of(alloc: Global, expr: &Expr) -> Result<Option<(Self, Mask)>, Fail>;
}

/// What each engine is asked.
#[derive(Clone, Copy)]
pub(crate) enum Question<'a, 'b> {
    /// Where an expression ends.
    Spans(&'a Spans),
    /// Whether an expression ends behind one text.
    Leaving(&'a Expr, &'b Text, bool),
}

/// Asks each engine.
pub(crate) fn ask_each(alloc: Global, question: Question) -> Verdict {
    ask::<Plain>(alloc, question)?;
    ask::<Limex>(alloc, question)?;
    ask::<First>(alloc, question)?;
    ask::<Last>(alloc, question)?;
    ask::<Ring>(alloc, question)
}

/// Asks an engine, which is to answer what is wanted.
fn ask<E: Judged>(alloc: Global, question: Question) -> Verdict {
    match question {
        Question::Spans(spans) => judge_spans::<E>(alloc, spans),
        Question::Leaving(expr, text, wanted) => judge_leaving::<E>(alloc, expr, text, wanted),
    }
}

/// The automaton of an expression that `build` takes.
pub(crate) fn automaton_of(alloc: Global, expr: &Expr) -> Result<Option<Automaton>, Fail> {
    if is_plain(expr) && positions(expr) <= 512 && !has_embedded_end(expr, false) {
        Ok(Some(build(alloc, expr)?))
    } else {
        Ok(None)
    }
}

impl Judged for Plain {
    fn of(alloc: Global, expr: &Expr) -> Result<Option<(Plain, Mask)>, Fail> {
        let Some(automaton) = automaton_of(alloc, expr)? else {
            return Ok(None);
        };
        let null = automaton.null();
        Ok(Some((Plain::new(automaton), null)))
    }
}

impl Judged for Limex {
    fn of(alloc: Global, expr: &Expr) -> Result<Option<(Limex, Mask)>, Fail> {
        let Some(automaton) = automaton_of(alloc, expr)? else {
            return Ok(None);
        };
        Ok(Some((Limex::build(alloc, &automaton)?, automaton.null())))
    }
}

/// The set and the bounds of a repeat of one set, and where that matches no byte.
fn repeat_of(expr: &Expr) -> Option<(ByteSet, u32, Option<u32>, Mask)> {
    let Expr::Repeat(body, least, greatest) = expr else {
        return None;
    };
    let null = if *least == 0 {
        Mask::all()
    } else {
        Mask::empty()
    };
    match **body {
        Expr::Class(set) => Some((set, *least, *greatest, null)),
        _ => None,
    }
}

impl Judged for First {
    fn of(_alloc: Global, expr: &Expr) -> Result<Option<(First, Mask)>, Fail> {
        Ok(match repeat_of(expr) {
            Some((set, least @ 1..=32_767, None, null)) => Some((First::new(set, least), null)),
            _ => None,
        })
    }
}

impl Judged for Last {
    fn of(_alloc: Global, expr: &Expr) -> Result<Option<(Last, Mask)>, Fail> {
        Ok(match repeat_of(expr) {
            Some((set, 0 | 1, Some(greatest @ 1..=32_767), null)) => {
                Some((Last::new(set, greatest), null))
            }
            _ => None,
        })
    }
}

impl Judged for Ring {
    fn of(_alloc: Global, expr: &Expr) -> Result<Option<(Ring, Mask)>, Fail> {
        Ok(match repeat_of(expr) {
            Some((set, least, Some(greatest @ 1..=32_767), null)) if least <= greatest => {
                Some((Ring::new(set, least, greatest), null))
            }
            _ => None,
        })
    }
}
