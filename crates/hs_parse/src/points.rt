//! The code points that may stand where a token of one code point begins.
ghost use Rattle.std.specs.Prelude.{◌≡◌, ◌≤◌, ◌<◌, false, [], ◌∷◌, length, IfOk};
ghost use Rattle.hs_parse.specs.Spots.{form_of};
ghost use Rattle.hs_parse.specs.Points.{test_of, is_point_by, AreRanges, ArePoints};
ghost use Rattle.hs_parse.specs.PointReading.{IsPoint, AreClassPoints, HaveItems};

use crate::class::{is_negated, items_start};
use crate::item::{Item, item_at};
use crate::parser::MAX_TEXT_LEN;
use crate::point_set::{point_set, push_points};
use crate::set::Test;
use crate::spot::Spot;
use hs_syntax::{Form, Mode, form_at};
use std::alloc::{AllocError, Global};

/// The code points that may stand where a token of one code point begins, as ranges that rise and don't touch.
pub(crate) fn points_at(
    alloc: Global,
    text: &[u8],
    start: Spot,
) -> Result<Vec<(u32, u32)>, AllocError>
    requires there { IsPoint text.now start }
    requires within { start.place ≤ length text.now }
    requires short { length text.now ≤ MAX_TEXT_LEN }
    ensures { IfOk result (λ ranges. ArePoints text.now start ranges.items) }
{
    match test_at(text, start) {
        Some(test) => form_points(alloc, test),
        None => class_points(alloc, text, start.mode, start.place),
    }
}

/// The test of the form that begins at a spot, where it is one character.
fn test_at(text: &[u8], start: Spot) -> Option<Test>
    requires { start.place ≤ length text.now }
    ensures { result ≡ test_of start.mode (form_of text.now start) }
{
    test_of(start.mode, form_at(start.mode, &text[start.place..]))
}

/// The test of a form that is one character.
fn test_of(mode: Mode, form: Form) -> Option<Test>
    ensures { result ≡ test_of mode form }
{
    match form {
        Form::Any => Some(Test::Any(mode.dotall)),
        Form::Character(code, _) => Some(Test::Range(mode.caseless, code, code)),
        Form::Class(class, negated, _) => Some(Test::Class(class, negated)),
        Form::End
        | Form::Skipped(_, _)
        | Form::Setting(_, _)
        | Form::Opening(_, _)
        | Form::Closing
        | Form::Bar
        | Form::Bracket
        | Form::Assert(_, _)
        | Form::Quantifier(_, _, _, _)
        | Form::Refused(_) => None,
    }
}

/// The code points that pass the test.
fn form_points(alloc: Global, test: Test) -> Result<Vec<(u32, u32)>, AllocError>
    ensures { IfOk result (λ points. AreRanges (is_point_by false (test ∷ [])) points.items) }
{
    let mut all = Vec::new(alloc);
    push_points(alloc, test, &mut all)?;
    point_set(alloc, false, all)
}

/// The code points of the class that begins at a place, which is closed.
fn class_points(
    alloc: Global,
    text: &[u8],
    mode: Mode,
    at: usize,
) -> Result<Vec<(u32, u32)>, AllocError>
    requires within { at < length text.now }
    requires short { length text.now ≤ MAX_TEXT_LEN }
    ensures { IfOk result (λ points. AreClassPoints text.now mode at points.items) }
{
    let all = item_points(alloc, text, mode, items_start(text, at))?;
    point_set(alloc, is_negated(text, at), all)
}

/// The code points of the items of a class, from their start as far as they go.
fn item_points(
    alloc: Global,
    text: &[u8],
    mode: Mode,
    start: usize,
) -> Result<Vec<(u32, u32)>, AllocError>
    requires within { start ≤ length text.now }
    requires short { length text.now ≤ MAX_TEXT_LEN }
    ensures { IfOk result (λ points. HaveItems text.now mode start points.items) }
{
    let mut all = Vec::new(alloc);
    let mut here = start;
    loop {
        match item_at(text, mode, start, here) {
            Item::Bytes(test, end) => {
                push_points(alloc, test, &mut all)?;
                here = end;
            }
            Item::End | Item::Close | Item::Refused(_) => return Ok(all),
        }
    }
}
