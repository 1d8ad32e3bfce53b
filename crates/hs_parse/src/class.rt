//! Classes of characters: `[`, an optional `^`, items, `]`.
ghost use Rattle.std.specs.Prelude.{◌≡◌, ℕ, ◌<◌, ◌≤◌, not, if◌then◌else◌, length, MatchResult};
ghost use Rattle.hs_base.specs.ByteSets.{has, members};
ghost use Rattle.hs_parse.specs.Classes.{is_negated, items_start};
ghost use Rattle.hs_parse.specs.Tokens.{one_of, faulty, ClassToken};
ghost use Rattle.hs_parse.specs.Reading.{AreItemsOf};

use crate::item::{Item, item_at};
use crate::parser::MAX_TEXT_LEN;
use crate::set::insert_where;
use hs_base::{ByteSet, Refusal};
use hs_syntax::Mode;

/// The bytes of the class that begins at a place, and the place behind it, or why it is refused.
pub(crate) fn class_at(text: &[u8], mode: Mode, at: usize) -> Result<(ByteSet, usize), Refusal>
    requires within { at < length text.now }
    requires short { length text.now ≤ MAX_TEXT_LEN }
    ensures { MatchResult result
        (λ class. ClassToken text.now mode at (one_of mode (members class.0)) class.1)
        (λ refusal. ClassToken text.now mode at (faulty refusal) at) }
{
    let Some((set, close)) = items_of(text, mode, items_start(text, at))? else {
        return Err(Refusal::Syntax(at as u32));
    };
    Ok((class_of(text, at, set), close + 1))
}

/// Where the items of the class that begins at a place begin.
pub(crate) fn items_start(text: &[u8], at: usize) -> usize
    requires { at < MAX_TEXT_LEN }
    ensures { result ≡ items_start text.now at }
{
    if is_negated(text, at) { at + 2 } else { at + 1 }
}

/// The bytes of the class that begins at a place, by those that its items have.
fn class_of(text: &[u8], at: usize, set: ByteSet) -> ByteSet
    requires { at < MAX_TEXT_LEN }
    ensures { (b : ℕ) → b < 256 → has result b ≡ (if is_negated text.now at then not (has set b) else has set b) }
{
    if is_negated(text, at) {
        set.complement()
    } else {
        set
    }
}

/// Whether the class that begins at a place is of the bytes that its items don't have.
pub(crate) fn is_negated(text: &[u8], at: usize) -> bool
    requires { at < MAX_TEXT_LEN }
    ensures { result ≡ is_negated text.now at }
{
    matches!(text.get(at + 1), Some(b'^'))
}

/// The bytes of the items of a class, from their start, and the place of the `]` behind them; `None` where they go on
/// to the end of the text.
fn items_of(text: &[u8], mode: Mode, start: usize) -> Result<Option<(ByteSet, usize)>, Refusal>
    requires within { start ≤ length text.now }
    requires short { length text.now ≤ MAX_TEXT_LEN }
    ensures { AreItemsOf text.now mode start result }
{
    let mut set = ByteSet::EMPTY;
    let mut here = start;
    loop {
        match item_at(text, mode, start, here) {
            Item::Bytes(test, end) => {
                insert_where(&mut set, test);
                here = end;
            }
            Item::Close => return Ok(Some((set, here))),
            Item::End => return Ok(None),
            Item::Refused(refusal) => return Err(refusal),
        }
    }
}
