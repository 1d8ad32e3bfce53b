//! The line of a refused list.
ghost use Rattle.std.specs.Prelude.{◌≡◌, ℕ, ◌+◌, ◌≤◌, ◌++◌, length, take, drop, codes, decimal};
ghost use Rattle.hs_base.specs.Refusals.{number_of};
ghost use Rattle.hs_text.specs.RefusalValues.{word_of as text_of_word, name_of as text_of_name};
ghost use Rattle.hs_text.specs.RefusalValues.{values_of as texts_of_values};
ghost use Rattle.hs_text.specs.RefusalLines.{entry_text, spaced, refusal_line as line_of_refusal};
ghost use Rattle.hs_text.specs.declared.line_buffer.TheConstants.{LINE_LEN};

use crate::line_buffer::{LINE_LEN, append, append_number, append_short_number};
use crate::refusal_values::{Values, name_of, values_of, word_of};
use hs_base::{Construct, ExprId, Refusal};

/// Makes the line `refused ENTRY ID NUMBER NAME VALUES` of a refusal. The entry is given by its number, counted from 1,
/// and its identifier; a refusal of a line of the list is one of no entry, and has `- -` there. The answer is the
/// line's length; the buffer behind it stays as it was.
pub fn refusal_line(
    entry: Option<(u32, ExprId)>,
    refusal: &Refusal,
    buf: &mut [u8; LINE_LEN],
) -> usize
    requires { length buf.old ≡ LINE_LEN }
    ensures within { result ≤ LINE_LEN }
    ensures text { take result buf.new ≡ line_of_refusal entry refusal.now }
    ensures rest { drop result buf.new ≡ drop result buf.old }
{
    let len = append(buf, 0, b"refused ");
    let len = append_entry(buf, len, entry);
    let len = append(buf, len, b" ");
    let len = append_short_number(buf, len, u32::from(refusal.number()));
    let len = append(buf, len, b" ");
    let len = append(buf, len, name_of(refusal));
    let len = append_values(buf, len, refusal);
    append(buf, len, b"\n")
}

/// Puts the entry's number and identifier behind the first `len` bytes.
fn append_entry(buf: &mut [u8; LINE_LEN], len: usize, entry: Option<(u32, ExprId)>) -> usize
    requires whole { length buf.old ≡ LINE_LEN }
    requires room { len + 21 ≤ LINE_LEN }
    ensures whole { length buf.new ≡ LINE_LEN }
    ensures grows { len ≤ result }
    ensures within { result ≤ len + 21 }
    ensures text { take result buf.new ≡ take len buf.old ++ entry_text entry }
    ensures rest { (k : ℕ) → result ≤ k → drop k buf.new ≡ drop k buf.old }
{
    match entry {
        Some((number, id)) => {
            let len = append_short_number(buf, len, number);
            let len = append(buf, len, b" ");
            append_short_number(buf, len, id.0)
        }
        None => append(buf, len, b"- -"),
    }
}

/// Puts the values of a refusal behind the first `len` bytes, a space before each.
fn append_values(buf: &mut [u8; LINE_LEN], len: usize, refusal: &Refusal) -> usize
    requires whole { length buf.old ≡ LINE_LEN }
    requires room { len + 38 ≤ LINE_LEN }
    ensures whole { length buf.new ≡ LINE_LEN }
    ensures grows { len ≤ result }
    ensures within { result ≤ len + 38 }
    ensures text { take result buf.new ≡ take len buf.old ++ spaced (texts_of_values refusal.now) }
    ensures rest { (k : ℕ) → result ≤ k → drop k buf.new ≡ drop k buf.old }
{
    match values_of(refusal) {
        Values::Nothing => len,
        Values::Number(number) => append_value(buf, len, number),
        Values::Place(construct, at) => {
            let len = append_word(buf, len, construct);
            append_value(buf, len, at)
        }
    }
}

/// Puts a space and the word of a construct behind the first `len` bytes.
fn append_word(buf: &mut [u8; LINE_LEN], len: usize, construct: Construct) -> usize
    requires whole { length buf.old ≡ LINE_LEN }
    requires room { len + 17 ≤ LINE_LEN }
    ensures whole { length buf.new ≡ LINE_LEN }
    ensures grows { len ≤ result }
    ensures within { result ≤ len + 17 }
    ensures text { take result buf.new ≡ take len buf.old ++ (codes " " ++ text_of_word construct) }
    ensures rest { (k : ℕ) → result ≤ k → drop k buf.new ≡ drop k buf.old }
{
    let len = append(buf, len, b" ");
    append(buf, len, word_of(construct))
}

/// Puts a space and a number behind the first `len` bytes.
fn append_value(buf: &mut [u8; LINE_LEN], len: usize, number: u64) -> usize
    requires whole { length buf.old ≡ LINE_LEN }
    requires room { len + 21 ≤ LINE_LEN }
    ensures whole { length buf.new ≡ LINE_LEN }
    ensures grows { len ≤ result }
    ensures within { result ≤ len + 21 }
    ensures text { take result buf.new ≡ take len buf.old ++ (codes " " ++ decimal number) }
    ensures rest { (k : ℕ) → result ≤ k → drop k buf.new ≡ drop k buf.old }
{
    let len = append(buf, len, b" ");
    append_number(buf, len, number)
}
