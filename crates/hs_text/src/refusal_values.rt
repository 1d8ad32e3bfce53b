//! The name of a refusal and its values, as they stand in its line.
ghost use Rattle.std.specs.Prelude.{◌≡◌, ◌≤◌, length};
ghost use Rattle.hs_text.specs.RefusalValues.{word_of as word, name_of as name, values_of as values};
ghost use Rattle.hs_text.specs.ValueTexts.{texts_of};

use hs_base::{Construct, Refusal};

/// The values of a refusal.
#[derive(Clone, Copy)]
pub(crate) enum Values {
    /// It has none.
    Nothing,
    /// One number.
    Number(u64),
    /// A construct and a number.
    Place(Construct, u64),
}

/// The word of a construct.
pub(crate) fn word_of(construct: Construct) -> &'static [u8]
    ensures text { result.now ≡ word construct }
    ensures short { length result.now ≤ 16 }
{
    match construct {
        Construct::Backreference => b"backreference",
        Construct::Property => b"property",
        Construct::NewlineSequence => b"newline_sequence",
        Construct::AnyByte => b"any_byte",
        Construct::Keep => b"keep",
        Construct::NotNewline => b"not_newline",
        Construct::Grapheme => b"grapheme",
        Construct::MatchStart => b"match_start",
        Construct::Possessive => b"possessive",
        Construct::Collating => b"collating",
        Construct::Verb => b"verb",
        Construct::Lookaround => b"lookaround",
        Construct::Atomic => b"atomic",
        Construct::Conditional => b"conditional",
        Construct::Callout => b"callout",
        Construct::Recursion => b"recursion",
        Construct::Option => b"option",
    }
}

/// The name of a refusal.
pub(crate) fn name_of(refusal: &Refusal) -> &'static [u8]
    ensures text { result.now ≡ name refusal.now }
    ensures short { length result.now ≤ 20 }
{
    match refusal {
        Refusal::Syntax(_) => b"Syntax",
        Refusal::UnknownEscape(_) => b"UnknownEscape",
        Refusal::Unsupported(_, _) => b"Unsupported",
        Refusal::UnsupportedFlag(_) => b"UnsupportedFlag",
        Refusal::UnsupportedParameter(_) => b"UnsupportedParameter",
        Refusal::MatchesEmpty => b"MatchesEmpty",
        Refusal::EmbeddedEnd => b"EmbeddedEnd",
        Refusal::RepeatLimit(_) => b"RepeatLimit",
        Refusal::PositionLimit(_) => b"PositionLimit",
        Refusal::LengthLimit => b"LengthLimit",
        Refusal::DepthLimit => b"DepthLimit",
        Refusal::CountLimit => b"CountLimit",
        Refusal::StateLimit(_) => b"StateLimit",
        Refusal::MixedSingle(_) => b"MixedSingle",
        Refusal::OffsetOrder => b"OffsetOrder",
        Refusal::ListLine(_) => b"ListLine",
    }
}

/// The values of a refusal.
pub(crate) fn values_of(refusal: &Refusal) -> Values
    ensures { texts_of result ≡ values refusal.now }
{
    match refusal {
        Refusal::Syntax(at) => Values::Number(u64::from(*at)),
        Refusal::UnknownEscape(at) => Values::Number(u64::from(*at)),
        Refusal::Unsupported(construct, at) => Values::Place(*construct, u64::from(*at)),
        Refusal::UnsupportedFlag(bit) => Values::Number(u64::from(*bit)),
        Refusal::UnsupportedParameter(bit) => Values::Number(u64::from(*bit)),
        Refusal::MatchesEmpty => Values::Nothing,
        Refusal::EmbeddedEnd => Values::Nothing,
        Refusal::RepeatLimit(bound) => Values::Number(u64::from(*bound)),
        Refusal::PositionLimit(count) => Values::Number(u64::from(*count)),
        Refusal::LengthLimit => Values::Nothing,
        Refusal::DepthLimit => Values::Nothing,
        Refusal::CountLimit => Values::Nothing,
        Refusal::StateLimit(bytes) => Values::Number(*bytes),
        Refusal::MixedSingle(id) => Values::Number(u64::from(id.0)),
        Refusal::OffsetOrder => Values::Nothing,
        Refusal::ListLine(line) => Values::Number(*line),
    }
}
