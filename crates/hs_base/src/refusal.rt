//! Why lists of expressions are refused.
ghost use Rattle.std.specs.Prelude.{◌≡◌};
ghost use Rattle.hs_base.specs.Refusals.{number_of};

use crate::construct::Construct;
use crate::entry::ExprId;
use std::fmt;

/// The most positions that an expression may have; one with more is refused.
pub const MAX_POSITIONS: u32 = 512;

/// Why a list of expressions is refused. Places are offsets in bytes in the text of an expression; entries and lines
/// are counted from 1.
#[derive(Clone, Copy, Debug, PartialEq, Eq)]
pub enum Refusal {
    /// At this place the text has no form.
    Syntax(u32),
    /// The escape that begins at this place isn't known.
    UnknownEscape(u32),
    /// The construct that begins at this place isn't supported.
    Unsupported(Construct, u32),
    /// This flag, one bit, isn't supported.
    UnsupportedFlag(u32),
    /// This extended parameter, one bit, isn't supported.
    UnsupportedParameter(u32),
    /// The expression matches the empty text, which has to be allowed by a flag.
    MatchesEmpty,
    /// Bytes may still be consumed behind an assertion of the stream's end.
    EmbeddedEnd,
    /// A bound of a quantifier, given here, is too great.
    RepeatLimit(u32),
    /// The expression has too many positions: so many.
    PositionLimit(u32),
    /// The text is too long.
    LengthLimit,
    /// Too many groups are open at once.
    DepthLimit,
    /// The list has too many entries.
    CountLimit,
    /// The state of a stream would take too many bytes: so many.
    StateLimit(u64),
    /// An earlier entry of this identifier differs in whether it is reported at most once.
    MixedSingle(ExprId),
    /// The least end offset is above the greatest.
    OffsetOrder,
    /// This line of the pattern file has another form.
    ListLine(u64),
}

impl Refusal {
    /// The number of the refusal, by which several refusals of one expression are ordered.
    pub fn number(&self) -> u8
        ensures { result ≡ number_of self.now }
    {
        match self {
            Refusal::Syntax(_) => 1,
            Refusal::UnknownEscape(_) => 2,
            Refusal::Unsupported(_, _) => 3,
            Refusal::UnsupportedFlag(_) => 4,
            Refusal::UnsupportedParameter(_) => 5,
            Refusal::MatchesEmpty => 6,
            Refusal::EmbeddedEnd => 7,
            Refusal::RepeatLimit(_) => 8,
            Refusal::PositionLimit(_) => 9,
            Refusal::LengthLimit => 10,
            Refusal::DepthLimit => 11,
            Refusal::CountLimit => 12,
            Refusal::StateLimit(_) => 13,
            Refusal::MixedSingle(_) => 14,
            Refusal::OffsetOrder => 15,
            Refusal::ListLine(_) => 16,
        }
    }
}

impl fmt::Display for Refusal {
    /// The reason as a sentence, without its full stop.
    fn fmt<W: fmt::Write>(&self, f: &mut fmt::Formatter<W>) -> fmt::Result {
        match self {
            Refusal::Syntax(at) => write!(f, "no form of the pattern syntax stands at byte {at}"),
            Refusal::UnknownEscape(at) => write!(f, "the escape at byte {at} isn't known"),
            Refusal::Unsupported(construct, at) => write!(
                f,
                "{construct} at byte {at} isn't supported"
            ),
            Refusal::UnsupportedFlag(bit) => write!(f, "the flag of bit {bit} isn't supported"),
            Refusal::UnsupportedParameter(bit) => write!(
                f,
                "the parameter of bit {bit} isn't supported"
            ),
            Refusal::MatchesEmpty => write!(
                f,
                "the expression matches the empty text, which no flag allows"
            ),
            Refusal::EmbeddedEnd => write!(
                f,
                "bytes may be consumed behind an assertion of the stream's end"
            ),
            Refusal::RepeatLimit(bound) => write!(
                f,
                "the bound {bound} of a quantifier is too great"
            ),
            Refusal::PositionLimit(count) => write!(
                f,
                "the expression has too many positions, {count}"
            ),
            Refusal::LengthLimit => write!(f, "the expression is too long"),
            Refusal::DepthLimit => write!(f, "too many groups are open at once"),
            Refusal::CountLimit => write!(f, "the list has too many entries"),
            Refusal::StateLimit(bytes) => write!(
                f,
                "the state of a stream would take too many bytes, {bytes}"
            ),
            Refusal::MixedSingle(id) => {
                write!(
                    f,
                    "entries of identifier {} differ in whether it is reported at most once",
                    id.0
                )
            }
            Refusal::OffsetOrder => write!(f, "the least end offset is above the greatest"),
            Refusal::ListLine(line) => write!(
                f,
                "line {line} of the pattern file has another form"
            ),
        }
    }
}
