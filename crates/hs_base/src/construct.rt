//! The forms of the pattern syntax that are refused by name.

use std::fmt;

/// A form of the pattern syntax that is read and refused (PCRE2 pattern syntax; the Hyperscan Developer's Reference
/// Guide, "Unsupported Constructs", lists most of them).
#[derive(Clone, Copy, Debug, PartialEq, Eq)]
pub enum Construct {
    /// A reference to a captured group.
    Backreference,
    /// A Unicode property.
    Property,
    /// `\R`: any newline sequence.
    NewlineSequence,
    /// `\C`: one byte, also within a character.
    AnyByte,
    /// `\K`: the reported start of the match is set here.
    Keep,
    /// `\N`: a character that is no newline.
    NotNewline,
    /// `\X`: an extended grapheme cluster.
    Grapheme,
    /// `\G`: where the search began.
    MatchStart,
    /// A quantifier that gives nothing back.
    Possessive,
    /// A collating element or an equivalence class.
    Collating,
    /// A backtracking verb or a leading directive.
    Verb,
    /// A lookahead or lookbehind assertion.
    Lookaround,
    /// A group that gives nothing back.
    Atomic,
    /// A conditional group.
    Conditional,
    /// A call of a function of the program.
    Callout,
    /// A group that is used again.
    Recursion,
    /// An option setting that isn't known here.
    Option,
}

impl fmt::Display for Construct {
    /// What the form is, as part of a sentence.
    fn fmt<W: fmt::Write>(&self, f: &mut fmt::Formatter<W>) -> fmt::Result {
        match self {
            Construct::Backreference => write!(f, "a reference to a captured group"),
            Construct::Property => write!(f, "a Unicode property"),
            Construct::NewlineSequence => write!(f, "a newline sequence"),
            Construct::AnyByte => write!(f, "one byte of any kind"),
            Construct::Keep => write!(f, "a reset of the match's start"),
            Construct::NotNewline => write!(f, "a character that is no newline"),
            Construct::Grapheme => write!(f, "an extended grapheme cluster"),
            Construct::MatchStart => write!(f, "an assertion of where the search began"),
            Construct::Possessive => write!(f, "a possessive quantifier"),
            Construct::Collating => write!(f, "a collating element"),
            Construct::Verb => write!(f, "a verb or directive"),
            Construct::Lookaround => write!(f, "a lookaround assertion"),
            Construct::Atomic => write!(f, "an atomic group"),
            Construct::Conditional => write!(f, "a conditional group"),
            Construct::Callout => write!(f, "a callout"),
            Construct::Recursion => write!(f, "a group that is used again"),
            Construct::Option => write!(f, "an option that isn't known"),
        }
    }
}
