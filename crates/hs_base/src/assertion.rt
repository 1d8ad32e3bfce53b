//! Assertions: what holds between two bytes of a stream.

/// A test of the place between two bytes, which takes no byte (PCRE pattern syntax, "Circumflex and dollar" and
/// "Simple assertions"). `Holds` in `specs/Assertions.antt` says where each holds.
#[derive(Clone, Copy, Debug, PartialEq, Eq)]
pub enum Assertion {
    /// `\A`, and `^` without multiline: the start of the stream.
    StreamStart,
    /// `^` with multiline: the start of the stream, and behind a line feed that a byte follows.
    LineStart,
    /// `$` with multiline: before a line feed, and at the end of the stream.
    LineEnd,
    /// `\Z`, and `$` without multiline: the end of the stream, and before a line feed that is its last byte.
    EndOrFinalNewline,
    /// `\z`: the end of the stream.
    StreamEnd,
    /// `\b`: one of the two neighbours is a word byte and the other isn't.
    WordBoundary,
    /// `\B`: both neighbours are word bytes, or neither is.
    NotWordBoundary,
}
