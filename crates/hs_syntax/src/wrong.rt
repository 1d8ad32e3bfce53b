//! Why a form is refused.
use hs_base::Construct;

/// Why some bytes are refused. The place is told by who knows it.
#[derive(Clone, Copy, Debug, PartialEq, Eq)]
pub enum Wrong {
    /// They have no form.
    Syntax,
    /// An escape that isn't known.
    UnknownEscape,
    /// A byte that begins no well-formed encoding, so many bytes behind the first.
    IllFormed(usize),
    /// A construct that isn't supported.
    Unsupported(Construct),
}
