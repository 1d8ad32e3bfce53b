//! Why the reading of a script is broken off.

/// What breaks a script off that may have gone on.
#[derive(Clone, Copy, Debug, PartialEq, Eq)]
pub enum Break {
    /// The source failed.
    Read,
    /// The script is too long.
    Limit,
    /// The sink failed.
    Write,
}
