//! The identifiers of a list.

use hs_base::ExprId;

/// An identifier that is reported.
#[derive(Clone, Copy)]
pub struct Identifier {
    /// The identifier.
    pub id: ExprId,
    /// Whether it is reported at most once in a stream.
    pub single: bool,
}
