//! What is reported of a stream: identifiers and the offsets at which matches end.

/// The identifier that an expression is reported with. Several expressions may share one.
#[derive(Clone, Copy, Debug, PartialEq, Eq, PartialOrd, Ord, Hash)]
pub struct ExprId(pub u32);

/// One match, as it is reported.
#[derive(Clone, Copy, Debug, PartialEq, Eq)]
pub struct Report {
    /// The identifier of the expression that matches.
    pub id: ExprId,
    /// The offset in bytes behind the last byte of the match.
    pub to: u64,
}

/// The greatest offset of a stream, which has at most so many bytes.
pub const MAX_OFFSET: u64 = 9_223_372_036_854_775_807;
