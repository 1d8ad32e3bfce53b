//! A pattern: an expression of a list, with what is asked of its matches.
use hs_base::ExprId;
use hs_expr::Expr;

/// An expression of a list, with what is asked of its matches.
#[derive(Drop)]
pub struct Pattern {
    /// The identifier that its matches are reported with.
    pub id: ExprId,
    /// Whether the identifier is reported at most once in a stream.
    pub single: bool,
    /// The least end offset of a match, in bytes.
    pub least: u64,
    /// The greatest end offset of a match, in bytes.
    pub greatest: u64,
    /// What it matches.
    pub expr: Expr,
}
