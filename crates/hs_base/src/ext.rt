//! Extended parameters of an expression, and the entries of a list.

use crate::entry::ExprId;
use crate::flags::Flags;

/// The extended parameters of an expression (Hyperscan Developer's Reference Guide, `hs_expr_ext_t`).
#[derive(Clone, Copy, Debug, PartialEq, Eq)]
pub struct Ext {
    /// Which parameters are given, a bit each.
    pub bits: u8,
    /// The least offset in bytes at which a match may end.
    pub min_offset: u64,
    /// The greatest offset in bytes at which a match may end.
    pub max_offset: u64,
}

impl Ext {
    /// The bit of `min_offset`.
    pub const MIN_OFFSET: u8 = 1;
    /// The bit of `max_offset`.
    pub const MAX_OFFSET: u8 = 2;
    /// The bit of `min_length`.
    pub const MIN_LENGTH: u8 = 4;
    /// The bit of `edit_distance`.
    pub const EDIT_DISTANCE: u8 = 8;
    /// The bit of `hamming_distance`.
    pub const HAMMING_DISTANCE: u8 = 16;
    /// No parameter is given: a match may end anywhere.
    pub const NONE: Ext = Ext {
        bits: 0,
        min_offset: 0,
        max_offset: u64::MAX,
    };
}

/// An expression of a list, with what is asked of its matches.
#[derive(Debug, Drop)]
pub struct Entry {
    /// The identifier that the expression is reported with.
    pub id: ExprId,
    /// The flags that are set.
    pub flags: Flags,
    /// The parameters that are given, and the missing values of the others.
    pub ext: Ext,
    /// The expression's bytes as they stand in the list.
    pub text: Vec<u8>,
}
