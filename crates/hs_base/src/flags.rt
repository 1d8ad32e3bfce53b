//! The flags of an expression.

/// The flags of an expression, a bit each (Hyperscan Developer's Reference Guide, "Compiling Patterns").
#[derive(Clone, Copy, Debug, PartialEq, Eq)]
pub struct Flags(pub u16);

impl Flags {
    ghost use Rattle.std.specs.Prelude.{◌≡◌, ◌↔◌, bit_and, bit_or, IsTrue};

    /// No flag at all.
    pub const NONE: Flags = Flags(0);
    /// `i`: letters match in both cases.
    pub const CASELESS: Flags = Flags(1);
    /// `s`: a dot matches every byte.
    pub const DOTALL: Flags = Flags(2);
    /// `m`: `^` and `$` match at lines too.
    pub const MULTILINE: Flags = Flags(4);
    /// `H`: the identifier is reported at most once in a stream.
    pub const SINGLEMATCH: Flags = Flags(8);
    /// `V`: the expression may match the empty text.
    pub const ALLOWEMPTY: Flags = Flags(16);
    /// `8`: the expression is over code points in UTF-8.
    pub const UTF8: Flags = Flags(32);
    /// `W`: classes by Unicode properties.
    pub const UCP: Flags = Flags(64);
    /// `P`: the expression may be matched by a wider one.
    pub const PREFILTER: Flags = Flags(128);
    /// `L`: the start of a match is reported.
    pub const SOM_LEFTMOST: Flags = Flags(256);
    /// `C`: the expression combines others.
    pub const COMBINATION: Flags = Flags(512);
    /// `Q`: the expression isn't reported.
    pub const QUIET: Flags = Flags(1024);

    /// The flags of both.
    pub const fn union(self, other: Flags) -> Flags
        ensures { result.0 ≡ bit_or self.0 other.0 }
    {
        Flags(self.0 | other.0)
    }

    /// Whether each of the other flags is set.
    pub const fn contains(self, other: Flags) -> bool
        ensures { IsTrue result ↔ (bit_and self.0 other.0 ≡ other.0) }
    {
        self.0 & other.0 == other.0
    }
}
