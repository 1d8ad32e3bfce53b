//! Kinds of roles.

ghost use Rattle.std.specs.Prelude.{◌≡◌};

/// What is kept of a piece between two bytes, and so how its role is run.
#[derive(Clone, Copy, Debug, PartialEq, Eq)]
pub enum Kind {
    /// Nothing: it is a first expression before a literal, and is run over the last bytes once that has been found.
    LookBack,
    /// The positions that are reached.
    Positions,
    /// The number of a state. No role is of this kind yet.
    Dfa,
    /// Nothing: it is a first literal, or one behind a piece that looks back.
    BareLiteral,
    /// The entries of a literal.
    Literal,
    /// The farthest entry of a repeat without an end.
    First,
    /// The nearest entry of a repeat from none or one.
    Last,
    /// Each entry of a repeat.
    Ring,
}

impl Kind {
    ghost use Rattle.hs_rose.specs.Kinds.{is_literal};

    /// Whether the piece is a literal.
    pub fn is_literal(self) -> bool
        ensures { result ≡ is_literal self }
    {
        matches!(self, Kind::BareLiteral | Kind::Literal)
    }
}
