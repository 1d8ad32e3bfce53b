//! Laws of literals in a stream: each is the contract of a function that does nothing.

ghost use Rattle.hs_base.specs.LiteralRowLaws.{LiteralSpansEnd, LiteralsLeave, LiteralsLeaveBehind, LiteralsStep};

/// The bits of a literal move by one for each byte.
pub fn literals_step()
    ensures { LiteralsStep }
{}

/// A literal is left where it was entered at its first byte and its bytes are the last ones.
pub fn literals_leave()
    ensures { LiteralsLeave }
{}

/// A literal behind other pieces is left where those are left before its first byte and its bytes are the last ones.
pub fn literals_leave_behind()
    ensures { LiteralsLeaveBehind }
{}

/// The spans of a literal are where it ends in the text.
pub fn literal_spans_end()
    ensures { LiteralSpansEnd }
{}
