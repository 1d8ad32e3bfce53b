//! Laws over the definitions of `specs/`: each is the contract of a function that does nothing.

ghost use Rattle.hs_text.specs.Laws.{IsListOnce, IsBadOnce, NeverListAndBadLine, NeverNeither, HasKnownEntries};

/// A file is a list in at most one way.
pub fn list_once()
    ensures { IsListOnce }
{}

/// A file has at most one first bad line.
pub fn bad_line_once()
    ensures { IsBadOnce }
{}

/// No file is a list and has a bad line.
pub fn never_both()
    ensures { NeverListAndBadLine }
{}

/// No file is neither.
pub fn never_neither()
    ensures { NeverNeither }
{}

/// The entries of a file have flags and parameters that are known, and missing bounds at their missing values.
pub fn known_entries()
    ensures { HasKnownEntries }
{}
