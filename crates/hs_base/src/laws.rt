//! Laws of told, new and last reports: each is the contract of a function that does nothing.

ghost use Rattle.hs_base.specs.Laws.{IsLastOnce, IsNewOnce, IsToldOnce, NewJoins, NewSplits, ToldGrows};
ghost use Rattle.hs_base.specs.Laws.{LastEndAtLastByte, NewEndAboutByte, ToldIsExact, ToldRepeatsNothing};

/// At most one list is told for a stream.
pub fn told_once()
    ensures { IsToldOnce }
{}

/// At most one list is new for bytes after others.
pub fn new_once()
    ensures { IsNewOnce }
{}

/// At most one list is last for a stream.
pub fn last_once()
    ensures { IsLastOnce }
{}

/// A told list grows only at its end as bytes come.
pub fn told_grows()
    ensures { ToldGrows }
{}

/// New lists of bytes in a row join to the new list of them all.
pub fn new_joins()
    ensures { NewJoins }
{}

/// The new list of bytes splits wherever the bytes are split.
pub fn new_splits()
    ensures { NewSplits }
{}

/// A told list has each report of its stream that may go on, and nothing else.
pub fn told_is_exact()
    ensures { ToldIsExact }
{}

/// A told list has no pair twice.
pub fn told_repeats_nothing()
    ensures { ToldRepeatsNothing }
{}

/// The new reports of one byte end before it or behind it: at the length of what came earlier, or one further.
pub fn new_ends_about_byte()
    ensures { NewEndAboutByte }
{}

/// The last reports of a stream end at its length, or one before it, where its last byte may end the last line.
pub fn last_ends_at_last_byte()
    ensures { LastEndAtLastByte }
{}
