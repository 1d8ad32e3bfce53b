//! Laws over the definitions of `specs/`: each is the contract of a function that does nothing.
ghost use Rattle.hs_stream.specs.Standing.{EndIsLast, FreshStands, WriteMoves};
ghost use Rattle.hs_stream.specs.Streams.{StreamsAreWellFormed};
ghost use Rattle.hs_stream.specs.Writing.{CutsTellNothing, StartsAreAlike, WritesJoin};

/// A stream is one of a database just where it has its digest, and its region is well formed for the database's plan.
pub fn streams_are_well_formed()
    ensures { StreamsAreWellFormed }
{}

/// A stream that was opened, or reset, stands behind no byte.
pub fn fresh_stands()
    ensures { FreshStands }
{}

/// A write moves a stream on by its bytes, and reports what they newly decide.
pub fn write_moves()
    ensures { WriteMoves }
{}

/// A close, or a reset, reports what only the end of the stream decides.
pub fn end_is_last()
    ensures { EndIsLast }
{}

/// Any list of writes reports in total what one write of their bytes reports, and leads to the same stream.
pub fn writes_join()
    ensures { WritesJoin }
{}

/// Two streams behind the same bytes, to which the same bytes are written in whatever pieces, report the same, keep the
/// same region, and report the same at an end.
pub fn cuts_tell_nothing()
    ensures { CutsTellNothing }
{}

/// A stream that was reset goes on as one that was opened.
pub fn starts_are_alike()
    ensures { StartsAreAlike }
{}
