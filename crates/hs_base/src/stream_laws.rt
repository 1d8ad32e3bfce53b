//! Laws of a stream as its bytes come: each is the contract of a function that does nothing.

ghost use Rattle.hs_base.specs.Laws.{ReportsStay, ReportsStayAtEnd, SpansNeedNoLaterByte, SpansStay};

/// A span of a stream that may go on is one of each longer stream, ended or not.
pub fn spans_stay()
    ensures { SpansStay }
{}

/// A span that ends before the last byte that is known needs no later byte. At the last known byte's end this is
/// false: `\b` there waits for the next byte.
pub fn spans_need_no_later_byte()
    ensures { SpansNeedNoLaterByte }
{}

/// A report of a stream that may go on is one of each longer stream, ended or not.
pub fn reports_stay()
    ensures { ReportsStay }
{}

/// A report before the end is one after it.
pub fn reports_stay_at_end()
    ensures { ReportsStayAtEnd }
{}
