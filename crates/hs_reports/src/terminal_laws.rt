//! Laws of the ends that terminals give: each is the contract of a function that does nothing.

ghost use Rattle.hs_reports.specs.TerminalLaws.{EndsAreWithin, NotedAreConcerned, TerminalsEnd};

/// The ends that the terminals give an identifier are where its matches end.
pub fn terminals_end()
    ensures { TerminalsEnd }
{}

/// Identifiers are the concerned ones if each other has no end by its words.
pub fn noted_are_concerned()
    ensures { NotedAreConcerned }
{}

/// No end is behind the bytes.
pub fn ends_are_within()
    ensures { EndsAreWithin }
{}
