//! Laws of ends that are gathered node by node: each is the contract of a function that does nothing.

ghost use Rattle.hs_reports.specs.Gathering.{GatheringBegins, GatheringEnds, GatheringGoesOn, GatheringPasses};

/// A table without an end has the ends of no node.
pub fn gathering_begins()
    ensures { GatheringBegins }
{}

/// Nodes that are left nowhere are passed over.
pub fn gathering_passes()
    ensures { GatheringPasses }
{}

/// The ends of the terminals of one node more are added.
pub fn gathering_goes_on()
    ensures { GatheringGoesOn }
{}

/// Behind the last node the table has the ends of each identifier.
pub fn gathering_ends()
    ensures { GatheringEnds }
{}
