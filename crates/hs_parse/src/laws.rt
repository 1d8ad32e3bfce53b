//! Laws of the grammar and of faults. Each is the contract of a function that does nothing.

ghost use Rattle.hs_parse.specs.Laws.{OneTree, OneFault, NeverReadAndRefused, AlwaysOne};

/// A text is read as one tree at most.
pub fn one_tree()
    ensures { OneTree }
{}

/// A text has one fault at most.
pub fn one_fault()
    ensures { OneFault }
{}

/// No text is both read and refused.
pub fn never_both()
    ensures { NeverReadAndRefused }
{}

/// Every text is read, or has a fault.
pub fn always_one()
    ensures { AlwaysOne }
{}
