//! Laws over the definitions of `specs/`: each is the contract of a function that does nothing.

ghost use Rattle.hs_dbfile.specs.Laws.{IsFileOnce, IsPlaceOnce, NeverFileAndPlace};
ghost use Rattle.hs_dbfile.specs.States.{StatesAreOne, StatesReadOnce};

/// Bytes are the database file of at most one list.
pub fn file_once()
    ensures { IsFileOnce }
{}

/// No bytes are a database file and have a place where they stop being one.
pub fn never_both()
    ensures { NeverFileAndPlace }
{}

/// Bytes stop being a database file at one place at most.
pub fn place_once()
    ensures { IsPlaceOnce }
{}

/// What is read of bytes for a digest is one region or one fault. So the state file that is encoded of a region is read
/// back as that region.
pub fn states_read_once()
    ensures { StatesReadOnce }
{}

/// A state file is of one digest and one region, and 42 bytes longer than the region.
pub fn states_are_one()
    ensures { StatesAreOne }
{}
