//! Laws over the definitions of `specs/`: each is the contract of a function that does nothing.

ghost use Rattle.hs_request.specs.Laws.{AreTakenExactly};

/// Words are a request exactly where the command line, as `clap` is given it, finds no fault in them.
pub fn taken_exactly()
    ensures { AreTakenExactly }
{}
