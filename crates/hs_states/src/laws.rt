//! Laws of the states of an expression: each is the contract of a function that does nothing.

ghost use Rattle.hs_states.specs.DfaLaws.{StatesHaveOneOrder, StreamsHaveStates};
ghost use Rattle.hs_states.specs.StateSets.{SetsHaveOneNumber};

/// An expression has its states in one order alone.
pub fn states_have_one_order()
    ensures { StatesHaveOneOrder }
{}

/// Each stream has its state among them, where the expression is entered at every offset.
pub fn streams_have_states()
    ensures { StreamsHaveStates }
{}

/// A set, with what stands before, has one number alone.
pub fn sets_have_one_number()
    ensures { SetsHaveOneNumber }
{}
