//! Laws of contexts: each is the contract of a function that does nothing.

ghost use Rattle.hs_base.specs.ContextLaws.{AssertionsSeeContexts, ContextsFollow};

/// An assertion holds at an offset exactly where it allows the context there.
pub fn assertions_see_contexts()
    ensures { AssertionsSeeContexts }
{}

/// In the stream in which a context follows some bytes, it is the context at their end.
pub fn contexts_follow()
    ensures { ContextsFollow }
{}
