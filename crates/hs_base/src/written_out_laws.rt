//! Laws of expressions that are written out: each is the contract of a function that does nothing.

ghost use Rattle.hs_base.specs.WrittenOutLaws.{WritingOutKeepsSpans};

/// Writing out the repeats of an expression keeps its spans, and adds none.
pub fn writing_out_keeps_spans()
    ensures { WritingOutKeepsSpans }
{}
