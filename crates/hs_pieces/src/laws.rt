//! Laws of the definitions: functions that do nothing, whose contracts state them.
ghost use Rattle.hs_pieces.specs.Laws.{ChainsHaveSpans, ChainsAreFit, PiecesHaveNoMorePositions};

/// The chains of an expression have together exactly its spans, in every stream.
pub fn chains_have_spans()
    ensures { ChainsHaveSpans }
{}

/// The chains of an expression without code points, in which no byte is consumed behind an assertion of the stream's
/// end, can be run.
pub fn chains_are_fit()
    ensures { ChainsAreFit }
{}

/// No expression among the pieces has more positions than the whole.
pub fn pieces_have_no_more_positions()
    ensures { PiecesHaveNoMorePositions }
{}
