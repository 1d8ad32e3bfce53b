//! Laws of the words that a block tells: each is the contract of a function that does nothing.

ghost use Rattle.hs_reports.specs.WordLaws.{BlockIsNew, WordsAreKept};

/// What the words of the concerned identifiers tell are the new reports of the block.
pub fn block_is_new()
    ensures { BlockIsNew }
{}

/// What the words of an identifier tell goes over into what is known of it behind the block.
pub fn words_are_kept()
    ensures { WordsAreKept }
{}
