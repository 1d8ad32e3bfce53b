//! Laws of the definitions: functions that do nothing, whose contracts state them.
ghost use Rattle.std.specs.Prelude.{◌≡◌};
ghost use Rattle.hs_base.specs.Lists.{Each};
ghost use Rattle.hs_base.specs.Trees.{Tree, cat};
ghost use Rattle.hs_expr.specs.Meaning.{trees_of};
ghost use Rattle.hs_expr.specs.Counts.{IsWithinWidths};
ghost use Rattle.hs_expr.specs.Items.{items_of, IsItem};

/// Every span of an expression is at least as long as its least width and at most as long as its greatest.
pub fn spans_are_within_widths()
    ensures { (t : Tree) → IsWithinWidths t }
{}

/// No item of a concatenation can be opened further, and flattening the items again changes nothing.
pub fn items_stay_as_they_are()
    ensures whole { (t : Tree) → Each IsItem (items_of t) }
    ensures again { (t : Tree) → items_of (cat (trees_of (items_of t))) ≡ items_of t }
{}
