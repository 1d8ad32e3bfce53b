//! Laws of the definitions: functions that do nothing, whose contracts state them.
ghost use Rattle.std.specs.Prelude.{◌≡◌, ℕ, List};
ghost use Rattle.hs_base.specs.Trees.{Tree, IsProper};
ghost use Rattle.hs_expr.specs.Items.{HaveSameSpans};
ghost use Rattle.hs_utf8.specs.Folds.{AreFolds};
ghost use Rattle.hs_utf8.specs.Lowered.{IsLowered, HasNoPoints};

/// An expression has one tree in bytes, which has its spans and no set of code points, and is proper if the expression
/// is.
pub fn lowered_trees()
    ensures once { (t u v : Tree) → IsLowered t u → IsLowered t v → u ≡ v }
    ensures spans { (t u : Tree) → IsLowered t u → HaveSameSpans u t }
    ensures no_points { (t u : Tree) → IsLowered t u → HasNoPoints u }
    ensures proper { (t u : Tree) → IsLowered t u → IsProper t → IsProper u }
{}

/// The code points that share a folding with a member of some ranges are told by one list of ranges.
pub fn folds_once()
    ensures { (ranges xs ys : List (ℕ × ℕ)) → AreFolds ranges xs → AreFolds ranges ys → xs ≡ ys }
{}
