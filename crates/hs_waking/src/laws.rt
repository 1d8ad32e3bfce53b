//! What rows are good for: the contracts of functions that do nothing.

ghost use Rattle.std.specs.Prelude.{◌≡◌, true, List, [], ◌∷◌};
ghost use Rattle.hs_base.specs.declared.byte_set.ByteSet.{ByteSet};
ghost use Rattle.hs_base.specs.declared.context.Prev.{Prev};
ghost use Rattle.hs_engine.specs.Engines.{AreWakers};
ghost use Rattle.hs_waking.specs.declared.prev_set.PrevSet.{PrevSet};
ghost use Rattle.hs_waking.specs.EntryRows.{RunsBySet, TellBeginnings, TellsBeginnings};
ghost use Rattle.hs_waking.specs.PrevSets.{has_prev};
ghost use Rattle.hs_waking.specs.Rows.{RunsByRows};

use hs_engine::Engine;

/// Rows of automata, one for each position with which a match may begin, tell where such an engine is to be entered:
/// where one of them fits.
pub fn several_rows_tell_beginnings<E: Engine>()
    ensures { (engine : E) (behind : PrevSet) (rows : List (List ByteSet)) →
        RunsByRows (E.meaning engine) behind rows →
        TellBeginnings (E.meaning engine) behind rows }
{}

/// What one row tells is told by the list of that row.
pub fn one_row_is_several<E: Engine>()
    ensures { (engine : E) (behind : PrevSet) (row : List ByteSet) →
        TellsBeginnings (E.meaning engine) behind row →
        TellBeginnings (E.meaning engine) behind (row ∷ []) }
{}

/// The bytes that wake an engine of repeats of their set are a row of one set, behind anything.
pub fn wakers_are_a_row<E: Engine>()
    ensures { (engine : E) (behind : PrevSet) (set : ByteSet) →
        ((prev : Prev) → has_prev behind prev ≡ true) →
        AreWakers (E.meaning engine) set →
        RunsBySet (E.meaning engine) set →
        TellsBeginnings (E.meaning engine) behind (set ∷ []) }
{}
