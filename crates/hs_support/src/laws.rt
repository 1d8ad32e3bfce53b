//! Laws of the definitions: functions that do nothing, whose contracts state them.
ghost use Rattle.std.specs.Prelude.{◌≡◌, ◌↔◌, List, None};
ghost use Rattle.hs_base.specs.Chains.{Piece};
ghost use Rattle.hs_base.specs.Lists.{Each};
ghost use Rattle.hs_base.specs.Trees.{Tree};
ghost use Rattle.hs_base.specs.declared.ext.Ext.{Ext};
ghost use Rattle.hs_base.specs.declared.flags.Flags.{Flags};
ghost use Rattle.hs_base.specs.declared.refusal.Refusal.{Refusal};
ghost use Rattle.hs_support.specs.PieceCounts.{first_excess_of, HasFewPositions};
ghost use Rattle.hs_support.specs.Refused.{HasRefusal, IsLeast};

/// Of an expression's refusals one at most is the least.
pub fn one_refusal_is_the_least()
    ensures { (flags : Flags) (ext : Ext) (tree : Tree) (first second : Refusal) →
        IsLeast (HasRefusal flags ext tree) first → IsLeast (HasRefusal flags ext tree) second → first ≡ second }
{}

/// No excess is found in chains exactly where each of their pieces has no more positions than it may.
pub fn without_excess_all_pieces_are_small()
    ensures { (chains : List (List Piece)) → (first_excess_of chains ≡ None) ↔ Each (Each HasFewPositions) chains }
{}
