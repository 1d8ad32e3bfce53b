//! Laws of programs: functions that do nothing, whose contracts state them.

ghost use Rattle.hs_rose.specs.RoleLaws.{EnginesRunPieces, EqualPiecesHaveOneEngine, FieldsAreThoseOfPlan};

/// The engine of a role runs its piece, and the role tells where that has the empty span.
pub fn engines_run_pieces()
    ensures { EnginesRunPieces }
{}

/// Two roles have one engine just where their pieces are equal.
pub fn equal_pieces_have_one_engine()
    ensures { EqualPiecesHaveOneEngine }
{}

/// The fields of the roles are those of the regions of the plan that the program is made for, in order: so a layout of
/// the roles' field sizes is that of the plan.
pub fn fields_are_those_of_plan()
    ensures { FieldsAreThoseOfPlan }
{}
