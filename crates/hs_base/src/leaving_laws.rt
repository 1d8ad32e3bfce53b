//! Laws of chains in a stream: each is the contract of a function that does nothing.

ghost use Rattle.hs_base.specs.LeavingLaws.{ChainsCompose, EndsAreLeaving, EntriesGrow, EntriesOnce, FirstIsEntered};
ghost use Rattle.hs_base.specs.LeavingLaws.{LeavesAreListed, LeavingBegins, LeavingGoesOn, WindowIsEnough};

/// Pieces and one more are left where that one is left behind them, or where they are and it has the empty span.
pub fn chains_compose()
    ensures { ChainsCompose }
{}

/// A piece is left as its expression is, entered where the pieces before it are left.
pub fn leaves_are_listed()
    ensures { LeavesAreListed }
{}

/// A first piece is entered at every offset.
pub fn first_is_entered()
    ensures { FirstIsEntered }
{}

/// The entries of a piece grow by one for each byte.
pub fn entries_grow()
    ensures { EntriesGrow }
{}

/// A history has one list of entries.
pub fn entries_once()
    ensures { EntriesOnce }
{}

/// A match of a pattern ends, within its bounds, where one of its chains is left.
pub fn ends_are_leaving()
    ensures { EndsAreLeaving }
{}

/// A first piece that is narrow is told from the last bytes alone.
pub fn window_is_enough()
    ensures { WindowIsEnough }
{}

/// What tells where pieces are left goes on by a piece.
pub fn leaving_goes_on()
    ensures { LeavingGoesOn }
{}

/// No pieces are left everywhere.
pub fn leaving_begins()
    ensures { LeavingBegins }
{}
