//! Laws of the distance of at most so many bytes of a set: each is the contract of a function that does nothing.

ghost use Rattle.hs_repeat.specs.RepeatLaws.{DistancesHaveRows, LastDistanceMoves, LastDistancesAreOfHistories};
ghost use Rattle.hs_repeat.specs.RepeatLaws.{LastBlocksTellLeaving, LastDistancesStayWithin, LastIsLeftByDistance};

/// The distance behind a byte is that of the stream with the byte.
pub fn last_distance_moves()
    ensures { LastDistanceMoves }
{}

/// Each distance in a block is that of the stream up to its place.
pub fn last_distances_are_of_histories()
    ensures { LastDistancesAreOfHistories }
{}

/// The distances in a block stay within the bound, and none grows by more than one a byte.
pub fn last_distances_stay_within()
    ensures { LastDistancesStayWithin }
{}

/// At most so many bytes of a set are left just where the distance isn't 0, whatever comes next.
pub fn last_is_left_by_distance()
    ensures { LastIsLeftByDistance }
{}

/// The word of a block tells where it is left, behind each byte of the block and before it.
pub fn last_blocks_tell_leaving()
    ensures { LastBlocksTellLeaving }
{}

/// Each distance has one row of two bytes.
pub fn distances_have_rows()
    ensures { DistancesHaveRows }
{}
