//! Sets of up to three bytes, by name.

ghost use Rattle.hs_base.specs.ByteSets.{has};
ghost use Rattle.hs_accel.specs.Sets.{IsFewOf};

use hs_base::ByteSet;

/// The members of a set, where there are up to three.
#[derive(Clone, Copy, Debug)]
pub(crate) enum Few {
    Never,
    One(u8),
    Two(u8, u8),
    Three(u8, u8, u8),
    /// Four bytes or more.
    Many,
}

/// The members by name, rising.
pub(crate) fn few_of(set: &ByteSet) -> Few
    ensures { IsFewOf (has set.now) result }
{
    let mut members = set.iter();
    let Some(first) = members.next() else {
        return Few::Never;
    };
    let Some(second) = members.next() else {
        return Few::One(first);
    };
    let Some(third) = members.next() else {
        return Few::Two(first, second);
    };
    match members.next() {
        None => Few::Three(first, second, third),
        Some(_) => Few::Many,
    }
}
