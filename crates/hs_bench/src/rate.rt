//! How fast bytes were scanned.

ghost use Rattle.std.specs.Prelude.{◌≡◌, ◌-◌, ◌^◌, min};

use std::time::Duration;

/// The shortest of some times that the same bytes took.
#[derive(Clone, Copy, Debug)]
pub(crate) struct Fastest {
    /// How many bytes were scanned each time.
    bytes: usize,
    /// The shortest time in nanoseconds; before the first one, more than any.
    nanoseconds: u128,
}

impl Fastest {
    ghost use Rattle.std.specs.Duration.{as_nanos};
    ghost use Rattle.hs_bench.specs.Rates.{block_tenths_of, rate_of};

    /// No time yet.
    pub(crate) fn new(bytes: usize) -> Fastest
        ensures bytes { result.bytes ≡ bytes }
        ensures nanoseconds { result.nanoseconds ≡ 2 ^ 128 - 1 }
    {
        Fastest {
            bytes,
            nanoseconds: u128::MAX,
        }
    }

    /// One more time.
    pub(crate) fn add(&mut self, time: Duration)
        ensures bytes { self.new.bytes ≡ self.old.bytes }
        ensures nanoseconds { self.new.nanoseconds ≡ min self.old.nanoseconds (as_nanos time) }
    {
        self.nanoseconds = self.nanoseconds.min(time.as_nanos());
    }

    /// The rate in megabytes a second, or 0 where no time has passed.
    pub(crate) fn rate(&self) -> u128
        ensures { result ≡ rate_of self.now.bytes self.now.nanoseconds }
    {
        (self.bytes as u128 * 1000)
            .checked_div(self.nanoseconds)
            .unwrap_or(0)
    }

    /// The tenths of a nanosecond that a block of so many bytes took, or 0 where there are no bytes.
    pub(crate) fn block_tenths(&self, block: usize) -> u128
        ensures { result ≡ block_tenths_of self.now.bytes self.now.nanoseconds block }
    {
        (self.nanoseconds.saturating_mul(10 * block as u128))
            .checked_div(self.bytes as u128)
            .unwrap_or(0)
    }
}
