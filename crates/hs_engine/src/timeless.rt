//! What an engine does that needn't know where its stream stands.

ghost use Rattle.std.specs.Prelude.{◌≡◌, length, MatchOption};
ghost use Rattle.hs_engine.specs.Timeless.{TakesStep};

use crate::ends::ByteEnds;
use crate::engine::Engine;
use hs_base::Prev;

/// An engine that may take a byte wherever its stream stands, so that what the byte does may be kept.
pub trait TimelessEngine: Engine {
    /// Whether it does, as a rule. Nothing hangs on it but speed.
    fn is_timeless(&self) -> bool;

    /// Takes a byte behind `prev`, before which the expression is entered or not, wherever the stream stands, and
    /// counts no step. None where the engine has to know where that is, and then the region is as before.
    fn take_byte(&self, region: &mut [u8], prev: Prev, enters: bool, byte: u8) -> Option<ByteEnds>
        requires len { length region.old ≡ (Self.meaning self.now).width }
        ensures len { length region.new ≡ length region.old }
        ensures takes { MatchOption result (region.new ≡ region.old)
            (TakesStep (Self.meaning self.now) region.old region.new prev enters byte) };
}
