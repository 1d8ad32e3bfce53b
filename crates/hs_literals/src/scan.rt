//! A scan of bytes for literals.

ghost use Rattle.std.specs.Prelude.{◌≡◌, ◌<◌, [], MatchBool};

use crate::literals::Literals;
use crate::places::Places;
use hs_confirm::PlaceEnds;

/// The ends of literals in bytes, by rising end and then number: pairs of an offset in the bytes, behind the literal's
/// last byte, and the number of the literal.
#[derive(Drop)]
pub struct LitScan<'a> {
    /// Where the scan is.
    places: Places<'a>,
    /// The literals that end there.
    ends: PlaceEnds<'a>,
}

impl<'a> LitScan<'a> {
    ghost use Rattle.hs_literals.specs.ScanEnds.{AreScanEnds};
    ghost use Rattle.hs_literals.specs.Held.{held};
    ghost use Rattle.hs_literals.specs.AllEnds.{ends_behind};
    ghost use Rattle.hs_literals.specs.Left.{scan_left};

    /// A scan of `bytes`, before which stands `history`.
    pub fn new(literals: &'a Literals, history: &'a [u8], bytes: &'a [u8]) -> LitScan<'a>
        ensures { AreScanEnds (held literals.now) history.now bytes.now (scan_left result) }
    {
        LitScan {
            places: Places::new(literals, history, bytes),
            ends: literals.confirm.place_ends(0xFF, history, bytes, 0),
        }
    }

    /// Goes on to the next place that has ends, if there is one.
    fn enter_next(&mut self) -> bool
        ensures bytes { self.new.places.bytes ≡ self.old.places.bytes }
        ensures next { MatchBool result
            ((self.old.places.at < self.new.places.at) ×
            (ends_behind (held self.old.places.literals.now) self.old.places.history.now self.old.places.bytes.now
            self.old.places.at ≡ scan_left self.new))
            ((self.new.ends ≡ self.old.ends) ×
            (ends_behind (held self.old.places.literals.now) self.old.places.history.now self.old.places.bytes.now
            self.old.places.at ≡ []) ×
            (ends_behind (held self.new.places.literals.now) self.new.places.history.now self.new.places.bytes.now
            self.new.places.at ≡ [])) }
    {
        while let Some(mask) = self.places.next_open() {
            if let Some(ends) = self.places.ends(mask) {
                self.ends = ends;
                return true;
            }
        }
        false
    }
}

impl<'a> Iterator for LitScan<'a> {
    ghost use Rattle.std.specs.Iterator.{YieldsFirst, item_count};
    ghost use Rattle.hs_literals.specs.Left.{scan_left};

    type Item = (usize, usize);

    ghost next_gives = { YieldsFirst scan_left };

    ghost remaining = { item_count scan_left };

    fn next(&mut self) -> Option<(usize, usize)> {
        loop {
            if let Some(number) = self.ends.next() {
                return Some((self.places.at, number));
            }
            if !self.enter_next() {
                return None;
            }
        }
    }
}
