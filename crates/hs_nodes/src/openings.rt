//! Chains that begin where the stream does.

ghost use Rattle.std.specs.Prelude.{◌≡◌, ◌^◌, ◌<◌, ℕ, true};
ghost use Rattle.hs_bits.specs.Marks.{is_marked, mark_room};
ghost use Rattle.hs_nodes.specs.Openings.{AreOver};

use crate::look_back::FAR_BYTES;
use hs_bits::MarkSet;

/// What chains ask for that begin where the stream does, by an expression that looks back to it: behind the first bytes
/// nothing enters them.
#[derive(Debug, Drop)]
pub struct Openings {
    /// Their nodes.
    pub nodes: MarkSet,
    /// How many literals other nodes name. These come first; behind them come those that only nodes of these chains
    /// name.
    pub others: u32,
}

impl Openings {
    /// Whether these chains are over behind so many bytes: nothing enters them any more, and nothing is live in them,
    /// where nothing is live in the nodes that aren't marked.
    pub fn are_over(&self, at: u64, marks: &MarkSet) -> bool
        requires room { (k : ℕ) → is_marked marks.now k ≡ true → k < mark_room self.now.nodes }
        requires few { (k : ℕ) → is_marked marks.now k ≡ true → k < 2 ^ 32 }
        ensures { result ≡ true → AreOver self.now at marks.now }
    {
        if at <= FAR_BYTES {
            return false;
        }
        let mut from = 0;
        while let Some(k) = marks.next(from) {
            if self.nodes.contains(k) {
                return false;
            }
            from = k + 1;
        }
        true
    }
}
