//! Where a state leads before each class of bytes, whatever takes the byte: found once for all bytes.

ghost use Rattle.std.specs.Prelude.{◌≡◌, ℕ};
ghost use Rattle.hs_base.specs.Bits.{has_word_bit};
ghost use Rattle.hs_states.specs.DfaStates.{kept_prev};
ghost use Rattle.hs_states.specs.Footings.{is_led_on};

use crate::footing::{Footing, WIDTH, add_followers, entered, keep, kept_prev};
use hs_base::{Next, Prev};
use hs_engine::Automaton;

/// The positions to which a state leads: those that are entered behind it, and those that follow a live one.
#[derive(Clone, Copy, Debug)]
pub(crate) struct Leads {
    /// The state.
    pub(crate) from: Footing,
    /// The positions before a word byte.
    word: [u64; WIDTH],
    /// The positions before a line feed.
    newline: [u64; WIDTH],
    /// The positions before any other byte.
    other: [u64; WIDTH],
}

impl Leads {
    ghost use Rattle.hs_engine.specs.declared.automaton.Automaton as tables;
    ghost use Rattle.hs_states.specs.Footings.{is_moved_to};
    ghost use Rattle.hs_states.specs.Leading.{AreLeads};
    ghost use Rattle.hs_states.specs.NextBehind.{next_behind};

    /// Where a state leads.
    pub(crate) fn of(automaton: &Automaton, from: Footing) -> Leads
        ensures from { result.from ≡ from }
        ensures leads { AreLeads automaton.now result }
    {
        Leads {
            from,
            word: led(automaton, &from, Next::Word),
            newline: led(automaton, &from, Next::Newline),
            other: led(automaton, &from, Next::Other),
        }
    }

    /// The positions before a byte behind which that stands.
    fn before(&self, prev: Prev) -> [u64; WIDTH]
        ensures { (a : tables.Automaton) → AreLeads a self.now → (k : ℕ) →
            has_word_bit result k ≡ is_led_on a self.now.from (next_behind prev) k }
    {
        match prev {
            Prev::Word => self.word,
            Prev::Newline => self.newline,
            Prev::Start | Prev::Other => self.other,
        }
    }

    /// The state to which a byte leads, by what the byte does.
    pub(crate) fn moved(&self, automaton: &Automaton, byte: &Footing) -> Footing
        requires { AreLeads automaton.now self.now }
        ensures positions { (k : ℕ) →
            has_word_bit result.positions k ≡ is_moved_to automaton.now self.now.from byte.now k }
        ensures prev { result.prev ≡ kept_prev automaton.now.has_assertion byte.now.prev }
    {
        let mut positions = self.before(byte.prev);
        keep(&mut positions, &byte.positions);
        Footing {
            positions,
            prev: kept_prev(automaton.has_assertion(), byte.prev),
        }
    }
}

/// The positions to which a state leads where that comes next.
fn led(automaton: &Automaton, from: &Footing, next: Next) -> [u64; WIDTH]
    ensures { (k : ℕ) → has_word_bit result k ≡ is_led_on automaton.now from.now next k }
{
    let mut words = entered(automaton.enters(), from.prev, next);
    add_followers(
        automaton.follows(),
        &from.positions,
        from.prev,
        next,
        &mut words,
    );
    words
}
