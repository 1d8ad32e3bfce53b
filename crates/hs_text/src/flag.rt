//! The flags of an expression, written as letters.
ghost use Rattle.std.specs.Prelude.{◌≡◌, ℕ, ◌<◌, MatchOption, SomeIff};
ghost use Rattle.hs_text.specs.FlagLetters.{flag_bit, AreFlags};

use hs_base::Flags;

/// The flags that the letters name, in any order; a letter that stands there twice means nothing more.
pub fn flags_of(letters: &[u8]) -> Option<Flags>
    ensures { MatchOption result
        ((flags : ℕ) → AreFlags letters.now flags → ⊥)
        (λ flags. AreFlags letters.now flags.0) }
{
    let mut flags = Flags::NONE;
    for letter in letters {
        let Some(flag) = flag_of(*letter) else {
            return None;
        };
        flags = flags.union(flag);
    }
    Some(flags)
}

/// The flag that a letter names.
#[tactic(auto, unfolding(crate::specs::FlagLetters::flag_bit))]
fn flag_of(letter: u8) -> Option<Flags>
    ensures { SomeIff result (0 < flag_bit letter) (record { 0 = flag_bit letter }) }
{
    match letter {
        b'i' => Some(Flags::CASELESS),
        b's' => Some(Flags::DOTALL),
        b'm' => Some(Flags::MULTILINE),
        b'H' => Some(Flags::SINGLEMATCH),
        b'V' => Some(Flags::ALLOWEMPTY),
        b'8' => Some(Flags::UTF8),
        b'W' => Some(Flags::UCP),
        b'P' => Some(Flags::PREFILTER),
        b'L' => Some(Flags::SOM_LEFTMOST),
        b'C' => Some(Flags::COMBINATION),
        b'Q' => Some(Flags::QUIET),
        _ => None,
    }
}
