//! All automata over a chunk.

ghost use Rattle.std.specs.Prelude.{◌≡◌, ◌≤◌, ℕ, Some, length, slice_get};
ghost use Rattle.hs_lazy.specs.Caches.{AreSameImages, AreTaken};
ghost use Rattle.hs_lazy.specs.Runs.{AreZerosBlank};
ghost use Rattle.hs_lazy.specs.Members.{IsShed};
ghost use Rattle.hs_lazy.specs.Tables.{AreAllSound, member_in};
ghost use Rattle.hs_lazy.specs.declared.dfa.LazyDfa.{LazyDfa};

use crate::dfa::LazyDfa;
use crate::parts::Run;
use crate::steps::run_dfa;
use hs_base::Prev;
use hs_bits::is_unset;
use hs_engine::TimelessEngine;

/// Has the automaton give up members, if it had no room for a state or too many bytes left some of them.
fn shed_some(dfa: &mut LazyDfa)
    ensures { IsShed dfa.old dfa.new }
{
    if dfa.is_full {
        dfa.shed();
    } else if !is_unset(&dfa.noisy) {
        dfa.shed_noisy();
    }
}

/// Has each automaton give up members that had no room for a state, or of which too many bytes left some.
pub(crate) fn shed_all(list: &mut [LazyDfa])
    ensures len { length list.new ≡ length list.old }
    ensures shed { (i : ℕ) (dfa : LazyDfa) → slice_get list.new i ≡ Some dfa →
        (old : LazyDfa) × (slice_get list.old i ≡ Some old) × IsShed old dfa }
{
    for at in 0..list.len() {
        shed_some(&mut list[at]);
    }
}

/// Has each automaton take a chunk behind `prev`.
pub(crate) fn run_all<E: TimelessEngine>(
    list: &mut [LazyDfa],
    runs: &mut [Run],
    engines: &[E],
    prev: Prev,
    bytes: &[u8],
)
    requires blank { AreZerosBlank E.meaning engines.now }
    requires few { length bytes.now ≤ 512 }
    requires sound { AreAllSound E.meaning engines.now list.old }
    ensures sound { AreAllSound E.meaning engines.now list.new }
    ensures len { length list.new ≡ length list.old }
    ensures runs_len { length runs.new ≡ length runs.old }
    ensures members { (i k : ℕ) → member_in (slice_get list.new i) k ≡ member_in (slice_get list.old i) k }
    ensures images { AreSameImages runs.old runs.new }
    ensures taken { AreTaken list.new runs.new prev bytes.now }
{
    for at in 0..list.len().min(runs.len()) {
        run_dfa(&mut list[at], engines, &mut runs[at], prev, bytes);
    }
}
