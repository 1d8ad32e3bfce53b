//! What the refusals of an entry need to know of the entries before it.
ghost use Rattle.std.specs.Prelude.{◌≡◌, List, [], ◌∷◌, ◌++◌, IfOk, MatchBool};
ghost use Rattle.std.specs.List.{AllZip};
ghost use Rattle.hs_base.specs.Entries.{ListedEntry, listed};
ghost use Rattle.hs_base.specs.Patterns.{Pattern};
ghost use Rattle.hs_compile.specs.Counting.{IsKnownName};
ghost use Rattle.hs_compile.specs.Lists.{asks_single, IsMixed, IsReadAs};
ghost use Rattle.hs_compile.specs.Remembered.{Remembers};

use hs_base::{Entry, Flags};
use std::alloc::{AllocError, Global};
use std::collections::BTreeMap;

/// The entries so far: whether those of an identifier ask for a single report, by the number of the identifier.
#[derive(Drop)]
pub struct Seen {
    singles: BTreeMap<u32, bool>,
}

impl Seen {
    /// What is known before the first entry.
    pub fn new(alloc: Global) -> Seen
        ensures { Remembers [] result }
    {
        Seen {
            singles: BTreeMap::new(alloc),
        }
    }

    /// Whether the identifier of the entry is single so far, if an entry so far has it.
    pub fn known(&self, entry: &Entry) -> Option<bool>
        ensures { (before : List ListedEntry) (P : List Pattern) → Remembers before self.now →
            AllZip IsReadAs before P → IsKnownName P entry.now.id.0 result }
    {
        match self.singles.get(&entry.id.0) {
            None => None,
            Some(single) => Some(*single),
        }
    }

    /// Whether an entry so far has the identifier of this one and differs in whether it asks for a single report.
    pub fn is_mixed(&self, entry: &Entry) -> bool
        ensures { (before : List ListedEntry) → Remembers before self.now →
            MatchBool result (IsMixed before (listed entry.now)) (IsMixed before (listed entry.now) → ⊥) }
    {
        match self.singles.get(&entry.id.0) {
            None => false,
            Some(single) => *single != asks_single(entry),
        }
    }

    /// The entry, which isn't mixed, comes to those so far. The error is want of memory.
    pub fn add(&mut self, entry: &Entry) -> Result<(), AllocError>
        ensures { IfOk result (λ done. (before : List ListedEntry) → Remembers before self.old →
            (IsMixed before (listed entry.now) → ⊥) → Remembers (before ++ listed entry.now ∷ []) self.new) }
    {
        self.singles.insert(entry.id.0, asks_single(entry))?;
        Ok(())
    }
}

/// Whether the entry asks for a single report of its identifier in a stream.
pub fn asks_single(entry: &Entry) -> bool
    ensures { result ≡ asks_single entry.now.flags.0 }
{
    entry.flags.contains(Flags::SINGLEMATCH)
}
