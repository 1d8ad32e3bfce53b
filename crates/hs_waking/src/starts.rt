//! Where matches of many engines may begin in a chunk.

ghost use Rattle.std.specs.Prelude.{◌≤◌, length};

use crate::chunk_places::{NO_PLACES, Places, is_none};
use std::alloc::{AllocError, Global};

/// At which places of a chunk matches of each of so many engines may begin: 65 bytes each. Of those from the count on
/// they may everywhere.
#[derive(Debug, Drop)]
pub struct Starts {
    /// Of how many it is told.
    count: usize,
    /// Whether there is such a place.
    some: Vec<bool>,
    /// If so, these places.
    places: Vec<Places>,
    ghost some_room: { count ≤ length some.items },
    ghost places_room: { count ≤ length places.items },
}

impl Starts {
    ghost use Rattle.std.specs.Prelude.{◌≡◌, ℕ, ◌<◌, ◌^◌, IfOk, slice_index};
    ghost use Rattle.hs_waking.specs.Starts.{start_word};

    /// Room for so many engines.
    ///
    /// # Errors
    ///
    /// There may be no memory.
    pub fn new(alloc: Global, count: usize) -> Result<Starts, AllocError>
        requires { count < 2 ^ 32 }
        ensures { IfOk result (λ starts. starts.count ≡ count) }
    {
        Ok(Starts {
            count,
            some: vec![in alloc; false; count]?,
            places: vec![in alloc; NO_PLACES; count]?,
        })
    }

    /// Tells at which places matches of the engine of that number may begin, if there is room for it.
    #[inline]
    pub fn tell(&mut self, number: usize, places: &Places)
        ensures count { self.new.count ≡ self.old.count }
        ensures own { number < self.old.count → (j : ℕ) → j < 8 →
            start_word self.new number j ≡ slice_index places.now j }
        ensures others { (k j : ℕ) → (k ≡ number → ⊥) → j < 8 → start_word self.new k j ≡ start_word self.old k j }
    {
        if number >= self.count {
            return;
        }
        let some = !is_none(places);
        self.some[number] = some;
        if some {
            self.places[number] = *places;
        }
    }

    /// Tells that no match of the engine of that number begins in the chunk.
    #[inline]
    pub fn tell_nowhere(&mut self, number: usize)
        ensures count { self.new.count ≡ self.old.count }
        ensures own { number < self.old.count → (j : ℕ) → j < 8 → start_word self.new number j ≡ 0 }
        ensures others { (k j : ℕ) → (k ≡ number → ⊥) → j < 8 → start_word self.new k j ≡ start_word self.old k j }
    {
        if number < self.count {
            self.some[number] = false;
        }
    }

    /// The word of the places in the block of that number at which matches of an engine may begin.
    #[inline]
    pub fn word(&self, number: usize, block: usize) -> u64
        requires { block < 8 }
        ensures { result ≡ start_word self.now number block }
    {
        if number >= self.count {
            return u64::MAX;
        }
        if self.some[number] {
            self.places[number][block]
        } else {
            0
        }
    }
}
