//! Sets of offsets.
ghost use Rattle.std.specs.Prelude.{◌≡◌, ℕ, ◌<◌, ◌≤◌, ◌↔◌, ◌||◌, ◌==◌, Bool, false, true, IfOk, IsTrue};
ghost use Rattle.hs_plain.specs.OffsetSets.{room, has};

use std::alloc::{AllocError, Global};

/// A set of offsets below a bound, its room.
#[derive(Drop)]
pub struct Offsets {
    /// At each offset, whether it is a member.
    marks: Vec<bool>,
}

impl Offsets {
    ghost use Rattle.std.specs.Prelude.{◌≡◌, ℕ, ◌<◌, ◌≤◌, ◌↔◌, ◌||◌, ◌==◌, Bool, false, true, IfOk, IsTrue};
    ghost use Rattle.hs_plain.specs.OffsetSets.{room, has};

    /// No offset of the room.
    pub fn none(alloc: Global, offsets: usize) -> Result<Offsets, AllocError>
        ensures size { IfOk result (λ s. room s ≡ offsets) }
        ensures members { IfOk result (λ s. (j : ℕ) → has s j ≡ false) }
    {
        Ok(Offsets {
            marks: vec![in alloc; false; offsets]?,
        })
    }

    /// Every offset of the room.
    pub fn all(alloc: Global, offsets: usize) -> Result<Offsets, AllocError>
        ensures size { IfOk result (λ s. room s ≡ offsets) }
        ensures members { IfOk result (λ s. (j : ℕ) → j < offsets → has s j ≡ true) }
    {
        Ok(Offsets {
            marks: vec![in alloc; true; offsets]?,
        })
    }

    /// How many offsets the room has.
    pub fn room(&self) -> usize
        ensures { result ≡ room self.now }
    {
        self.marks.len()
    }

    /// The same set.
    pub fn copy(&self, alloc: Global) -> Result<Offsets, AllocError>
        ensures size { IfOk result (λ s. room s ≡ room self.now) }
        ensures members { IfOk result (λ s. (j : ℕ) → has s j ≡ has self.now j) }
    {
        Ok(Offsets {
            marks: self.marks.to_vec(alloc)?,
        })
    }

    /// Whether an offset is a member.
    pub fn contains(&self, at: usize) -> bool
        ensures { result ≡ has self.now at }
    {
        match self.marks.get(at) {
            Some(mark) => *mark,
            None => false,
        }
    }

    /// AddsOffsets an offset.
    pub fn insert(&mut self, at: usize)
        requires { at < room self.old }
        ensures size { room self.new ≡ room self.old }
        ensures members { (j : ℕ) → has self.new j ≡ ((j == at) || has self.old j) }
    {
        self.marks[at] = true;
    }

    /// AddsOffsets the members of another set of the same room.
    pub fn add(&mut self, other: &Offsets)
        requires { room other.now ≡ room self.old }
        ensures size { room self.new ≡ room self.old }
        ensures members { (j : ℕ) → has self.new j ≡ (has self.old j || has other.now j) }
    {
        for at in 0..self.marks.len() {
            self.marks[at] |= other.marks[at];
        }
    }

    /// Whether the two are one set, of one room.
    pub fn is_same(&self, other: &Offsets) -> bool
        ensures { IsTrue result ↔ (self.now.marks.items ≡ other.now.marks.items) }
    {
        self.marks == other.marks
    }
}
