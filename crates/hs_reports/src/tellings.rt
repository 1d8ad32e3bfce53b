//! What a block tells of the identifiers that it concerns.

ghost use Rattle.std.specs.Prelude.{◌≡◌, ◌+◌, ◌<◌, ◌^◌, IfOk, length};
ghost use Rattle.hs_reports.specs.Events.{Through};
ghost use Rattle.hs_reports.specs.Tellings.{no_tellings, pairs_of_tellings, with_telling};

use crate::block::tell_block;
use crate::events::Events;
use crate::telling::Telling;
use hs_base::ExprId;
use std::alloc::{AllocError, Global};
use std::marker::Model;

/// What a block tells of the identifiers that it concerns, rising, with room for so many.
#[derive(Drop)]
pub struct Tellings {
    ids: Vec<ExprId>,
    lates: Vec<u64>,
    earlies: Vec<u64>,
    // The most identifiers. There is capacity for them from the start.
    room: usize,
}

impl Model for Tellings {
    ghost use Rattle.std.specs.Prelude.{◌≡◌, ◌≤◌, length, vec_capacity};
    ghost use Rattle.hs_reports.specs.Tellings.{TellingTable, telling_table};

    ghost Value = { TellingTable };

    ghost view = { λ t. telling_table t.ids.items t.lates.items t.earlies.items t.room };

    ghost invariant = { λ t. (length t.lates.items ≡ length t.ids.items)
        × (length t.earlies.items ≡ length t.ids.items)
        × (t.room ≤ vec_capacity t.ids)
        × (t.room ≤ vec_capacity t.lates)
        × (t.room ≤ vec_capacity t.earlies) };
}

impl Tellings {
    /// Room for so many identifiers. The only error is want of memory.
    pub fn new(alloc: Global, room: usize) -> Result<Tellings, AllocError>
        ensures { IfOk result (λ tellings. tellings ≡ no_tellings room) }
    {
        Ok(Tellings {
            ids: Vec::with_capacity(alloc, room)?,
            lates: Vec::with_capacity(alloc, room)?,
            earlies: Vec::with_capacity(alloc, room)?,
            room,
        })
    }

    /// Forgets all.
    pub fn clear(&mut self)
        ensures { self.new ≡ no_tellings self.old.room }
    {
        self.ids.clear();
        self.lates.clear();
        self.earlies.clear();
    }

    /// Puts what is told of an identifier behind the others.
    pub fn push(&mut self, id: ExprId, telling: Telling)
        requires { length self.old.ids < self.old.room }
        ensures { self.new ≡ with_telling self.old id telling.late telling.early }
    {
        self.ids.push(id).unwrap();
        self.lates.push(telling.late).unwrap();
        self.earlies.push(telling.early).unwrap();
    }

    /// Reports all of it, of a block at the offset `at`, of which `last` is the place of the last byte.
    pub fn tell<V: Events>(&self, at: u64, last: usize, events: &mut V)
        requires room { at < 2 ^ 63 }
        requires last { last < 64 }
        ensures { Through V.tells events.old (pairs_of_tellings self.now at (last + 1)) events.new }
    {
        tell_block(&self.ids, &self.lates, &self.earlies, at, last, events);
    }
}
