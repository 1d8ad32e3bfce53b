//! The automata of many engines, and what a chunk made of them.

ghost use Rattle.std.specs.Prelude.{◌≡◌, ◌≤◌, length};

use crate::dfa::LazyDfa;
use crate::parts::{Member, Run};
use crate::running::{run_all, shed_all};
use hs_base::{ByteSet, Prev};
use hs_bits::{MarkSet, clear_bits, next_bit_in};
use hs_engine::TimelessEngine;
use std::alloc::{AllocError, Global};

/// Which member of which automaton runs for a number.
#[derive(Clone, Copy, Debug)]
pub struct Place {
    /// The number of the automaton.
    pub dfa: u32,
    /// The number of the member in it.
    pub member: u32,
}

/// The automata, and which of them runs for each number.
#[derive(Debug, Drop)]
pub struct Dfas {
    /// The automata.
    pub(crate) list: Vec<LazyDfa>,
    /// For each number its place, if it has one.
    pub(crate) places: Vec<Option<Place>>,
}

impl Dfas {
    ghost use Rattle.std.specs.Prelude.{◌≡◌, ◌≤◌};
    ghost use Rattle.hs_lazy.specs.Tables.{IsPut, member_of, place_for};

    /// The place of a number, if it has one.
    pub(crate) fn place(&self, number: usize) -> Option<Place>
        ensures { result ≡ place_for self.now number }
    {
        match self.places.get(number) {
            Some(place) => *place,
            None => None,
        }
    }

    /// The member that runs for a number, if one does.
    pub(crate) fn member(&self, number: usize) -> Option<Member>
        ensures { result ≡ member_of self.now number }
    {
        let Some(place) = self.place(number) else {
            return None;
        };
        let Some(dfa) = self.list.get(place.dfa as usize) else {
            return None;
        };
        match dfa.members.get(place.member as usize) {
            Some(member) if member.number as usize == number && !member.is_dropped => Some(*member),
            _ => None,
        }
    }

    /// Whether the last automaton has room for a region of that size.
    fn has_room(&self, size: usize) -> bool
        requires { size ≤ 64 }
    {
        match self.list.last() {
            Some(dfa) => dfa.has_room(size),
            None => false,
        }
    }

    /// Has the last automaton run an engine for a number, which those bytes may wake, if there is room.
    fn put(&mut self, number: usize, engine: usize, size: usize, wakers: ByteSet)
        requires { size ≤ 64 }
        ensures { IsPut self.old self.new number engine size wakers }
    {
        let Some(last) = self.list.len().checked_sub(1) else {
            return;
        };
        if last > MAX_NUMBER
            || number > MAX_NUMBER
            || engine > MAX_NUMBER
            || number >= self.places.len()
        {
            return;
        }
        let Some(member) = self.list[last].put(number as u32, engine as u32, size as u32, wakers)
        else {
            return;
        };
        self.places[number] = Some(Place {
            dfa: last as u32,
            member,
        });
    }
}

/// Where an expression is left in a chunk: a bit for each of its bytes.
#[derive(Clone, Copy, Debug, PartialEq, Eq)]
pub struct ToldEnds {
    /// It is left before the byte, where that byte comes next.
    pub before: [u64; 8],
    /// It is left behind the byte, where nothing is known of what comes next.
    pub behind: [u64; 8],
}

impl ToldEnds {
    /// It is left nowhere.
    pub(crate) const NOWHERE: ToldEnds = ToldEnds {
        before: [0; 8],
        behind: [0; 8],
    };
}

/// The greatest number that is kept.
const MAX_NUMBER: usize = 0xFFFF_FFFF;

/// The size of the largest region that is run.
const MAX_SIZE: usize = 64;

/// States that engines were seen in, with the steps that bytes were seen to make of them: what a chunk does to many
/// engines at once is looked up, and only what wasn't seen yet is asked of the engines.
#[derive(Debug, Drop)]
pub struct Cache {
    /// The automata.
    pub(crate) dfas: Dfas,
    /// Of each automaton, what the last chunk made of it.
    pub(crate) runs: Vec<Run>,
    ghost runs_room: { length dfas.list.items ≤ length runs.items },
}

impl Cache {
    ghost use Rattle.std.specs.Prelude.{◌^◌, ◌<◌, ◌≤◌, ℕ, ◌*◌, false, true, length};
    ghost use Rattle.std.specs.Prelude.{IfOk, MatchBool, None, Some, slice_get};
    ghost use Rattle.hs_base.specs.Bits.{AreZero, has_word_bit};
    ghost use Rattle.hs_lazy.specs.Caches.{IsSilent, TellsRun, Told, is_done_at, loaded, told};
    ghost use Rattle.hs_lazy.specs.Runs.{AreZerosBlank};
    ghost use Rattle.hs_lazy.specs.Tables.{AreDfasOf, engine_at, member_of, place_for};
    ghost use Rattle.hs_lazy.specs.declared.parts.Member.{Member};
    ghost use Rattle.hs_lazy.specs.declared.cache.Place.{Place};
    ghost use Rattle.hs_bits.specs.Marks.{is_marked, mark_room};

    /// For so many numbers, of which none has an engine yet. The only error is want of memory.
    pub fn new<E: TimelessEngine>(
        alloc: Global,
        engines: &[E],
        count: usize,
    ) -> Result<Cache, AllocError>
        requires { count < 2 ^ 32 }
        ensures dfas { IfOk result (λ cache. AreDfasOf E.meaning engines.now cache.dfas) }
        ensures none { IfOk result (λ cache. (k : ℕ) → engine_at cache.dfas k ≡ None) }
    {
        let _ = engines.len();
        Ok(Cache {
            dfas: Dfas {
                list: Vec::new(alloc),
                places: vec![in alloc; None; count]?,
            },
            runs: Vec::new(alloc),
        })
    }

    /// For no number. It takes no memory.
    pub fn none<E: TimelessEngine>(alloc: Global, engines: &[E]) -> Cache
        ensures dfas { AreDfasOf E.meaning engines.now result.dfas }
        ensures none { (k : ℕ) → engine_at result.dfas k ≡ None }
    {
        let _ = engines.len();
        Cache {
            dfas: Dfas {
                list: Vec::new(alloc),
                places: Vec::new(alloc),
            },
            runs: Vec::new(alloc),
        }
    }

    /// Has the engine run for the number, if it is timeless and small. The only error is want of memory.
    pub fn add<E: TimelessEngine>(
        &mut self,
        alloc: Global,
        engines: &[E],
        number: usize,
        engine: usize,
    ) -> Result<(), AllocError>
        requires dfas { AreDfasOf E.meaning engines.now self.old.dfas }
        requires there { engine < length engines.now }
        requires listed { (e : E) → slice_get engines.now engine ≡ Some e → (E.meaning e).always ≡ false }
        requires none { engine_at self.old.dfas number ≡ None }
        ensures dfas { AreDfasOf E.meaning engines.now self.new.dfas }
        ensures own { (n : ℕ) → engine_at self.new.dfas number ≡ Some n → n ≡ engine }
        ensures others { (k : ℕ) → (k ≡ number → ⊥) → engine_at self.new.dfas k ≡ engine_at self.old.dfas k }
    {
        let own = &engines[engine];
        let size = own.size();
        if !own.is_timeless() || size == 0 || size > MAX_SIZE {
            return Ok(());
        }
        self.make_room(alloc, engines, size)?;
        self.dfas.put(number, engine, size, *own.wakers());
        Ok(())
    }

    /// Has room for a region of that size in the last automaton, by an automaton more where there is none. The only
    /// error is want of memory.
    fn make_room<E: TimelessEngine>(
        &mut self,
        alloc: Global,
        engines: &[E],
        size: usize,
    ) -> Result<(), AllocError>
        requires dfas { AreDfasOf E.meaning engines.now self.old.dfas }
        requires small { size ≤ 64 }
        ensures dfas { AreDfasOf E.meaning engines.now self.new.dfas }
        ensures same { (k : ℕ) → engine_at self.new.dfas k ≡ engine_at self.old.dfas k }
    {
        if self.dfas.has_room(size) {
            return Ok(());
        }
        let _ = engines.len();
        let dfa = LazyDfa::new(alloc)?;
        self.runs.push(Run::NOTHING)?;
        self.dfas.list.push(dfa)?;
        Ok(())
    }

    /// Gives up, in each automaton that had no room for a state, the engines whose regions change most often, and in
    /// each of which too many bytes left some, those that are left most often: they run for their numbers no more.
    pub fn shed<E: TimelessEngine>(&mut self, engines: &[E])
        requires dfas { AreDfasOf E.meaning engines.now self.old.dfas }
        ensures dfas { AreDfasOf E.meaning engines.now self.new.dfas }
        ensures fewer { (k n : ℕ) → engine_at self.new.dfas k ≡ Some n → engine_at self.old.dfas k ≡ Some n }
    {
        let _ = engines.len();
        shed_all(&mut self.dfas.list);
    }

    /// Begins a chunk: no region is loaded, so each is all 0.
    pub fn begin(&mut self)
        ensures dfas { self.new.dfas ≡ self.old.dfas }
        ensures zero { (k : ℕ) → AreZero (loaded self.new k) }
        ensures sized { (k : ℕ) → length (loaded self.new k) ≡ length (loaded self.old k) }
    {
        for run in self.runs.iter_mut() {
            clear_bits(&mut run.image);
        }
    }

    /// Loads the region of a number before the chunk, if it has an engine.
    pub fn load(&mut self, number: usize, part: &[u8])
        requires sized { (n : ℕ) → engine_at self.old.dfas number ≡ Some n →
            length (loaded self.old number) ≡ length part.now }
        ensures dfas { self.new.dfas ≡ self.old.dfas }
        ensures own { (n : ℕ) → engine_at self.old.dfas number ≡ Some n → loaded self.new number ≡ part.now }
        ensures others { (k : ℕ) → (k ≡ number → ⊥) → loaded self.new k ≡ loaded self.old k }
    {
        let Some(place) = self.dfas.place(number) else {
            return;
        };
        let Some(member) = self.dfas.member(number) else {
            return;
        };
        if (place.dfa as usize) < self.runs.len() {
            self.runs[place.dfa as usize].load(member, part);
        }
    }

    /// Takes a chunk behind `prev`, before each byte of which every expression is entered, from the regions that are
    /// loaded on. An automaton that gives up tells nothing of its numbers.
    pub fn run<E: TimelessEngine>(&mut self, engines: &[E], prev: Prev, bytes: &[u8])
        requires dfas { AreDfasOf E.meaning engines.now self.old.dfas }
        requires blank { AreZerosBlank E.meaning engines.now }
        requires few { length bytes.now ≤ 512 }
        requires sized { (k n : ℕ) (e : E) → engine_at self.old.dfas k ≡ Some n → slice_get engines.now n ≡ Some e →
            length (loaded self.old k) ≡ (E.meaning e).width }
        ensures dfas { AreDfasOf E.meaning engines.now self.new.dfas }
        ensures same { (k : ℕ) → engine_at self.new.dfas k ≡ engine_at self.old.dfas k }
        ensures told { (k : ℕ) (t : Told) (e : E) → told self.new k ≡ Some t → slice_get engines.now t.engine ≡ Some e →
            TellsRun (E.meaning e) (loaded self.old k) prev bytes.now t }
        ensures of { (k : ℕ) (t : Told) → told self.new k ≡ Some t → engine_at self.old.dfas k ≡ Some t.engine }
    {
        run_all(&mut self.dfas.list, &mut self.runs, engines, prev, bytes);
    }

    /// Whether a number was told of.
    pub fn is_told(&self, number: usize) -> bool
        ensures { MatchBool result ((t : Told) × (told self.now number ≡ Some t)) (told self.now number ≡ None) }
    {
        let Some(place) = self.dfas.place(number) else {
            return false;
        };
        self.dfas.member(number).is_some() && self.is_done(place)
    }

    /// The region behind the chunk of a number that was told of.
    pub fn part(&self, number: usize) -> &[u8]
        requires { (t : Told) × (told self.now number ≡ Some t) }
        ensures { (t : Told) → told self.now number ≡ Some t → result.now ≡ t.part }
    {
        let Some(place) = self.dfas.place(number) else {
            return &[];
        };
        let Some(run) = self.runs.get(place.dfa as usize) else {
            return &[];
        };
        match self.dfas.list.get(place.dfa as usize) {
            Some(dfa) => dfa.part(run.state, place.member as usize),
            None => &[],
        }
    }

    /// Where the expression of a number that was told of is left in the chunk.
    pub fn ends(&self, number: usize) -> ToldEnds
        requires { (t : Told) × (told self.now number ≡ Some t) }
        ensures before { (t : Told) (i : ℕ) → told self.now number ≡ Some t → i < 512 →
            has_word_bit result.before i ≡ t.before i }
        ensures behind { (t : Told) (i : ℕ) → told self.now number ≡ Some t → i < 512 →
            has_word_bit result.behind i ≡ t.behind i }
    {
        let Some(place) = self.dfas.place(number) else {
            return ToldEnds::NOWHERE;
        };
        match self.runs.get(place.dfa as usize) {
            Some(run) => run.ends.of(place.member as usize),
            None => ToldEnds::NOWHERE,
        }
    }

    /// Marks the numbers that were told of in whose regions something is live behind the chunk, or whose expressions
    /// are left in it. So may it mark others that have an engine.
    pub fn mark_woken(&self, marks: &mut MarkSet)
        requires room { (k n : ℕ) → engine_at self.now.dfas k ≡ Some n → k < mark_room marks.old }
        ensures room { length marks.new ≡ length marks.old }
        ensures kept { (k : ℕ) → is_marked marks.old k ≡ true → is_marked marks.new k ≡ true }
        ensures below { (count : ℕ) → ((k n : ℕ) → engine_at self.now.dfas k ≡ Some n → k < count) →
            ((k : ℕ) → is_marked marks.old k ≡ true → k < count) → (k : ℕ) → is_marked marks.new k ≡ true → k < count }
        ensures silent { (k : ℕ) (t : Told) → told self.now k ≡ Some t → is_marked marks.new k ≡ false → IsSilent t }
    {
        for at in 0..self.runs.len() {
            self.mark_dfa(at, marks);
        }
    }

    /// Whether the automaton of a place took the chunk.
    fn is_done(&self, place: Place) -> bool
        ensures { result ≡ is_done_at self.now.dfas.list.items self.now.runs.items place }
    {
        let Some(dfa) = self.dfas.list.get(place.dfa as usize) else {
            return false;
        };
        let Some(run) = self.runs.get(place.dfa as usize) else {
            return false;
        };
        run.is_done && run.state < dfa.states.len()
    }

    /// Marks those numbers of an automaton.
    fn mark_dfa(&self, at: usize, marks: &mut MarkSet)
        requires room { (k n : ℕ) → engine_at self.now.dfas k ≡ Some n → k < mark_room marks.old }
        ensures room { length marks.new ≡ length marks.old }
        ensures kept { (k : ℕ) → is_marked marks.old k ≡ true → is_marked marks.new k ≡ true }
        ensures own { (k : ℕ) → is_marked marks.new k ≡ true → (is_marked marks.old k ≡ false) →
            (n : ℕ) × (engine_at self.now.dfas k ≡ Some n) }
        ensures silent { (k : ℕ) (t : Told) (p : Place) → place_for self.now.dfas k ≡ Some p → p.dfa ≡ at →
            told self.now k ≡ Some t → is_marked marks.new k ≡ false → IsSilent t }
    {
        let Some(dfa) = self.dfas.list.get(at) else {
            return;
        };
        let Some(run) = self.runs.get(at) else {
            return;
        };
        if !run.is_done {
            return;
        }
        let woken = dfa.woken(run);
        self.mark_members(&dfa.members, &woken, marks);
    }

    /// Marks the numbers of those members that have an engine.
    fn mark_members(&self, members: &[Member], woken: &[u64], marks: &mut MarkSet)
        requires few { length members.now ≤ 64 * length woken.now }
        requires len { length woken.now ≡ 4 }
        requires room { (k n : ℕ) → engine_at self.now.dfas k ≡ Some n → k < mark_room marks.old }
        ensures room { length marks.new ≡ length marks.old }
        ensures kept { (k : ℕ) → is_marked marks.old k ≡ true → is_marked marks.new k ≡ true }
        ensures own { (k : ℕ) → is_marked marks.new k ≡ true → (is_marked marks.old k ≡ false) →
            (n : ℕ) × (engine_at self.now.dfas k ≡ Some n) }
        ensures marked { (k : ℕ) (m own : Member) → slice_get members.now k ≡ Some m →
            member_of self.now.dfas m.number ≡ Some own → has_word_bit woken.now k ≡ true →
            is_marked marks.new m.number ≡ true }
    {
        let mut from = 0;
        while let Some(k) = next_bit_in(woken, from, members.len()) {
            self.mark_number(members[k].number as usize, marks);
            from = k + 1;
        }
    }

    /// Marks a number if it has an engine.
    fn mark_number(&self, number: usize, marks: &mut MarkSet)
        requires room { (k n : ℕ) → engine_at self.now.dfas k ≡ Some n → k < mark_room marks.old }
        ensures room { length marks.new ≡ length marks.old }
        ensures kept { (k : ℕ) → is_marked marks.old k ≡ true → is_marked marks.new k ≡ true }
        ensures own { (k : ℕ) → is_marked marks.new k ≡ true → (is_marked marks.old k ≡ false) →
            (n : ℕ) × (engine_at self.now.dfas k ≡ Some n) }
        ensures marked { (own : Member) → member_of self.now.dfas number ≡ Some own →
            is_marked marks.new number ≡ true }
    {
        let Some(_own) = self.dfas.member(number) else {
            return;
        };
        marks.write(number, true);
    }
}
