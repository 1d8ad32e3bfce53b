//! The open streams, by name.
ghost use Rattle.std.specs.Prelude.{◌≡◌, ◌≢◌, ℕ, List, Option, None, Some, [], ◌∷◌, OnOk, OnErr, IfErr, IsTrue, ◌↔◌};
ghost use Rattle.std.specs.Prelude.{MatchOption};
ghost use Rattle.hs_reports.specs.Events.{Takes};
ghost use Rattle.hs_stream.specs.Caches.{IsCacheOf};
ghost use Rattle.hs_script.specs.Actions.{Open, Reset, Close};
ghost use Rattle.hs_tool.specs.ExpandWords.{word_of_fault};

use hs_compile::Database;
use hs_engine::Steps;
use hs_stream::{Cache, Events, ExpandFault, Stream};
use hs_text::{Reply, Verb, Word};
use std::alloc::{AllocError, Global};
use std::collections::BTreeMap;
use std::sync::ledger::Ledger;

/// How many streams are open at most.
const MAX_STREAMS: usize = 4096;

/// The open streams, by name.
#[derive(Drop)]
pub struct Streams {
    pub(crate) map: BTreeMap<Vec<u8>, Stream>,
}

impl Streams {
    ghost use Rattle.hs_tool.specs.OpenStreams.{stream_at, count_of, AreStreamsOf, PutsStream};
    ghost use Rattle.hs_tool.specs.OpenStreams.{PerformsStill};
    ghost use Rattle.hs_tool.specs.Expanding.{Adds, AddsExpanded, Expands, Hinders, IsFree};
    ghost use Rattle.hs_stream.specs.Saving.{IsExpandFaultOf};

    /// No stream is open.
    pub(crate) fn new(alloc: Global) -> Streams
        ensures none { (name : List ℕ) → stream_at result name ≡ None }
        ensures count { count_of result ≡ 0 }
    {
        Streams {
            map: BTreeMap::new(alloc),
        }
    }

    /// Opens a stream of that name.
    pub(crate) fn open(&mut self, alloc: Global, db: &Database, name: &[u8]) -> Reply
        requires fits { AreStreamsOf db.now self.old }
        ensures fits { AreStreamsOf db.now self.new }
        ensures performs { PerformsStill db.now self.old self.new (Open name.now ∷ []) (record {
          reports = [];
          reply =
              Some result;
        } ∷ []) }
    {
        if self.map.contains_key(name) {
            return Reply::No(Verb::Open, Word::Exists);
        }
        if self.map.len() >= MAX_STREAMS {
            return Reply::No(Verb::Open, Word::Full);
        }
        match self.add(alloc, db, name) {
            Ok(()) => Reply::Done(Verb::Open, None),
            Err(_) => Reply::No(Verb::Open, Word::Memory),
        }
    }

    /// Adds an empty stream of a name that isn't open. The error is want of memory, and changes nothing.
    fn add(&mut self, alloc: Global, db: &Database, name: &[u8]) -> Result<(), AllocError>
        requires unknown { stream_at self.old name.now ≡ None }
        ensures added { OnOk result (Adds db.now self.old self.new name.now) }
        ensures unchanged { OnErr result (PutsStream self.old self.new name.now None) }
    {
        let key = Vec::from_slice(alloc, name)?;
        let stream = Stream::open(alloc, db)?;
        self.map.insert(key, stream)?;
        Ok(())
    }

    /// Why no stream of that name can be opened, want of memory aside.
    pub(crate) fn hindrance(&self, name: &[u8]) -> Option<Word>
        ensures { MatchOption result (IsFree self.now name.now) (Hinders self.now name.now) }
    {
        if self.map.contains_key(name) {
            return Some(Word::Exists);
        }
        if self.map.len() >= MAX_STREAMS {
            return Some(Word::Full);
        }
        None
    }

    /// Opens a stream of that name, which isn't open, that goes on as the one that was saved as these bytes.
    pub(crate) fn expand(
        &mut self,
        alloc: Global,
        db: &Database,
        name: &[u8],
        bytes: &[u8],
    ) -> Reply
        requires fits { AreStreamsOf db.now self.old }
        requires unknown { stream_at self.old name.now ≡ None }
        ensures fits { AreStreamsOf db.now self.new }
        ensures expands { Expands db.now self.old self.new name.now bytes.now result }
    {
        match self.add_expanded(alloc, db, name, bytes) {
            Ok(()) => Reply::Done(Verb::Expand, None),
            Err(fault) => Reply::No(Verb::Expand, word_of(fault)),
        }
    }

    /// Adds the stream that was saved as these bytes, under a name that isn't open. An error changes nothing.
    fn add_expanded(
        &mut self,
        alloc: Global,
        db: &Database,
        name: &[u8],
        bytes: &[u8],
    ) -> Result<(), ExpandFault>
        requires unknown { stream_at self.old name.now ≡ None }
        ensures added { OnOk result (AddsExpanded db.now self.old self.new name.now bytes.now) }
        ensures unchanged { OnErr result (PutsStream self.old self.new name.now None) }
        ensures fault { IfErr result (IsExpandFaultOf db.now bytes.now) }
    {
        let stream = match Stream::expand(alloc, db, bytes) {
            Ok(stream) => stream,
            Err(fault) => return Err(fault),
        };
        let Ok(key) = Vec::from_slice(alloc, name) else {
            return Err(ExpandFault::Memory);
        };
        match self.map.insert(key, stream) {
            Ok(_) => Ok(()),
            Err(_) => Err(ExpandFault::Memory),
        }
    }

    /// Resets the stream of that name.
    pub(crate) fn reset<V: Events, L: Ledger>(
        &mut self,
        db: &Database,
        cache: &mut Cache,
        name: &[u8],
        events: &mut V,
        steps: &mut Steps<L>,
    ) -> Reply
        requires fits { AreStreamsOf db.now self.old }
        requires cache { IsCacheOf db.now cache.old }
        ensures fits { AreStreamsOf db.now self.new }
        ensures cache { IsCacheOf db.now cache.new }
        ensures performs { Takes V.tells events.old events.new
            (λ pairs. PerformsStill db.now self.old self.new (Reset name.now ∷ [])
            (record { reports = pairs; reply = Some result } ∷ [])) }
    {
        match self.map.get_mut(name) {
            None => Reply::No(Verb::Reset, Word::Unknown),
            Some(stream) => {
                stream.reset_cached(db, cache, events, steps);
                Reply::Done(Verb::Reset, None)
            }
        }
    }

    /// Closes the stream of that name.
    pub(crate) fn close<V: Events, L: Ledger>(
        &mut self,
        db: &Database,
        cache: &mut Cache,
        name: &[u8],
        events: &mut V,
        steps: &mut Steps<L>,
    ) -> Reply
        requires fits { AreStreamsOf db.now self.old }
        requires cache { IsCacheOf db.now cache.old }
        ensures fits { AreStreamsOf db.now self.new }
        ensures cache { IsCacheOf db.now cache.new }
        ensures performs { Takes V.tells events.old events.new
            (λ pairs. PerformsStill db.now self.old self.new (Close name.now ∷ [])
            (record { reports = pairs; reply = Some result } ∷ [])) }
    {
        match self.map.remove(name) {
            None => Reply::No(Verb::Close, Word::Unknown),
            Some(stream) => {
                stream.close_cached(db, cache, events, steps);
                Reply::Done(Verb::Close, None)
            }
        }
    }
}

/// The word of a fault of saved streams.
fn word_of(fault: ExpandFault) -> Word
    ensures { result ≡ word_of_fault fault }
{
    match fault {
        ExpandFault::Form(_) => Word::Form,
        ExpandFault::Version(_) => Word::Version,
        ExpandFault::OtherDatabase => Word::Database,
        ExpandFault::Memory => Word::Memory,
    }
}
