//! One stream.
ghost use Rattle.std.specs.Prelude.{◌≡◌, ◌↔◌, ◌+◌, ◌*◌, ◌<◌, ◌≤◌, length, IsTrue, IsErr, IfOk, OnOk, OnErr};
ghost use Rattle.std.specs.Prelude.{MatchResult, []};
ghost use Rattle.hs_base.specs.Offsets.{greatest_offset};
ghost use Rattle.hs_compile.specs.Databases.{nodes_of};
ghost use Rattle.hs_reports.specs.Events.{Takes};
ghost use Rattle.hs_stream.specs.Scratches.{AreStatesOf, IsScratchOf};

use crate::cache::Cache;
use crate::fault::ExpandFault;
use crate::packed::{end_packed, write_kept};
use crate::running::is_region;
use crate::saving::{file_of, region_in};
use crate::scratch::{Scratch, zeros};
use hs_base::MAX_OFFSET;
use hs_bits::clear_bits;
use hs_compile::Database;
use hs_engine::Steps;
use hs_regions::offset_in;
use hs_reports::Events;
use hs_scan::NodeCache;
use std::alloc::{AllocError, Global};
use std::sync::ledger::Ledger;
use thiserror::Error;

/// Bytes aren't taken, since with them the stream would be longer than [`MAX_OFFSET`].
#[derive(Clone, Copy, Debug, PartialEq, Eq, Error)]
#[error("the stream can't take that many bytes")]
pub struct StreamFull;

/// A stream that is scanned for the expressions of a database: what is kept of its bytes, and which database it is. It
/// takes the bytes of [`Database::region_size`], and 56 beside them.
#[derive(Debug, Drop)]
pub struct Stream {
    /// All that is kept of its bytes.
    region: Vec<u8>,
    /// The digest of the database.
    digest: [u8; 32],
}

impl Stream {
    ghost use Rattle.hs_stream.specs.Caches.{IsCacheOf};
    ghost use Rattle.hs_stream.specs.Foreign.{MayClose, MayWrite};
    ghost use Rattle.hs_stream.specs.Saving.{IsExpanded, IsExpandFaultOf, IsSaved};
    ghost use Rattle.hs_stream.specs.Streams.{offset_of, region_of, IsStreamOf, IsFresh, Writes, Closes};

    /// A stream of which no byte has come. The error is want of memory.
    ///
    /// # Cost
    ///
    /// It takes the bytes that are kept ([`Database::region_size`]) and sets them to 0. Of the calls on a stream only
    /// `save` takes memory too.
    ///
    /// # Examples
    ///
    /// ```
    /// let mut stream = Stream::open(alloc, &database)?;
    /// ```
    pub fn open(alloc: Global, db: &Database) -> Result<Stream, AllocError>
        ensures fits { IfOk result (IsStreamOf db.now) }
        ensures offset { IfOk result (λ stream. offset_of stream ≡ 0) }
        ensures fresh { IfOk result (IsFresh db.now) }
    {
        let _packing = db.packing();
        let region = zeros(alloc, db.region_size())?;
        Ok(Stream {
            region,
            digest: *db.digest(),
        })
    }

    /// Takes the next bytes, and reports what they decide, in the order in which they do.
    ///
    /// # Errors
    ///
    /// `StreamFull` exactly where the stream with the bytes would be longer than [`MAX_OFFSET`]. It is then as it was,
    /// and nothing was reported.
    ///
    /// # Cost
    ///
    /// No memory. The region is made of what is kept, looked through once, and packed again. The bytes are looked
    /// through for literals, 512 at a time, and over these only nodes are run that a literal or a byte wakes or in
    /// which something is live: `README.md` has speeds. No byte takes more than 48 steps of engines for each node of
    /// the database.
    ///
    /// # Examples
    ///
    /// ```
    /// let mut told = Collected::new(alloc, 100)?;
    /// stream.write(&database, &mut scratch, b"foo", &mut told, &mut steps)?;
    /// for report in told.reports() {
    ///     println!(rt; "{} {}", report.id.0, report.to)?;
    /// }
    /// ```
    pub fn write<V: Events, L: Ledger>(
        &mut self,
        db: &Database,
        scratch: &mut Scratch,
        bytes: &[u8],
        events: &mut V,
        steps: &mut Steps<L>,
    ) -> Result<(), StreamFull>
        requires fits { IsStreamOf db.now self.old }
        requires scratch { IsScratchOf db.now scratch.old }
        ensures fits { IsStreamOf db.now self.new }
        ensures scratch { IsScratchOf db.now scratch.new }
        ensures full { IsErr result ↔ (greatest_offset < offset_of self.old + length bytes.now) }
        ensures kept { OnErr result (self.new ≡ self.old) }
        ensures untold { OnErr result (events.new ≡ events.old) }
        ensures offset { OnOk result (offset_of self.new ≡ offset_of self.old + length bytes.now) }
        ensures told { OnOk result (Takes V.tells events.old events.new (Writes db.now self.old self.new bytes.now)) }
        ensures any { OnOk result (Takes V.tells events.old events.new (MayWrite db.now self.old self.new bytes.now)) }
        ensures idle { bytes.now ≡ [] → (events.new ≡ events.old) × (self.new ≡ self.old) }
        ensures ticks { steps.new ≤ steps.old + 48 * (length (nodes_of db.now) * length bytes.now) }
    {
        let mut states = NodeCache::none(scratch.alloc, &db.graph().table);
        self.write_by(db, &mut states, scratch, bytes, events, steps)
    }

    /// Takes the next bytes as [`Stream::write`] does, with what a cache has seen.
    ///
    /// # Errors
    ///
    /// Those of `write`, where it is.
    ///
    /// # Cost
    ///
    /// No memory. It is that of `write`, but for expressions, which are looked up where a byte was seen in the same
    /// states before: of those that a chain begins with many as one, and else each by itself.
    ///
    /// # Examples
    ///
    /// ```
    /// let mut cache = Cache::new(alloc, &database)?;
    /// stream.write_cached(&database, &mut cache, b"foo", &mut told, &mut steps)?;
    /// ```
    pub fn write_cached<V: Events, L: Ledger>(
        &mut self,
        db: &Database,
        cache: &mut Cache,
        bytes: &[u8],
        events: &mut V,
        steps: &mut Steps<L>,
    ) -> Result<(), StreamFull>
        requires fits { IsStreamOf db.now self.old }
        requires cache { IsCacheOf db.now cache.old }
        ensures fits { IsStreamOf db.now self.new }
        ensures cache { IsCacheOf db.now cache.new }
        ensures full { IsErr result ↔ (greatest_offset < offset_of self.old + length bytes.now) }
        ensures kept { OnErr result (self.new ≡ self.old) }
        ensures untold { OnErr result (events.new ≡ events.old) }
        ensures offset { OnOk result (offset_of self.new ≡ offset_of self.old + length bytes.now) }
        ensures told { OnOk result (Takes V.tells events.old events.new (Writes db.now self.old self.new bytes.now)) }
        ensures any { OnOk result (Takes V.tells events.old events.new (MayWrite db.now self.old self.new bytes.now)) }
        ensures idle { bytes.now ≡ [] → (events.new ≡ events.old) × (self.new ≡ self.old) }
        ensures ticks { steps.new ≤ steps.old + 48 * (length (nodes_of db.now) * length bytes.now) }
    {
        self.write_by(
            db,
            &mut cache.states,
            &mut cache.scratch,
            bytes,
            events,
            steps,
        )
    }

    /// Takes the next bytes, with the states that were seen.
    fn write_by<V: Events, L: Ledger>(
        &mut self,
        db: &Database,
        states: &mut NodeCache,
        scratch: &mut Scratch,
        bytes: &[u8],
        events: &mut V,
        steps: &mut Steps<L>,
    ) -> Result<(), StreamFull>
        requires fits { IsStreamOf db.now self.old }
        requires scratch { IsScratchOf db.now scratch.old }
        requires states { AreStatesOf db.now states.old }
        ensures fits { IsStreamOf db.now self.new }
        ensures scratch { IsScratchOf db.now scratch.new }
        ensures states { AreStatesOf db.now states.new }
        ensures full { IsErr result ↔ (greatest_offset < offset_of self.old + length bytes.now) }
        ensures kept { OnErr result (self.new ≡ self.old) }
        ensures untold { OnErr result (events.new ≡ events.old) }
        ensures offset { OnOk result (offset_of self.new ≡ offset_of self.old + length bytes.now) }
        ensures told { OnOk result (Takes V.tells events.old events.new (Writes db.now self.old self.new bytes.now)) }
        ensures any { OnOk result (Takes V.tells events.old events.new (MayWrite db.now self.old self.new bytes.now)) }
        ensures idle { bytes.now ≡ [] → (events.new ≡ events.old) × (self.new ≡ self.old) }
        ensures ticks { steps.new ≤ steps.old + 48 * (length (nodes_of db.now) * length bytes.now) }
    {
        if !has_room(self.offset(db), bytes.len()) {
            return Err(StreamFull);
        }
        write_kept(
            db,
            &mut self.region,
            &mut scratch.region,
            states,
            &mut scratch.room,
            bytes,
            events,
            steps,
        );
        Ok(())
    }

    /// Ends the stream, and reports what only its end decides, by end, then identifier.
    ///
    /// # Cost
    ///
    /// No memory, and that of the stream is given back. It looks at each identifier, and asks the nodes what they tell
    /// behind the last byte, in at most 16 steps of engines for each.
    ///
    /// # Examples
    ///
    /// ```
    /// let mut told = Collected::new(alloc, 100)?;
    /// stream.close(&database, &mut scratch, &mut told, &mut steps);
    /// println!(rt; "{} more", told.reports().len())?;
    /// ```
    pub fn close<V: Events, L: Ledger>(
        self,
        db: &Database,
        scratch: &mut Scratch,
        events: &mut V,
        steps: &mut Steps<L>,
    )
        requires fits { IsStreamOf db.now self }
        requires scratch { IsScratchOf db.now scratch.old }
        ensures scratch { IsScratchOf db.now scratch.new }
        ensures told { Takes V.tells events.old events.new (Closes db.now self) }
        ensures any { Takes V.tells events.old events.new (MayClose db.now self) }
        ensures ticks { steps.new ≤ steps.old + 16 * length (nodes_of db.now) }
    {
        let Stream { region, .. } = self;
        end_packed(
            db,
            &region,
            &mut scratch.region,
            &mut scratch.room,
            events,
            steps,
        );
    }

    /// Ends the stream as [`Stream::close`] does, with the memory of a cache.
    ///
    /// # Cost
    ///
    /// That of `close`.
    ///
    /// # Examples
    ///
    /// ```
    /// stream.close_cached(&database, &mut cache, &mut told, &mut steps);
    /// ```
    pub fn close_cached<V: Events, L: Ledger>(
        self,
        db: &Database,
        cache: &mut Cache,
        events: &mut V,
        steps: &mut Steps<L>,
    )
        requires fits { IsStreamOf db.now self }
        requires cache { IsCacheOf db.now cache.old }
        ensures cache { IsCacheOf db.now cache.new }
        ensures told { Takes V.tells events.old events.new (Closes db.now self) }
        ensures any { Takes V.tells events.old events.new (MayClose db.now self) }
        ensures ticks { steps.new ≤ steps.old + 16 * length (nodes_of db.now) }
    {
        self.close(db, &mut cache.scratch, events, steps)
    }

    /// Ends the stream as [`Stream::reset`] does, with the memory of a cache.
    ///
    /// # Cost
    ///
    /// That of `reset`.
    ///
    /// # Examples
    ///
    /// ```
    /// stream.reset_cached(&database, &mut cache, &mut told, &mut steps);
    /// ```
    pub fn reset_cached<V: Events, L: Ledger>(
        &mut self,
        db: &Database,
        cache: &mut Cache,
        events: &mut V,
        steps: &mut Steps<L>,
    )
        requires fits { IsStreamOf db.now self.old }
        requires cache { IsCacheOf db.now cache.old }
        ensures fits { IsStreamOf db.now self.new }
        ensures cache { IsCacheOf db.now cache.new }
        ensures offset { offset_of self.new ≡ 0 }
        ensures fresh { IsFresh db.now self.new }
        ensures told { Takes V.tells events.old events.new (Closes db.now self.old) }
        ensures any { Takes V.tells events.old events.new (MayClose db.now self.old) }
        ensures ticks { steps.new ≤ steps.old + 16 * length (nodes_of db.now) }
    {
        self.reset(db, &mut cache.scratch, events, steps)
    }

    /// Ends the stream, and reports what only its end decides, by end, then identifier. It then goes on as a stream of
    /// which no byte has come.
    ///
    /// # Cost
    ///
    /// That of `close`, and the bytes that are kept are set to 0. No memory is taken or given back.
    ///
    /// # Examples
    ///
    /// ```
    /// stream.reset(&database, &mut scratch, &mut told, &mut steps);
    /// stream.write(&database, &mut scratch, b"another text", &mut told, &mut steps)?;
    /// ```
    pub fn reset<V: Events, L: Ledger>(
        &mut self,
        db: &Database,
        scratch: &mut Scratch,
        events: &mut V,
        steps: &mut Steps<L>,
    )
        requires fits { IsStreamOf db.now self.old }
        requires scratch { IsScratchOf db.now scratch.old }
        ensures fits { IsStreamOf db.now self.new }
        ensures scratch { IsScratchOf db.now scratch.new }
        ensures offset { offset_of self.new ≡ 0 }
        ensures fresh { IsFresh db.now self.new }
        ensures told { Takes V.tells events.old events.new (Closes db.now self.old) }
        ensures any { Takes V.tells events.old events.new (MayClose db.now self.old) }
        ensures ticks { steps.new ≤ steps.old + 16 * length (nodes_of db.now) }
    {
        end_packed(
            db,
            &self.region,
            &mut scratch.region,
            &mut scratch.room,
            events,
            steps,
        );
        clear_bits(&mut self.region);
    }

    /// The stream as bytes, from which [`Stream::expand`] makes it anew: a name and a version, the digest of the
    /// database, and all that is kept of the stream. The error is want of memory.
    ///
    /// # Cost
    ///
    /// It takes as many bytes as the saved stream has ([`Database::stream_size`], 42 more than are kept), and copies
    /// these into them.
    ///
    /// # Examples
    ///
    /// ```
    /// let saved = stream.save(alloc, &database)?;
    /// fs::write(rt, "half", &saved)?;
    /// ```
    pub fn save(&self, alloc: Global, db: &Database) -> Result<Vec<u8>, AllocError>
        requires fits { IsStreamOf db.now self.now }
        ensures { IfOk result (λ bytes. IsSaved db.now bytes.items (region_of self.now)) }
    {
        file_of(alloc, db, &self.region)
    }

    /// The stream that was saved as these bytes. It goes on as if it had never been saved.
    ///
    /// # Errors
    ///
    /// `Form` where the bytes haven't the form of a state file, with the length of their longest beginning that begins
    /// one. `Version` where the form is there with another version. `OtherDatabase` where form and version are there
    /// with the digest of another database. Behind these `Form` again: 38 where the length in the file isn't that of
    /// what the database keeps, else the place in the file of the first part of this that breaks its rule.
    /// `Memory` is want of memory.
    ///
    /// # Cost
    ///
    /// It looks at each part of what is kept, and takes the bytes of it ([`Database::region_size`]) only where the
    /// bytes are a saved stream.
    ///
    /// # Examples
    ///
    /// ```
    /// let saved = fs::read(rt, "half")?;
    /// let mut stream = Stream::expand(alloc, &database, &saved)?;
    /// ```
    pub fn expand(alloc: Global, db: &Database, bytes: &[u8]) -> Result<Stream, ExpandFault>
        ensures { MatchResult result
            (λ stream. IsExpanded db.now bytes.now stream)
            (λ fault. IsExpandFaultOf db.now bytes.now fault) }
    {
        let kept = match region_in(db, bytes) {
            Ok(kept) => kept,
            Err(fault) => return Err(fault),
        };
        let Ok(region) = kept.to_vec(alloc) else {
            return Err(ExpandFault::Memory);
        };
        let digest = *db.digest();
        Ok(Stream { region, digest })
    }

    /// Whether the stream is one of the database: it has its digest, and what is kept is well formed for it. So is each
    /// one that was opened or expanded for it, which no caller needs to ask.
    ///
    /// # Cost
    ///
    /// It compares 32 bytes, and then looks at each part of what is kept. It takes no memory.
    ///
    /// # Examples
    ///
    /// ```
    /// if stream.fits(&database) {
    ///     println!(rt; "{} bytes so far", stream.offset(&database))?;
    /// }
    /// ```
    pub fn fits(&self, db: &Database) -> bool
        ensures { IsTrue result ↔ IsStreamOf db.now self.now }
    {
        if self.digest != *db.digest() {
            return false;
        }
        is_region(db, &self.region)
    }

    /// How many bytes of the stream, which is one of the database, have come.
    ///
    /// # Cost
    ///
    /// Eight bytes are read, and it takes no memory.
    ///
    /// # Examples
    ///
    /// ```
    /// println!(rt; "{} bytes so far", stream.offset(&database))?;
    /// ```
    pub fn offset(&self, db: &Database) -> u64
        requires fits { IsStreamOf db.now self.now }
        ensures { result ≡ offset_of self.now }
    {
        let _packing = db.packing();
        offset_in(&self.region)
    }

    /// All that is kept of its bytes.
    ///
    /// # Cost
    ///
    /// It is lent: nothing is copied, and it takes no memory.
    ///
    /// # Examples
    ///
    /// ```
    /// let is_alike = stream.region() == other.region();
    /// ```
    pub fn region(&self) -> &[u8]
        ensures { result.now ≡ region_of self.now }
    {
        &self.region
    }
}

/// Whether so many bytes may come at the offset.
///
/// # Cost
///
/// Two comparisons, and no memory.
///
/// # Examples
///
/// ```
/// let is_taken = has_room(stream.offset(&database), bytes.len());
/// ```
pub fn has_room(offset: u64, count: usize) -> bool
    ensures { IsTrue result ↔ (offset + count ≤ greatest_offset) }
{
    offset <= MAX_OFFSET && count as u64 <= MAX_OFFSET - offset
}
