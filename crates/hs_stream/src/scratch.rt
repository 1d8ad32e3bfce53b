//! Memory that calls on streams use.
ghost use Rattle.std.specs.Prelude.{◌≡◌, ◌↔◌, replicate, IsTrue, IfOk};
ghost use Rattle.hs_scan.specs.Scratches.{IsIdle};

use hs_compile::Database;
use std::alloc::{AllocError, Global};

/// Memory that a call on a stream uses. Nothing in it outlives the call, so one scratch serves all streams of the
/// databases that it fits.
///
/// It takes 129 bytes a node of the database, 145 a literal and 53 an identifier, the bytes of a whole region, and less
/// than 1 KB beside them.
#[derive(Drop)]
pub struct Scratch {
    /// Where its memory comes from.
    pub(crate) alloc: Global,
    /// What a scan uses.
    pub(crate) room: hs_scan::Scratch,
    /// Bytes for the region that a scan goes over.
    pub(crate) region: Vec<u8>,
    ghost idle: { IsIdle room },
}

impl Scratch {
    ghost use Rattle.hs_stream.specs.Scratches.{IsScratchOf};

    /// A scratch for the database. The error is want of memory.
    ///
    /// # Cost
    ///
    /// It takes its memory, and fills it. One is enough for all streams of a database.
    ///
    /// # Examples
    ///
    /// ```
    /// let mut scratch = Scratch::new(alloc, &database)?;
    /// ```
    pub fn new(alloc: Global, db: &Database) -> Result<Scratch, AllocError>
        ensures { IfOk result (IsScratchOf db.now) }
    {
        Ok(Scratch {
            alloc,
            room: hs_scan::Scratch::new(alloc, db.graph(), db.literals())?,
            region: zeros(alloc, db.packing().region_size())?,
        })
    }

    /// Whether the scratch serves the streams of the database. So does each one that was made for it, which no caller
    /// needs to ask.
    ///
    /// # Cost
    ///
    /// Four numbers are compared, and it takes no memory.
    ///
    /// # Examples
    ///
    /// ```
    /// if !scratch.fits(&database) {
    ///     scratch = Scratch::new(alloc, &database)?;
    /// }
    /// ```
    pub fn fits(&self, db: &Database) -> bool
        ensures { IsTrue result ↔ IsScratchOf db.now self.now }
    {
        if self.region.len() != db.packing().region_size() {
            return false;
        }
        self.room.fits(db.graph(), db.literals())
    }
}

/// So many bytes 0. The error is want of memory.
pub(crate) fn zeros(alloc: Global, count: usize) -> Result<Vec<u8>, AllocError>
    ensures { IfOk result (λ bytes. bytes.items ≡ replicate count 0) }
{
    vec![in alloc; 0u8; count]
}
