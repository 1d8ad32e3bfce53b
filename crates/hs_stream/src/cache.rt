//! Memory that calls on the streams of one database use, with what was seen of its expressions.
ghost use Rattle.std.specs.Prelude.{IfOk};

use crate::scratch::Scratch;
use hs_compile::Database;
use hs_scan::NodeCache;
use std::alloc::{AllocError, Global};

/// Memory that a call on a stream of one database uses, as a [`Scratch`] is, and the states in which the expressions of
/// that database were seen, with what each byte was seen to make of them. What was seen once is looked up from then on,
/// for many expressions at once where matches are few, and for single ones. What is reported is the same. Nothing of a
/// stream outlives a call.
///
/// Beside the scratch it takes up to 2 MB for every 256 expressions, or 4,096 positions, that a chain of the database
/// begins with, and up to 9 MB for the states of single expressions.
#[derive(Drop)]
pub struct Cache {
    /// What a call uses.
    pub(crate) scratch: Scratch,
    /// What was seen.
    pub(crate) states: NodeCache,
}

impl Cache {
    ghost use Rattle.hs_stream.specs.Caches.{IsCacheOf};

    /// A cache for the database, in which nothing was seen yet. The error is want of memory.
    ///
    /// # Cost
    ///
    /// It takes all its memory here, and no call on a stream takes more. One is enough for all streams of a database.
    ///
    /// # Examples
    ///
    /// ```
    /// let mut cache = Cache::new(alloc, &database)?;
    /// ```
    pub fn new(alloc: Global, db: &Database) -> Result<Cache, AllocError>
        ensures { IfOk result (IsCacheOf db.now) }
    {
        Ok(Cache {
            scratch: Scratch::new(alloc, db)?,
            states: NodeCache::new(alloc, &db.graph().table)?,
        })
    }
}
