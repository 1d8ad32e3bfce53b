//! What is kept of streams in files, written and read.
ghost use Rattle.std.specs.Prelude.{◌≡◌, IfOk, MatchResult};
ghost use Rattle.hs_stream.specs.Leading.{IsRegionOf};
ghost use Rattle.hs_stream.specs.Saving.{IsExpandFaultOf, IsSaved, told_as};

use crate::fault::ExpandFault;
use crate::running::region_fault;
use hs_compile::Database;
use hs_dbfile::{StateFault, encode_state, read_state};
use std::alloc::{AllocError, Global};

/// Where the length of the region stands in a saved stream.
const SIZE_AT: u64 = 38;

/// Where its region begins.
const REGION_AT: u64 = 42;

/// The saved stream of a region. The error is want of memory.
pub(crate) fn file_of(alloc: Global, db: &Database, region: &[u8]) -> Result<Vec<u8>, AllocError>
    requires region { IsRegionOf db.now region.now }
    ensures { IfOk result (λ bytes. IsSaved db.now bytes.items region.now) }
{
    encode_state(alloc, *db.digest(), &region[..db.region_size()])
}

/// The region in a saved stream of the database. It takes no memory.
///
/// # Errors
///
/// Each of [`ExpandFault`] but `Memory`, in their order.
pub(crate) fn region_in<'a>(db: &Database, bytes: &'a [u8]) -> Result<&'a [u8], ExpandFault>
    ensures { MatchResult result
        (λ region. IsSaved db.now bytes.now region.now × IsRegionOf db.now region.now)
        (λ fault. IsExpandFaultOf db.now bytes.now fault) }
{
    let region = match read_state(bytes, *db.digest()) {
        Ok(region) => region,
        Err(fault) => return Err(fault_of(fault)),
    };
    if region.len() != db.region_size() {
        return Err(ExpandFault::Form(SIZE_AT));
    }
    match region_fault(db, region) {
        None => Ok(region),
        Some(place) => Err(ExpandFault::Form(REGION_AT + place as u64)),
    }
}

/// What the fault of a state file is of a saved stream.
fn fault_of(fault: StateFault) -> ExpandFault
    ensures { result ≡ told_as fault }
{
    match fault {
        StateFault::Form(at) => ExpandFault::Form(at),
        StateFault::Version(version) => ExpandFault::Version(version),
        StateFault::OtherDatabase => ExpandFault::OtherDatabase,
    }
}
