//! Why bytes gave no list.
ghost use Rattle.std.specs.Prelude.{◌≡◌};
ghost use Rattle.hs_dbfile.specs.declared.fault.DecodeFault.TheVariants.{Memory};

use std::alloc::{AllocError, AllocFailed};
use thiserror::Error;

/// Why a database file gave no list.
#[derive(Debug, Drop, Error)]
pub enum DecodeFault {
    /// The bytes aren't a database file. The longest beginning of them that begins some database file has this length
    /// in bytes.
    #[error("the bytes are no database file from byte {0} on")]
    Form(u64),
    /// Memory ran out.
    #[error("out of memory")]
    Memory,
}

impl From<AllocError> for DecodeFault {
    ghost from_gives = { λ _ fault. fault ≡ Memory };

    fn from(_error: AllocError) -> DecodeFault {
        DecodeFault::Memory
    }
}

impl<T: Drop> From<AllocFailed<T>> for DecodeFault {
    ghost from_gives = { λ _ fault. fault ≡ Memory };

    fn from(_error: AllocFailed<T>) -> DecodeFault {
        DecodeFault::Memory
    }
}
