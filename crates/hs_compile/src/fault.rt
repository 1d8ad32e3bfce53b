//! Why a list is not compiled.
ghost use Rattle.std.specs.Prelude.{◌≡◌};
ghost use Rattle.hs_compile.specs.declared.fault.CompileFault.TheVariants.{Memory};

use hs_base::{ExprId, Refusal};
use std::alloc::{AllocError, AllocFailed};
use thiserror::Error;

/// Why a list isn't compiled.
#[derive(Debug, Drop, Error)]
pub enum CompileFault {
    /// An entry is refused.
    #[error("entry {entry} is refused: {refusal}")]
    Refused {
        /// The number of the entry, counted from 1.
        entry: u32,
        /// Its identifier.
        id: ExprId,
        /// The first of the reasons.
        refusal: Refusal,
    },
    /// Memory was wanted.
    #[error("out of memory")]
    Memory,
}

impl From<AllocError> for CompileFault {
    ghost from_gives = { λ _ fault. fault ≡ Memory };

    fn from(_error: AllocError) -> CompileFault {
        CompileFault::Memory
    }
}

impl<T: Drop> From<AllocFailed<T>> for CompileFault {
    ghost from_gives = { λ _ fault. fault ≡ Memory };

    fn from(_error: AllocFailed<T>) -> CompileFault {
        CompileFault::Memory
    }
}
