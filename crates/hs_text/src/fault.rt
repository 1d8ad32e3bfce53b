//! Why a pattern file gives no list.
ghost use Rattle.std.specs.Prelude.{◌≡◌};
ghost use Rattle.hs_text.specs.declared.fault.ListFault.TheVariants.{Memory};

use std::alloc::{AllocError, AllocFailed};
use thiserror::Error;

/// Why a pattern file gave no list.
#[derive(Debug, Drop, Error)]
pub enum ListFault {
    /// The first line that isn't of the form, counted from 1.
    #[error("line {0} isn't of the form of a pattern file")]
    Line(u64),
    /// Memory ran out.
    #[error("out of memory")]
    Memory,
}

impl From<AllocError> for ListFault {
    ghost from_gives = { λ _ fault. fault ≡ Memory };

    fn from(_error: AllocError) -> ListFault {
        ListFault::Memory
    }
}

impl<T: Drop> From<AllocFailed<T>> for ListFault {
    ghost from_gives = { λ _ fault. fault ≡ Memory };

    fn from(_error: AllocFailed<T>) -> ListFault {
        ListFault::Memory
    }
}
