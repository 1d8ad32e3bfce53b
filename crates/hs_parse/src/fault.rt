//! Why a text gave no tree.
ghost use Rattle.std.specs.Prelude.{◌≡◌};
ghost use Rattle.hs_parse.specs.declared.fault.ParseFault.TheVariants.{Memory};

use hs_base::Refusal;
use std::alloc::{AllocError, AllocFailed};
use thiserror::Error;

/// Why a text gave no tree.
#[derive(Debug, Drop, Error)]
pub enum ParseFault {
    /// The text isn't read. The place in the refusal is an offset in bytes in the text.
    #[error("the expression is refused: {0}")]
    Refused(Refusal),
    /// Memory ran out.
    #[error("out of memory")]
    Memory,
}

impl From<AllocError> for ParseFault {
    ghost from_gives = { λ _ fault. fault ≡ Memory };

    fn from(_error: AllocError) -> ParseFault {
        ParseFault::Memory
    }
}

impl<T: Drop> From<AllocFailed<T>> for ParseFault {
    ghost from_gives = { λ _ fault. fault ≡ Memory };

    fn from(_error: AllocFailed<T>) -> ParseFault {
        ParseFault::Memory
    }
}
