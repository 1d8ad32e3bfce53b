//! An entry in a file.
ghost use Rattle.std.specs.Prelude.{◌≡◌, ◌<◌, ◌^◌, MatchResult, IfOk};
ghost use Rattle.std.specs.Int.{w16, to_le_bytes};
ghost use Rattle.hs_base.specs.Entries.{listed};
ghost use Rattle.hs_dbfile.specs.Files.{entry_bytes};
ghost use Rattle.hs_dbfile.specs.Entries.{IsEntry, listed_parts};
ghost use Rattle.hs_dbfile.specs.Reading.{IsRead, Stops, one_byte};

use crate::field::{Stop, bound_at, text_at, u32_at};
use hs_base::{Entry, ExprId, Ext, Flags};
use std::alloc::{AllocError, Global};

/// How many values the high byte of the flags has: there are eleven flags.
const HIGH_FLAGS: u8 = 8;

/// How many values the bits of the parameters have: there are five parameters.
const PARAMETERS: u8 = 32;

/// The parts of an entry, with its text still in the file.
#[derive(Clone, Copy, Debug)]
pub struct EntryParts<'a> {
    pub id: ExprId,
    pub flags: Flags,
    pub ext: Ext,
    pub text: &'a [u8],
}

/// The entry, with bytes of its own.
pub fn entry_of(alloc: Global, parts: EntryParts<'_>) -> Result<Entry, AllocError>
    ensures { IfOk result (λ entry. listed entry ≡ listed_parts parts.entry) }
{
    let text = parts.text.to_vec(alloc)?;
    Ok(Entry {
        id: parts.id,
        flags: parts.flags,
        ext: parts.ext,
        text,
    })
}

/// An entry, and what stands behind it.
pub fn entry_at(bytes: &[u8]) -> Result<(EntryParts<'_>, &[u8]), Stop<'_>>
    ensures { MatchResult result
        (λ read. IsRead entry_bytes IsEntry bytes.now (listed_parts read.0) read.1.now)
        (λ stop. Stops entry_bytes IsEntry bytes.now stop.rest.now) }
{
    let (id, rest) = u32_at(bytes)?;
    let (flags, rest) = flags_at(rest)?;
    let (bits, rest) = parameters_at(rest)?;
    let (min_offset, rest) = bound_at(rest, bits & Ext::MIN_OFFSET, Ext::NONE.min_offset)?;
    let (max_offset, rest) = bound_at(rest, bits & Ext::MAX_OFFSET, Ext::NONE.max_offset)?;
    let (text, rest) = text_at(rest)?;
    let parts = EntryParts {
        id: ExprId(id),
        flags: Flags(flags),
        ext: Ext {
            bits,
            min_offset,
            max_offset,
        },
        text,
    };
    Ok((parts, rest))
}

/// Flags, and what stands behind them.
fn flags_at(bytes: &[u8]) -> Result<(u16, &[u8]), Stop<'_>>
    ensures { MatchResult result
        (λ read. IsRead (to_le_bytes w16) (λ n. n < 2 ^ 11) bytes.now read.0 read.1.now)
        (λ stop. Stops (to_le_bytes w16) (λ n. n < 2 ^ 11) bytes.now stop.rest.now) }
{
    match bytes {
        [] => Err(Stop { rest: bytes }),
        [_] => Err(Stop { rest: &bytes[1..] }),
        [low, high, rest @ ..] => {
            if *high < HIGH_FLAGS {
                Ok((u16::from_le_bytes([*low, *high]), rest))
            } else {
                Err(Stop { rest: &bytes[1..] })
            }
        }
    }
}

/// The bits of the parameters, and what stands behind them.
fn parameters_at(bytes: &[u8]) -> Result<(u8, &[u8]), Stop<'_>>
    ensures { MatchResult result
        (λ read. IsRead one_byte (λ n. n < 2 ^ 5) bytes.now read.0 read.1.now)
        (λ stop. Stops one_byte (λ n. n < 2 ^ 5) bytes.now stop.rest.now) }
{
    match bytes {
        [] => Err(Stop { rest: bytes }),
        [bits, rest @ ..] => {
            if *bits < PARAMETERS {
                Ok((*bits, rest))
            } else {
                Err(Stop { rest: bytes })
            }
        }
    }
}
