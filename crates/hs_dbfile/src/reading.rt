//! The reader of database files.
ghost use Rattle.std.specs.Prelude.{◌≡◌, ◌<◌, ◌≤◌, ◌-◌, ◌^◌, ◌++◌, length, map, MatchResult};
ghost use Rattle.std.specs.Int.{w32, to_le_bytes};
ghost use Rattle.hs_base.specs.Entries.{listed};
ghost use Rattle.hs_dbfile.specs.declared.fault.DecodeFault.TheVariants.{Form};
ghost use Rattle.hs_dbfile.specs.Files.{head_bytes, IsDatabaseFile};
ghost use Rattle.hs_dbfile.specs.Entries.{IsFaultOf};
ghost use Rattle.hs_dbfile.specs.Reading.{IsRead, Stops, start_bytes};

use crate::fault::DecodeFault;
use crate::field::{Stop, fixed_at, u32_at};
use crate::parts::{entry_at, entry_of};
use hs_base::Entry;
use std::alloc::Global;

/// What every database file begins with: its name, and version 1.
pub const HEAD: [u8; 6] = *b"HSDB\x01\x00";

/// The entries of a database file, in its order. A file whose entries have refusals is one too.
///
/// # Errors
///
/// `Form` where the bytes aren't a database file, with the length of their longest beginning that begins some database
/// file: a cut file has its own length, and one with a byte too many its true end. `Memory` where the list finds no
/// memory.
pub fn decode_file(alloc: Global, bytes: &[u8]) -> Result<Vec<Entry>, DecodeFault>
    ensures { MatchResult result
        (λ entries. IsDatabaseFile bytes.now (map listed entries.items))
        (λ fault. IsFaultOf bytes.now fault) }
{
    let (count, behind) = match start_at(bytes) {
        Ok(read) => read,
        Err(stop) => return Err(form(bytes, stop.rest)),
    };
    let mut entries = Vec::new(alloc);
    let mut rest = behind;
    for _entry in 0..count {
        let (parts, next) = match entry_at(rest) {
            Ok(read) => read,
            Err(stop) => return Err(form(bytes, stop.rest)),
        };
        let entry = entry_of(alloc, parts)?;
        entries.push(entry)?;
        rest = next;
    }
    if rest.is_empty() {
        Ok(entries)
    } else {
        Err(form(bytes, rest))
    }
}

/// How many entries there are, behind the head.
fn start_at(bytes: &[u8]) -> Result<(u32, &[u8]), Stop<'_>>
    ensures { MatchResult result
        (λ read. IsRead start_bytes (λ n. n < 2 ^ 32) bytes.now read.0 read.1.now)
        (λ stop. Stops start_bytes (λ n. n < 2 ^ 32) bytes.now stop.rest.now) }
{
    let behind = fixed_at(bytes, &HEAD)?;
    u32_at(behind)
}

/// The fault at the place where the rest begins.
fn form(bytes: &[u8], rest: &[u8]) -> DecodeFault
    requires { length rest.now ≤ length bytes.now }
    ensures { result ≡ Form (length bytes.now - length rest.now) }
{
    DecodeFault::Form((bytes.len() - rest.len()) as u64)
}
