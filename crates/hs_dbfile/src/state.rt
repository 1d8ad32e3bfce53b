//! State files: the region of a stream behind the digest of its list, written and read.
ghost use Rattle.std.specs.Prelude.{◌≡◌, ℕ, ◌<◌, ◌≤◌, ◌-◌, ◌^◌, ◌++◌, length, get_or, MatchResult, IfOk, OnOk};
ghost use Rattle.std.specs.Int.{w32, to_le_bytes};
ghost use Rattle.hs_base.specs.Lists.{Each};
ghost use Rattle.hs_dbfile.specs.declared.state.StateFault.TheVariants.{Form};
ghost use Rattle.hs_dbfile.specs.Reading.{IsRead, Stops, itself};
ghost use Rattle.hs_dbfile.specs.States.{IsDigest, IsStorable, IsState, IsStateFile, IsStateFaultOf};
ghost use Rattle.hs_dbfile.specs.States.{IsOfDigest, Differs};
ghost use Rattle.hs_dbfile.specs.States.{region_bytes, state_bytes, state_of};

use crate::field::{Stop, cut, fixed_at, u16_at, u32_at};
use crate::writing::append_text;
use std::alloc::{AllocError, Global};

/// What every state file begins with.
const NAME: [u8; 4] = *b"HSST";

/// The version of the state files that are written, and of those that are read.
const VERSION: u16 = 2;

/// What the state files that are written begin with: the name and the version.
const HEAD: [u8; 6] = *b"HSST\x02\x00";

/// Why a state file gave no region. Where several of these hold, the first one is told.
#[derive(Clone, Copy, Debug, PartialEq, Eq)]
pub enum StateFault {
    /// The bytes haven't the form of a state file. The longest beginning of them that begins some file of that form has
    /// this length in bytes.
    Form(u64),
    /// The file has this version, which is another one.
    Version(u16),
    /// The digest in the file is another one.
    OtherDatabase,
}

/// What a state file holds, with its region still in the file.
#[derive(Clone, Copy, Debug)]
struct StateParts<'a> {
    version: u16,
    digest: [u8; 32],
    region: &'a [u8],
}

/// The state file of a region: `HSST`, version 2, the digest of its list, and the region behind its length.
///
/// # Errors
///
/// Where the file finds no memory.
pub fn encode_state(alloc: Global, digest: [u8; 32], region: &[u8]) -> Result<Vec<u8>, AllocError>
    requires { length region.now < 2 ^ 32 }
    ensures { IfOk result (λ bytes. IsStateFile bytes.items digest region.now) }
{
    let mut bytes = Vec::new(alloc);
    bytes.extend_from_slice(&HEAD)?;
    append_digest(&mut bytes, digest)?;
    append_region(&mut bytes, region)?;
    Ok(bytes)
}

/// Writes a digest at the end.
fn append_digest(bytes: &mut Vec<u8>, digest: [u8; 32]) -> Result<(), AllocError>
    ensures written { OnOk result (bytes.new.items ≡ bytes.old.items ++ digest) }
    ensures sized { length digest ≡ 32 }
    ensures fits { (i : ℕ) → get_or digest i 0 < 2 ^ 8 }
{
    bytes.extend_from_slice(&digest)
}

/// Writes a region at the end, behind its length.
fn append_region(bytes: &mut Vec<u8>, region: &[u8]) -> Result<(), AllocError>
    requires { length region.now < 2 ^ 32 }
    ensures written { OnOk result (bytes.new.items ≡ bytes.old.items ++ region_bytes region.now) }
    ensures widths { Each (λ b. b < 2 ^ 8) region.now }
{
    bytes.extend_from_slice(&length_bytes(region))?;
    append_text(bytes, region)?;
    Ok(())
}

/// The length of a region, as bytes.
fn length_bytes(region: &[u8]) -> [u8; 4]
    requires { length region.now < 2 ^ 32 }
    ensures { result ≡ to_le_bytes w32 (length region.now) }
{
    (region.len() as u32).to_le_bytes()
}

/// The region of a state file of that digest. It takes no memory.
///
/// # Errors
///
/// `Form` where the bytes haven't the form of a state file, with the length of their longest beginning that begins one:
/// a cut file has its own length, and one with a byte too many its true end. `Version` where the form is there with
/// another version. `OtherDatabase` where form and version are there with another digest.
pub fn read_state<'a>(bytes: &'a [u8], digest: [u8; 32]) -> Result<&'a [u8], StateFault>
    ensures { MatchResult result
        (λ region. IsStateFile bytes.now digest region.now)
        (λ fault. IsStateFaultOf bytes.now digest fault) }
{
    let (parts, rest) = match state_at(bytes) {
        Ok(read) => read,
        Err(stop) => return Err(form(bytes, stop.rest)),
    };
    if rest.is_empty() {
        region_of(&parts, digest)
    } else {
        Err(form(bytes, rest))
    }
}

/// The region of what a state file holds, where it has the version and that digest.
fn region_of<'a>(parts: &StateParts<'a>, digest: [u8; 32]) -> Result<&'a [u8], StateFault>
    ensures { MatchResult result
        (λ region. IsOfDigest (state_of parts.now) digest region.now)
        (λ fault. Differs (state_of parts.now) digest fault) }
{
    if parts.version != VERSION {
        return Err(StateFault::Version(parts.version));
    }
    if parts.digest != digest {
        return Err(StateFault::OtherDatabase);
    }
    Ok(parts.region)
}

/// What has the form of a state file, and what stands behind it.
fn state_at(bytes: &[u8]) -> Result<(StateParts<'_>, &[u8]), Stop<'_>>
    ensures { MatchResult result
        (λ read. IsRead state_bytes IsState bytes.now (state_of read.0) read.1.now)
        (λ stop. Stops state_bytes IsState bytes.now stop.rest.now) }
{
    let rest = fixed_at(bytes, &NAME)?;
    let (version, rest) = u16_at(rest)?;
    let (digest, rest) = digest_at(rest)?;
    let (region, rest) = region_at(rest)?;
    let parts = StateParts {
        version,
        digest: *digest,
        region,
    };
    Ok((parts, rest))
}

/// A digest, and what stands behind it.
fn digest_at(bytes: &[u8]) -> Result<(&[u8; 32], &[u8]), Stop<'_>>
    ensures { MatchResult result
        (λ read. IsRead itself IsDigest bytes.now read.0.now read.1.now)
        (λ stop. Stops itself IsDigest bytes.now stop.rest.now) }
{
    match bytes.split_first_chunk::<32>() {
        None => Err(cut(bytes)),
        Some((digest, rest)) => Ok((digest, rest)),
    }
}

/// A region behind its length, and what stands behind the region.
fn region_at(bytes: &[u8]) -> Result<(&[u8], &[u8]), Stop<'_>>
    ensures { MatchResult result
        (λ read. IsRead region_bytes IsStorable bytes.now read.0.now read.1.now)
        (λ stop. Stops region_bytes IsStorable bytes.now stop.rest.now) }
{
    let (length, behind) = u32_at(bytes)?;
    match behind.split_at_checked(length as usize) {
        None => Err(cut(behind)),
        Some((region, rest)) => Ok((region, rest)),
    }
}

/// The fault at the place where the rest begins.
fn form(bytes: &[u8], rest: &[u8]) -> StateFault
    requires { length rest.now ≤ length bytes.now }
    ensures { result ≡ Form (length bytes.now - length rest.now) }
{
    StateFault::Form((bytes.len() - rest.len()) as u64)
}
