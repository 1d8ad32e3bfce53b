//! The fields of a file, read from the front of bytes: numbers, the lowest byte first, and bytes that are fixed.
ghost use Rattle.std.specs.Prelude.{◌≡◌, ◌<◌, ◌^◌, [], ◌++◌, MatchResult};
ghost use Rattle.std.specs.Int.{w16, w32, w64, to_le_bytes};
ghost use Rattle.hs_dbfile.specs.Files.{text_bytes};
ghost use Rattle.hs_dbfile.specs.Reading.{IsRead, Stops, always, Always, IsBound, IsText};

/// The place where reading stopped.
#[derive(Clone, Copy, Debug)]
pub struct Stop<'a> {
    /// What stands from the first byte on with which no value goes on. It is empty where the bytes only begin a value.
    pub rest: &'a [u8],
}

/// The stop at the end of the bytes.
pub fn cut(bytes: &[u8]) -> Stop<'_>
    ensures { result.rest.now ≡ [] }
{
    Stop {
        rest: &bytes[bytes.len()..],
    }
}

/// A number of 16 bits, and what stands behind it.
pub fn u16_at(bytes: &[u8]) -> Result<(u16, &[u8]), Stop<'_>>
    ensures { MatchResult result
        (λ read. IsRead (to_le_bytes w16) (λ n. n < 2 ^ 16) bytes.now read.0 read.1.now)
        (λ stop. Stops (to_le_bytes w16) (λ n. n < 2 ^ 16) bytes.now stop.rest.now) }
{
    match bytes.split_first_chunk::<2>() {
        None => Err(cut(bytes)),
        Some((number, rest)) => Ok((u16::from_le_bytes(*number), rest)),
    }
}

/// A number of 32 bits, and what stands behind it.
pub fn u32_at(bytes: &[u8]) -> Result<(u32, &[u8]), Stop<'_>>
    ensures { MatchResult result
        (λ read. IsRead (to_le_bytes w32) (λ n. n < 2 ^ 32) bytes.now read.0 read.1.now)
        (λ stop. Stops (to_le_bytes w32) (λ n. n < 2 ^ 32) bytes.now stop.rest.now) }
{
    match bytes.split_first_chunk::<4>() {
        None => Err(cut(bytes)),
        Some((number, rest)) => Ok((u32::from_le_bytes(*number), rest)),
    }
}

/// A number of 64 bits, and what stands behind it.
pub fn u64_at(bytes: &[u8]) -> Result<(u64, &[u8]), Stop<'_>>
    ensures { MatchResult result
        (λ read. IsRead (to_le_bytes w64) (λ n. n < 2 ^ 64) bytes.now read.0 read.1.now)
        (λ stop. Stops (to_le_bytes w64) (λ n. n < 2 ^ 64) bytes.now stop.rest.now) }
{
    match bytes.split_first_chunk::<8>() {
        None => Err(cut(bytes)),
        Some((number, rest)) => Ok((u64::from_le_bytes(*number), rest)),
    }
}

/// A bound of a match's end, and what stands behind it. It is in the bytes whether or not its bit is given; where the
/// bit is 0, it can only be the value that stands for a missing bound.
pub fn bound_at(bytes: &[u8], given: u8, missing: u64) -> Result<(u64, &[u8]), Stop<'_>>
    ensures { MatchResult result
        (λ read. IsRead (to_le_bytes w64) (IsBound given missing) bytes.now read.0 read.1.now)
        (λ stop. Stops (to_le_bytes w64) (IsBound given missing) bytes.now stop.rest.now) }
{
    if given != 0 {
        return u64_at(bytes);
    }
    let rest = fixed_at(bytes, &missing.to_le_bytes())?;
    Ok((missing, rest))
}

/// What stands behind bytes that can only be these.
pub fn fixed_at<'a>(bytes: &'a [u8], fixed: &[u8]) -> Result<&'a [u8], Stop<'a>>
    ensures { MatchResult result
        (λ rest. bytes.now ≡ fixed.now ++ rest.now)
        (λ stop. Stops (always fixed.now) Always bytes.now stop.rest.now) }
{
    let mut rest = bytes;
    for byte in fixed {
        let [first, behind @ ..] = rest else {
            return Err(Stop { rest });
        };
        if first != byte {
            return Err(Stop { rest });
        }
        rest = behind;
    }
    Ok(rest)
}

/// A text behind its length, and what stands behind the text.
pub fn text_at(bytes: &[u8]) -> Result<(&[u8], &[u8]), Stop<'_>>
    ensures { MatchResult result
        (λ read. IsRead text_bytes IsText bytes.now read.0.now read.1.now)
        (λ stop. Stops text_bytes IsText bytes.now stop.rest.now) }
{
    let (length, behind) = u16_at(bytes)?;
    match behind.split_at_checked(usize::from(length)) {
        None => Err(cut(behind)),
        Some((text, rest)) => Ok((text, rest)),
    }
}
