//! Names, and other runs of bytes of one kind.
ghost use Rattle.std.specs.Prelude.{◌≡◌, ◌≤◌, ◌<◌, ◌+◌, length, drop, slice_get, IfSome};
ghost use Rattle.hs_base.specs.Assertions.{is_word_byte};
ghost use Rattle.hs_syntax.specs.Bytes.{letters_on, word_bytes_on, place_on, is_byte, is_digit};
ghost use Rattle.hs_syntax.specs.Names.{name_end, group_name_end};

/// The greatest length of a group's name, in bytes.
const MAX_NAME_LEN: usize = 32;

/// The place behind the small letters from a place on.
fn letters_end(bytes: &[u8], at: usize) -> usize
    requires within { at ≤ length bytes.now }
    ensures is { result ≡ letters_on at (drop at bytes.now) }
    ensures rises { at ≤ result }
    ensures within { result ≤ length bytes.now }
{
    let mut end = at;
    let mut rest = &bytes[at..];
    while let [byte, behind @ ..] = rest {
        if !byte.is_ascii_lowercase() {
            break;
        }
        end += 1;
        rest = behind;
    }
    end
}

/// Whether the byte is one of `[A-Za-z0-9_]`.
fn is_word_byte(byte: u8) -> bool
    ensures { result ≡ is_word_byte byte }
{
    byte.is_ascii_alphanumeric() || byte == b'_'
}

/// The place behind the word bytes from a place on.
fn word_bytes_end(bytes: &[u8], at: usize) -> usize
    requires within { at ≤ length bytes.now }
    ensures is { result ≡ word_bytes_on at (drop at bytes.now) }
    ensures rises { at ≤ result }
    ensures within { result ≤ length bytes.now }
{
    let mut end = at;
    let mut rest = &bytes[at..];
    while let [byte, behind @ ..] = rest {
        if !is_word_byte(*byte) {
            break;
        }
        end += 1;
        rest = behind;
    }
    end
}

/// The first place of a byte, from a place on.
pub(crate) fn place_of(byte: u8, bytes: &[u8], at: usize) -> Option<usize>
    requires within { at ≤ length bytes.now }
    ensures is { result ≡ place_on byte at (drop at bytes.now) }
    ensures within { IfSome result (λ place. place < length bytes.now) }
{
    let mut place = at;
    let mut rest = &bytes[at..];
    while let [first, behind @ ..] = rest {
        if *first == byte {
            return Some(place);
        }
        place += 1;
        rest = behind;
    }
    None
}

/// Whether a decimal digit stands at a place.
pub(crate) fn is_digit_at(bytes: &[u8], at: usize) -> bool
    ensures { result ≡ is_digit (slice_get bytes.now at) }
{
    matches!(bytes.get(at), Some(b'0'..=b'9'))
}

/// The place of the mark behind one or more small letters from a place on, where a `]` follows it.
#[tactic(auto, unfolding(crate::specs::Names::name_end))]
pub(crate) fn name_end(mark: u8, bytes: &[u8], at: usize) -> Option<usize>
    requires within { at ≤ length bytes.now }
    ensures is { result ≡ name_end mark bytes.now at }
    ensures rises { IfSome result (λ end. at < end) }
    ensures within { IfSome result (λ end. end + 2 ≤ length bytes.now) }
{
    let end = letters_end(bytes, at);
    if at < end && is_byte_at(mark, bytes, end) && is_byte_at(b']', bytes, end + 1) {
        Some(end)
    } else {
        None
    }
}

/// The place behind the mark behind the name of a group that stands from a place on.
#[tactic(auto, unfolding(crate::specs::Names::group_name_end))]
pub(crate) fn group_name_end(mark: u8, bytes: &[u8], at: usize) -> Option<usize>
    requires within { at ≤ length bytes.now }
    ensures is { result ≡ group_name_end mark bytes.now at }
    ensures within { IfSome result (λ end. end ≤ length bytes.now) }
{
    let end = word_bytes_end(bytes, at);
    if at < end
        && end <= at + MAX_NAME_LEN
        && !is_digit_at(bytes, at)
        && is_byte_at(mark, bytes, end)
    {
        Some(end + 1)
    } else {
        None
    }
}

/// Whether this byte stands at a place.
pub(crate) fn is_byte_at(byte: u8, bytes: &[u8], at: usize) -> bool
    ensures is { result ≡ is_byte byte (slice_get bytes.now at) }
{
    match bytes.get(at) {
        Some(there) => *there == byte,
        None => false,
    }
}
