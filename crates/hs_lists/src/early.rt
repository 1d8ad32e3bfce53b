//! What is wrong with a file already by what it begins with.
ghost use Rattle.std.specs.Prelude.{◌≡◌, ◌≢◌, true, ℕ, List, ◌++◌, IfSome, length};
ghost use Rattle.hs_base.specs.Lists.{Each};
ghost use Rattle.hs_base.specs.Assertions.{line_feed};
ghost use Rattle.hs_dbfile.specs.Files.{IsFormPlace};
ghost use Rattle.hs_lists.specs.Causes.{cause_of};
ghost use Rattle.hs_lists.specs.ListKinds.{kind_of, pattern_file, database_file};
ghost use Rattle.hs_lists.specs.Accepting.{IsFormCause};
ghost use Rattle.hs_lists.specs.Beginnings.{AreLines, BeginsBad, IsSettledPart};

use crate::fault::Fault;
use crate::form::read_patterns;
use crate::loading::ListKind;
use hs_dbfile::{DecodeFault, decode_file};
use memchr::memrchr;
use std::alloc::Global;

/// Why no file that begins with these bytes holds a list, where that is so whatever follows them.
pub fn early_fault<'a>(alloc: Global, kind: ListKind, bytes: &[u8]) -> Option<Fault<'a>>
    ensures { IfSome result (λ fault. (rest : List ℕ) →
        IsFormCause (kind_of kind) (bytes.now ++ rest) (cause_of fault)) }
{
    match kind {
        ListKind::Patterns => early_pattern_fault(alloc, bytes),
        ListKind::Database => early_database_fault(alloc, bytes),
    }
}

/// Why no file that begins so is a database file.
fn early_database_fault<'a>(alloc: Global, bytes: &[u8]) -> Option<Fault<'a>>
    ensures { IfSome result (λ fault. (rest : List ℕ) →
        IsFormCause database_file (bytes.now ++ rest) (cause_of fault)) }
{
    match decode_file(alloc, bytes) {
        Ok(_) => None,
        Err(DecodeFault::Form(at)) => early_form(at, bytes.len()),
        Err(DecodeFault::Memory) => Some(Fault::Memory),
    }
}

/// That bytes of this length are no database file from this place on, where they go on there.
fn early_form<'a>(at: u64, len: usize) -> Option<Fault<'a>>
    ensures { IfSome result (λ fault. (bytes rest : List ℕ) → length bytes ≡ len → IsFormPlace bytes at →
        IsFormCause database_file (bytes ++ rest) (cause_of fault)) }
{
    if at < len as u64 {
        Some(Fault::Form(at))
    } else {
        None
    }
}

/// Why no file that begins so is a pattern file.
fn early_pattern_fault<'a>(alloc: Global, bytes: &[u8]) -> Option<Fault<'a>>
    ensures { IfSome result (λ fault. (rest : List ℕ) →
        IsFormCause pattern_file (bytes.now ++ rest) (cause_of fault)) }
{
    match read_patterns(alloc, settled_part(bytes)) {
        Ok(_) => None,
        Err(fault) => Some(fault),
    }
}

/// A beginning of the bytes whose first bad line stays the first: the lines that are ended, and what stands behind them
/// where no line that begins so is of the form.
fn settled_part(bytes: &[u8]) -> &[u8]
    ensures { IsSettledPart bytes.now result.now }
{
    let (lines, last) = ended_lines(bytes);
    if begins_bad_line(last) { bytes } else { lines }
}

/// The lines that are ended, and what stands behind them.
fn ended_lines(bytes: &[u8]) -> (&[u8], &[u8])
    ensures { AreLines bytes.now result.0.now result.1.now }
{
    match memrchr(b'\n', bytes) {
        None => (&bytes[..0], bytes),
        Some(at) => (&bytes[..at + 1], &bytes[at + 1..]),
    }
}

/// Whether no line that begins with these bytes is of the form. Of one byte it isn't known: `\r` may end an empty line.
fn begins_bad_line(line: &[u8]) -> bool
    requires { Each (λ b. b ≢ line_feed) line.now }
    ensures { result ≡ true → BeginsBad line.now }
{
    match line {
        [first, _, ..] => *first != b'#' && !first.is_ascii_digit(),
        _ => false,
    }
}
