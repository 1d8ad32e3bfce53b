//! Files that are no stream's, or another one's. It is `#[cfg(test)]`.
use crate::lists::compiled;
use hs_compile::Database;
use hs_stream::{ExpandFault, Stream};
use std::alloc::Global;
use std::process::Abort;
use std::test::Fail;

/// The saved stream `fo` over `16:/foo/`: the name, version 2, the digest of the list (by `sha256sum` of its encoding),
/// the length of the region, and the region: the offset, the last 64 bytes, and two rows of bits.
const SAVED: &[u8; 116] =
    b"HSST\x02\0\xb6\x44\x73\xca\xa5\xbd\x19\x63\x46\x77\xab\xa9\x1b\x8d\x64\xd5\xc1\x8b\
    \x61\xc3\x89\x57\xe4\xe1\x72\xed\x56\xdd\x2e\x31\x53\x62\x4a\0\0\0\x02\0\0\0\0\0\0\0\
    \0\0\0\0\0\0\0\0\0\0\0\0\0\0\0\0\0\0\0\0\0\0\0\0\0\0\0\0\0\0\0\0\0\0\0\0\0\0\0\0\0\0\0\0\0\0\0\0\0\0\
    \0\0\0\0\0\0\0\0\0\0\0\0fo\0\0";

/// A place in the saved stream, the byte that stands there instead, how many bytes are left, and what is told.
type Change = (usize, u8, usize, Option<ExpandFault>);

const CHANGES: [Change; 10] = [
    (0, 71, 116, Some(ExpandFault::Form(0))),
    (4, 7, 116, Some(ExpandFault::Version(7))),
    (6, 0, 116, Some(ExpandFault::OtherDatabase)),
    (38, 75, 116, Some(ExpandFault::Form(116))),
    (49, 128, 116, Some(ExpandFault::Form(42))),
    (50, 1, 116, Some(ExpandFault::Form(50))),
    (114, 2, 116, Some(ExpandFault::Form(114))),
    (115, 2, 116, Some(ExpandFault::Form(115))),
    (113, 102, 116, None),
    (38, 73, 115, Some(ExpandFault::Form(38))),
];

/// Why the bytes give no stream.
fn fault_of(alloc: Global, db: &Database, bytes: &[u8]) -> Option<ExpandFault> {
    Stream::expand(alloc, db, bytes).err()
}

/// Whether what is told of the saved stream with a change is what is wanted.
fn is_so(alloc: Global, db: &Database, change: Change) -> bool {
    let (place, byte, length, wanted) = change;
    let mut bytes = *SAVED;
    if let Some(slot) = bytes.get_mut(place) {
        *slot = byte;
    }
    fault_of(alloc, db, bytes.get(..length).unwrap_or(b"")) == wanted
}

/// Asserts what is told of each change, and of each beginning: its fault is where it ends.
fn check(rt: &impl Abort, alloc: Global, db: &Database) {
    for change in CHANGES {
        assert!(rt; is_so(alloc, db, change), "{change:?}");
    }
    for length in 0..SAVED.len() {
        let found = fault_of(alloc, db, &SAVED[..length]);
        assert!(rt; found == Some(ExpandFault::Form(length as u64)), "{length}");
    }
}

#[test]
fn tells_the_first_fault(rt: HostRuntime) -> Result<(), Fail> {
    let db = compiled(rt.alloc(), "16:/foo/")?;
    check(&rt, rt.alloc(), &db);
    Ok(())
}
