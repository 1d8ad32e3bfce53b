//! What fits what, and how long a stream may be. It is `#[cfg(test)]`.
use crate::lists::compiled;
use hs_base::MAX_OFFSET;
use hs_compile::Database;
use hs_stream::{Scratch, Stream, has_room};
use std::alloc::{AllocError, Global};
use std::test::Fail;

/// Two lists, and whether a stream and a scratch of the one fit the database of the other.
const FITS: [(&str, &str, (bool, bool)); 3] = [
    ("1:/ab/", "1:/ab/", (true, true)),
    ("1:/ab/", "1:/ba/", (false, true)),
    ("1:/ab/", "1:/a/ 2:/b/", (false, false)),
];

/// Offsets, and whether so many bytes may come there.
const ROOM: [(u64, usize, bool); 9] = [
    (0, 0, true),
    (0, 9_223_372_036_854_775_807, true),
    (1, 9_223_372_036_854_775_806, true),
    (9_223_372_036_854_775_806, 1, true),
    (9_223_372_036_854_775_807, 0, true),
    (0, 9_223_372_036_854_775_808, false),
    (1, 9_223_372_036_854_775_807, false),
    (9_223_372_036_854_775_807, 1, false),
    (9_223_372_036_854_775_808, 0, false),
];

/// Whether a stream and a scratch of the one database fit the other.
fn fit(alloc: Global, own: &Database, other: &Database) -> Result<(bool, bool), AllocError> {
    let stream = Stream::open(alloc, own)?.fits(other);
    Ok((stream, Scratch::new(alloc, own)?.fits(other)))
}

/// Whether a stream and a scratch of the one list fit the database of the other.
fn lists_fit(alloc: Global, own: &str, other: &str) -> Result<(bool, bool), Fail> {
    let own = compiled(alloc, own)?;
    Ok(fit(alloc, &own, &compiled(alloc, other)?)?)
}

#[test]
fn fits_its_own_database_alone(rt: HostRuntime) -> Result<(), Fail> {
    for (own, other, wanted) in FITS {
        assert!(rt;
            lists_fit(rt.alloc(), own, other)? == wanted,
            "{own} in {other}"
        );
    }
    Ok(())
}

#[test]
fn is_full_above_the_greatest_offset(rt: HostRuntime) {
    assert!(rt; MAX_OFFSET == 9_223_372_036_854_775_807);
    assert!(rt; !has_room(u64::MAX, usize::MAX));
    for (offset, count, wanted) in ROOM {
        assert!(rt; has_room(offset, count) == wanted, "{count} at {offset}");
    }
}
