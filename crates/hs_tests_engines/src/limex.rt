//! Which bytes may be a region of the engine of an automaton, and which bytes wake it. It is `#[cfg(test)]`.
use hs_base::{Assertion, ByteSet, Mask};
use hs_engine::{Automaton, Engine, FollowRows};
use hs_limex::Limex;
use std::alloc::{AllocError, Global};

/// `\ba(?:b+\z)?`.
fn words(alloc: Global) -> Result<Automaton, AllocError> {
    let end = Mask::of(Assertion::StreamEnd);
    let mut follows = FollowRows::new(alloc, 2, false)?;
    follows.insert(0, 0, 1);
    follows.insert(0, 1, 1);
    let sets = Vec::from_slice(alloc, &[ByteSet::of(b'a'), ByteSet::of(b'b')])?;
    let enters = Vec::from_slice(alloc, &[Mask::of(Assertion::WordBoundary), Mask::empty()])?;
    let accepts = Vec::from_slice(alloc, &[Mask::all(), end])?;
    Ok(Automaton::new(sets, enters, accepts, follows, Mask::empty(), true))
}

/// Whether the region is at rest, and whether it may be one at that offset, if it is of the engine's length.
fn told(engine: &Limex, region: &[u8], at: u64) -> Option<(bool, bool)> {
    if region.len() == engine.size() {
        Some((engine.at_rest(region), engine.well_formed(region, at)))
    } else {
        None
    }
}

/// Whether the engine rests until it is entered, and `a` alone wakes it.
fn rests(engine: &Limex) -> bool {
    told(engine, &[0], 0) == Some((true, true))
        && told(engine, &[1], 1) == Some((false, true))
        && engine.wakers().contains(b'a')
        && !engine.wakers().contains(b'b')
}

#[test]
fn rests_until_it_is_entered(rt: HostRuntime) -> Result<(), AllocError> {
    let engine = Limex::build(rt.alloc(), &words(rt.alloc())?)?;
    assert!(rt; rests(&engine));
    Ok(())
}
