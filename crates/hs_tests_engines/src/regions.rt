//! Regions of known lists: their sizes, and their bytes. It is `#[cfg(test)]`.

use hs_layout::Layout;
use std::alloc::{AllocError, Global};
use std::test::Fail;

/// The sizes of the regions of `/foo/`, of `/x.{1000}y/s`, of `/[0-9]+foo[a-z]*bar/`, and of a list of nine single
/// identifiers among seventeen.
fn sizes(alloc: Global) -> Result<[usize; 4], AllocError> {
    Ok([
        Layout::new(alloc, 0, 1, &[0])?.size(),
        Layout::new(alloc, 0, 1, &[1, 125, 1])?.size(),
        Layout::new(alloc, 0, 1, &[1, 4, 1, 4])?.size(),
        Layout::new(alloc, 9, 17, &[2, 0, 3])?.size(),
    ])
}

/// The region of `fo` under `/foo/`: its bytes and, behind them, where its fault is with a spare bit set.
fn region_of_fo(alloc: Global) -> Result<([u8; 74], Option<usize>), AllocError> {
    let layout = Layout::new(alloc, 0, 1, &[0])?;
    let mut region = [0u8; 74];
    let mut history = [0u8; 64];
    history[62] = b'f';
    history[63] = b'o';
    layout.set_offset(&mut region, 2);
    layout.set_history(&mut region, &history);
    layout.set_told_here(&mut region, 0, true);
    layout.set_told_here(&mut region, 0, false);
    let kept = region;
    region[73] = 2;
    Ok((kept, layout.header_fault(&region)))
}

/// A region of two fields, in which the first byte of the second one is written.
fn region_of_two_fields(alloc: Global) -> Result<[u8; 79], AllocError> {
    let layout = Layout::new(alloc, 0, 1, &[2, 3])?;
    let mut region = [0u8; 79];
    layout.part(&mut region, 1)[0] = 7;
    Ok(region)
}

#[test]
fn a_region_has_the_bytes_of_its_parts(rt: HostRuntime) -> Result<(), Fail> {
    assert_eq!(rt; sizes(rt.alloc())?, [74, 201, 84, 85]);
    Ok(())
}

#[test]
fn the_region_of_two_bytes(rt: HostRuntime) -> Result<(), Fail> {
    let (region, fault) = region_of_fo(rt.alloc())?;
    let mut expected = [0u8; 74];
    expected[0] = 2;
    expected[70] = b'f';
    expected[71] = b'o';
    assert_eq!(rt; region, expected);
    assert_eq!(rt; fault, Some(73));
    Ok(())
}

#[test]
fn a_field_is_written(rt: HostRuntime) -> Result<(), Fail> {
    let mut expected = [0u8; 79];
    expected[76] = 7;
    assert_eq!(rt; region_of_two_fields(rt.alloc())?, expected);
    Ok(())
}
