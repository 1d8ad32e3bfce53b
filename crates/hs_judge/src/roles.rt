//! Roles and regions of known lists. It is `#[cfg(test)]`.

ghost use Rattle.std.specs.Prelude.{◌≡◌, ◌<◌};

use crate::scanning::{Log, Scanner};
use crate::setup::Setup;
use hs_rose::Kind;
use hs_text::read_list;
use std::alloc::Global;
use std::marker::Brand;
use std::sync::ledger::{Blank, Ledger};
use std::test::Fail;

/// What runs the list that the lines of a pattern file are.
fn setup_of(alloc: Global, lines: &str) -> Result<Setup, Fail> {
    Setup::of(alloc, &read_list(alloc, lines.as_bytes())?)
}

/// The kinds of the roles of a list.
fn kinds_of(alloc: Global, lines: &str) -> Result<Vec<Kind>, Fail> {
    let setup = setup_of(alloc, lines)?;
    let kinds = setup.program.roles().iter().map(|role| role.kind());
    Ok(kinds.collect(alloc)?)
}

/// What is written of the roles of each literal of a list.
fn literal_roles_of(alloc: Global, lines: &str) -> Result<String, Fail> {
    let setup = setup_of(alloc, lines)?;
    let roles = setup.program.literal_roles(alloc)?;
    Ok(format!(in alloc; "{roles:?}")?)
}

/// The region of a stream of what runs a list.
fn region_by<L: Ledger>(
    alloc: Global,
    setup: &Setup,
    bytes: &[u8],
    blank: Blank,
) -> Result<Vec<u8>, Fail>
    requires name { blank.name ≡ L.name }
    requires parts { blank.parts ≡ L.parts }
    requires some { 0 < L.parts }
{
    let mut log = Log::<L>::open(alloc, blank)?;
    let mut stream = setup.open(alloc)?;
    setup.take(&mut stream, bytes, &mut log)?;
    setup.kept(alloc, &stream)
}

/// The region of a stream of a list.
fn region_of(alloc: Global, lines: &str, bytes: &[u8]) -> Result<Vec<u8>, Fail> {
    let setup = setup_of(alloc, lines)?;
    region_by::<Brand>(alloc, &setup, bytes, Blank::new(1))
}

/// The length of the regions of a list.
fn size_of(alloc: Global, lines: &str) -> Result<usize, Fail> {
    let setup = setup_of(alloc, lines)?;
    Ok(setup.layout.size())
}

#[test]
fn pieces_are_of_these_kinds(rt: HostRuntime) -> Result<(), Fail> {
    let alloc = rt.alloc();
    let ring = kinds_of(alloc, "1:/x.{1000}y/\n")?;
    let wanted = [Kind::Positions, Kind::Ring, Kind::Positions];
    assert_eq!(rt; ring.as_slice(), wanted.as_slice());
    let looks_back = kinds_of(alloc, "1:/\\bfoo\\b/\n")?;
    let wanted = [Kind::LookBack, Kind::BareLiteral, Kind::Positions];
    assert_eq!(rt; looks_back.as_slice(), wanted.as_slice());
    Ok(())
}

#[test]
fn literals_stand_for_these_roles(rt: HostRuntime) -> Result<(), Fail> {
    let roles = literal_roles_of(rt.alloc(), "1:/foo.*bar/\n2:/bar[0-9]foo/\n")?;
    assert_eq!(rt; roles.as_str(), "[[0, 5], [2, 3]]");
    Ok(())
}

#[test]
fn the_region_of_two_bytes(rt: HostRuntime) -> Result<(), Fail> {
    let region = region_of(rt.alloc(), "16:/foo/\n", b"fo")?;
    let mut wanted = [0u8; 74];
    wanted[0] = 2;
    wanted[70] = b'f';
    wanted[71] = b'o';
    assert_eq!(rt; region.as_slice(), wanted.as_slice());
    Ok(())
}

#[test]
fn regions_have_these_sizes(rt: HostRuntime) -> Result<(), Fail> {
    let alloc = rt.alloc();
    assert_eq!(rt; size_of(alloc, "7:/x.{1000}y/s\n")?, 201);
    assert_eq!(rt; size_of(alloc, "15:/[0-9]+foo[a-z]*bar/\n")?, 84);
    Ok(())
}
