//! Laws of packings: each is the contract of a function that does nothing.

ghost use Rattle.hs_kept.specs.PackingLaws.{KeptUnpacks, PackingsAreSized, RegionsPack, UnpackedHasHeader};
ghost use Rattle.hs_kept.specs.PackingLaws.{WellFormedPacksWell, WellKeptUnpacksWell};

/// A packing has the sizes of its plan.
pub fn packings_are_sized()
    ensures { PackingsAreSized }
{}

/// What is kept of a stream is unpacked to its region.
pub fn kept_unpacks()
    ensures { KeptUnpacks }
{}

/// The region of a stream is packed to what is kept of it.
pub fn regions_pack()
    ensures { RegionsPack }
{}

/// Bytes are well kept just where they are unpacked to a well formed region.
pub fn well_kept_unpacks_well()
    ensures { WellKeptUnpacksWell }
{}

/// A well formed region is packed to well kept bytes, with the same header.
pub fn well_formed_packs_well()
    ensures { WellFormedPacksWell }
{}

/// What is unpacked has the header of what is kept.
pub fn unpacked_has_header()
    ensures { UnpackedHasHeader }
{}
