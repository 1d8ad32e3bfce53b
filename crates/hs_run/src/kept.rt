//! What is kept of each identifier: the bits of a region, read and written.

ghost use Rattle.std.specs.Prelude.{◌≡◌, ℕ, ◌+◌, ◌<◌, ◌≤◌, ◌^◌, [], true, length};
ghost use Rattle.hs_layout.specs.Layouts.{laid_size};
ghost use Rattle.hs_run.specs.Keeping.{AreBitsWritten, AreRead, HasBits, IsOneWritten, IsRead};
ghost use Rattle.hs_rose.specs.Identifiers.{with_single};

use hs_layout::Layout;
use hs_rose::Identifier;

/// What is kept of an identifier.
#[derive(Clone, Copy, Debug, PartialEq, Eq)]
pub(crate) struct Kept {
    /// A pair of it is reported; kept of single identifiers alone.
    pub told: bool,
    /// Its pair that ends behind the last byte is reported.
    pub here: bool,
    /// Were the stream ended, its pair that ends before the last byte would be reported, and it isn't yet.
    pub last: bool,
}

impl Kept {
    /// What is kept of an identifier before the first byte.
    pub const NOTHING: Kept = Kept {
        told: false,
        here: false,
        last: false,
    };
}

/// How many single identifiers come up to that one, if so many come before it.
pub(crate) fn singles_up_to(identifier: Identifier, before: usize) -> usize
    requires room { before < 2 ^ 32 }
    ensures { result ≡ before + length (with_single identifier.single identifier []) }
{
    if identifier.single {
        before + 1
    } else {
        before
    }
}

/// What the region keeps of the identifier of that number, which is that one among the single ones.
fn read_one(layout: &Layout, region: &[u8], identifier: Identifier, i: usize, single: usize) -> Kept
    requires sized { length region.now ≡ laid_size layout.now }
    requires there { i < layout.now.identifiers }
    requires single { identifier.single ≡ true → single < layout.now.singles }
    ensures { IsRead layout.now region.now identifier i single result }
{
    let told = identifier.single && layout.told_single(region, single);
    Kept {
        told,
        here: layout.told_here(region, i),
        last: layout.final_bit(region, i),
    }
}

/// Reads what the region keeps of each identifier.
pub(crate) fn read_kept(
    layout: &Layout,
    region: &[u8],
    identifiers: &[Identifier],
    kept: &mut [Kept],
)
    requires sized { length region.now ≡ laid_size layout.now }
    requires bits { HasBits layout.now identifiers.now }
    requires few { length identifiers.now < 2 ^ 32 }
    requires kept { length kept.old ≡ length identifiers.now }
    ensures len { length kept.new ≡ length kept.old }
    ensures read { AreRead layout.now region.now identifiers.now kept.new }
{
    let mut single = 0;
    for i in 0..identifiers.len() {
        let identifier = identifiers[i];
        kept[i] = read_one(layout, region, identifier, i, single);
        single = singles_up_to(identifier, single);
    }
}

/// Writes what is kept of the identifier of that number, which is that one among the single ones.
fn write_one(
    layout: &Layout,
    region: &mut [u8],
    identifier: Identifier,
    i: usize,
    single: usize,
    kept: Kept,
)
    requires sized { length region.old ≡ laid_size layout.now }
    requires there { i < layout.now.identifiers }
    requires single { identifier.single ≡ true → single < layout.now.singles }
    ensures written { AreBitsWritten layout.now region.old region.new }
    ensures read { IsRead layout.now region.new identifier i single kept }
    ensures others { IsOneWritten layout.now identifier i single region.old region.new }
{
    if identifier.single {
        layout.set_told_single(region, single, kept.told);
    }
    layout.set_told_here(region, i, kept.here);
    layout.set_final_bit(region, i, kept.last);
}

/// Writes what is kept of each identifier; all else stays.
pub(crate) fn write_kept(
    layout: &Layout,
    region: &mut [u8],
    identifiers: &[Identifier],
    kept: &[Kept],
)
    requires sized { length region.old ≡ laid_size layout.now }
    requires bits { HasBits layout.now identifiers.now }
    requires few { length identifiers.now < 2 ^ 32 }
    requires kept { length kept.now ≡ length identifiers.now }
    ensures written { AreBitsWritten layout.now region.old region.new }
    ensures read { AreRead layout.now region.new identifiers.now kept.now }
{
    let mut single = 0;
    for i in 0..identifiers.len() {
        let identifier = identifiers[i];
        write_one(layout, region, identifier, i, single, kept[i]);
        single = singles_up_to(identifier, single);
    }
}
