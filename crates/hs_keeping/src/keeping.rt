//! What is kept of the identifiers of a stream: the bits of its region, and rows of words.

ghost use Rattle.std.specs.Prelude.{◌≡◌, ℕ, ◌+◌, ◌*◌, ◌<◌, ◌≤◌, ◌^◌, [], true, length};
ghost use Rattle.hs_base.specs.Bits.{has_bit, has_word_bit, word_count};
ghost use Rattle.hs_base.specs.Regions.{last_at, told_at};
ghost use Rattle.hs_layout.specs.Layouts.{laid_size};
ghost use Rattle.hs_keeping.specs.Keeping.{AreBitsRead, AreBitsWritten, AreEndsWritten, AreLast, AreRead, HasBits};
ghost use Rattle.hs_keeping.specs.Keeping.{IsOneWritten};
ghost use Rattle.hs_reports.specs.Identifiers.{with_single};

use hs_bits::{contains_word_bit, write_word_bit};
use hs_layout::Layout;
use hs_reports::Identifier;

/// How many single identifiers come up to that one, if so many come before it.
fn singles_up_to(identifier: Identifier, before: usize) -> usize
    requires room { before < 2 ^ 32 }
    ensures { result ≡ before + length (with_single identifier.single identifier []) }
{
    if identifier.single {
        before + 1
    } else {
        before
    }
}

/// Whether the region keeps that a pair of the identifier is told, if it is single: that one among the single ones.
fn is_told(layout: &Layout, region: &[u8], identifier: Identifier, single: usize) -> bool
    requires sized { length region.now ≡ laid_size layout.now }
    requires single { identifier.single ≡ true → single < layout.now.singles }
    ensures { identifier.single ≡ true → result ≡ has_bit region.now (8 * told_at + single) }
{
    identifier.single && layout.told_single(region, single)
}

/// Reads what the region keeps of the identifier of that number, which is that one among the single ones.
fn read_one(
    layout: &Layout,
    region: &[u8],
    identifier: Identifier,
    p: usize,
    single: usize,
    told: &mut [u64],
    here: &mut [u64],
)
    requires sized { length region.now ≡ laid_size layout.now }
    requires there { p < layout.now.identifiers }
    requires single { identifier.single ≡ true → single < layout.now.singles }
    requires told { p < 64 * length told.old }
    requires here { p < 64 * length here.old }
    ensures told_len { length told.new ≡ length told.old }
    ensures here_len { length here.new ≡ length here.old }
    ensures read { AreBitsRead layout.now region.now identifier p single (has_word_bit told.new p)
        (has_word_bit here.new p) }
    ensures told { (k : ℕ) → (k ≡ p → ⊥) → has_word_bit told.new k ≡ has_word_bit told.old k }
    ensures here { (k : ℕ) → (k ≡ p → ⊥) → has_word_bit here.new k ≡ has_word_bit here.old k }
{
    write_word_bit(told, p, is_told(layout, region, identifier, single));
    write_word_bit(here, p, layout.told_here(region, p));
}

/// Reads what the region keeps of each identifier into the rows, one by one.
fn read_each(
    layout: &Layout,
    region: &[u8],
    identifiers: &[Identifier],
    told: &mut [u64],
    here: &mut [u64],
)
    requires sized { length region.now ≡ laid_size layout.now }
    requires bits { HasBits layout.now identifiers.now }
    requires few { length identifiers.now < 2 ^ 32 }
    requires told { length told.old ≡ word_count (length identifiers.now) }
    requires here { length here.old ≡ word_count (length identifiers.now) }
    ensures told { length told.new ≡ length told.old }
    ensures here { length here.new ≡ length here.old }
    ensures read { AreRead layout.now region.now identifiers.now told.new here.new }
{
    let mut single = 0;
    for p in 0..identifiers.len() {
        let identifier = identifiers[p];
        read_one(layout, region, identifier, p, single, told, here);
        single = singles_up_to(identifier, single);
    }
}

/// Reads what the region keeps of each identifier into the rows: by words, where all are single or none is.
pub fn read_rows(
    layout: &Layout,
    region: &[u8],
    identifiers: &[Identifier],
    told: &mut [u64],
    here: &mut [u64],
)
    requires sized { length region.now ≡ laid_size layout.now }
    requires bits { HasBits layout.now identifiers.now }
    requires few { length identifiers.now < 2 ^ 32 }
    requires told { length told.old ≡ word_count (length identifiers.now) }
    requires here { length here.old ≡ word_count (length identifiers.now) }
    ensures told { length told.new ≡ length told.old }
    ensures here { length here.new ≡ length here.old }
    ensures read { AreRead layout.now region.now identifiers.now told.new here.new }
{
    let singles = layout.singles();
    if singles == identifiers.len() {
        layout.read_told_singles(region, told);
        layout.read_told_here(region, here);
    } else if singles == 0 {
        layout.read_told_here(region, here);
    } else {
        read_each(layout, region, identifiers, told, here);
    }
}

/// What is known of an identifier.
#[derive(Clone, Copy, Debug)]
struct Bits {
    /// A pair of it is told, if it is single.
    told: bool,
    /// Its pair that ends behind the last byte is told.
    here: bool,
    /// Only the end would report its pair that ends before the last byte.
    last: bool,
}

/// Writes what is known of the identifier of that number, which is that one among the single ones.
fn write_one(
    layout: &Layout,
    region: &mut [u8],
    identifier: Identifier,
    p: usize,
    single: usize,
    bits: Bits,
)
    requires sized { length region.old ≡ laid_size layout.now }
    requires there { p < layout.now.identifiers }
    requires single { identifier.single ≡ true → single < layout.now.singles }
    ensures written { AreBitsWritten layout.now region.old region.new }
    ensures read { AreBitsRead layout.now region.new identifier p single bits.told bits.here }
    ensures last { bits.last ≡ has_bit region.new (8 * last_at layout.now.singles layout.now.identifiers + p) }
    ensures others { IsOneWritten layout.now identifier p single region.old region.new }
{
    if identifier.single {
        layout.set_told_single(region, single, bits.told);
    }
    layout.set_told_here(region, p, bits.here);
    layout.set_final_bit(region, p, bits.last);
}

/// Writes what is known of each identifier, one by one; all else stays.
fn write_each(
    layout: &Layout,
    region: &mut [u8],
    identifiers: &[Identifier],
    told: &[u64],
    here: &[u64],
    last: &[u64],
)
    requires sized { length region.old ≡ laid_size layout.now }
    requires bits { HasBits layout.now identifiers.now }
    requires few { length identifiers.now < 2 ^ 32 }
    requires told { length told.now ≡ word_count (length identifiers.now) }
    requires here { length here.now ≡ word_count (length identifiers.now) }
    requires last { length last.now ≡ word_count (length identifiers.now) }
    ensures written { AreBitsWritten layout.now region.old region.new }
    ensures read { AreRead layout.now region.new identifiers.now told.now here.now }
    ensures last { AreLast layout.now region.new identifiers.now last.now }
{
    let mut single = 0;
    for p in 0..identifiers.len() {
        let identifier = identifiers[p];
        let bits = Bits {
            told: contains_word_bit(told, p),
            here: contains_word_bit(here, p),
            last: contains_word_bit(last, p),
        };
        write_one(layout, region, identifier, p, single, bits);
        single = singles_up_to(identifier, single);
    }
}

/// Writes what is known of each identifier but whether it is told; all else stays.
fn write_ends(layout: &Layout, region: &mut [u8], here: &[u64], last: &[u64])
    requires sized { length region.old ≡ laid_size layout.now }
    requires here { layout.now.identifiers ≤ 64 * length here.now }
    requires last { layout.now.identifiers ≤ 64 * length last.now }
    ensures { AreEndsWritten layout.now here.now last.now region.old region.new }
{
    layout.write_told_here(region, here);
    layout.write_finals(region, last);
}

/// Writes what is known of each identifier; all else stays. It goes by words, where all are single or none is.
pub fn write_rows(
    layout: &Layout,
    region: &mut [u8],
    identifiers: &[Identifier],
    told: &[u64],
    here: &[u64],
    last: &[u64],
)
    requires sized { length region.old ≡ laid_size layout.now }
    requires bits { HasBits layout.now identifiers.now }
    requires few { length identifiers.now < 2 ^ 32 }
    requires told { length told.now ≡ word_count (length identifiers.now) }
    requires here { length here.now ≡ word_count (length identifiers.now) }
    requires last { length last.now ≡ word_count (length identifiers.now) }
    ensures written { AreBitsWritten layout.now region.old region.new }
    ensures read { AreRead layout.now region.new identifiers.now told.now here.now }
    ensures last { AreLast layout.now region.new identifiers.now last.now }
{
    let singles = layout.singles();
    if singles == identifiers.len() {
        layout.write_told_singles(region, told);
        write_ends(layout, region, here, last);
    } else if singles == 0 {
        write_ends(layout, region, here, last);
    } else {
        write_each(layout, region, identifiers, told, here, last);
    }
}
