//! Bits in a row of bytes.

ghost use Rattle.std.specs.Prelude.{◌≡◌, ℕ, ◌*◌, ◌<◌, ◌≤◌, IsTrue, ◌↔◌, ◌==◌, ◌||◌, length, if◌then◌else◌};
ghost use Rattle.hs_base.specs.Bits.{AreZero, has_bit};

/// How many bits a byte has.
pub const BYTE_BITS: usize = 8;

/// Whether the bit of that number is set.
#[tactic(auto, using(std::proofs::lemmas::Nat::Bits::shr_and_one), unfolding(hs_base::specs::Bits::has_bit))]
pub fn contains_bit(bytes: &[u8], bit: usize) -> bool
    requires { bit < 8 * length bytes.now }
    ensures { result ≡ has_bit bytes.now bit }
{
    (bytes[bit / BYTE_BITS] >> (bit % BYTE_BITS)) & 1 == 1
}

/// Sets the bit of that number.
pub fn insert_bit(bytes: &mut [u8], bit: usize)
    requires { bit < 8 * length bytes.old }
    ensures len { length bytes.new ≡ length bytes.old }
    ensures bits { (k : ℕ) → has_bit bytes.new k ≡ ((k == bit) || has_bit bytes.old k) }
{
    bytes[bit / BYTE_BITS] |= 1 << (bit % BYTE_BITS);
}

/// Sets or unsets the bit of that number; one that is so already is left alone.
pub fn write_bit(bytes: &mut [u8], bit: usize, value: bool)
    requires { bit < 8 * length bytes.old }
    ensures len { length bytes.new ≡ length bytes.old }
    ensures bits { (k : ℕ) → has_bit bytes.new k ≡ (if k == bit then value else has_bit bytes.old k) }
    ensures same { has_bit bytes.old bit ≡ value → bytes.new ≡ bytes.old }
{
    if contains_bit(bytes, bit) != value {
        bytes[bit / BYTE_BITS] ^= 1 << (bit % BYTE_BITS);
    }
}

/// Unsets every bit.
pub fn clear_bits(bytes: &mut [u8])
    ensures len { length bytes.new ≡ length bytes.old }
    ensures zero { AreZero bytes.new }
{
    for byte in bytes.iter_mut() {
        *byte = 0;
    }
}

/// Sets the bits that are set in the row too.
pub fn unite_bits(bytes: &mut [u8], row: &[u8])
    requires { length row.now ≤ length bytes.old }
    ensures len { length bytes.new ≡ length bytes.old }
    ensures bits { (k : ℕ) → has_bit bytes.new k ≡ (has_bit row.now k || has_bit bytes.old k) }
{
    for place in 0..row.len() {
        bytes[place] |= row[place];
    }
}

/// Unsets every bit; bytes without one are left alone.
pub fn clear_live(bytes: &mut [u8])
    ensures len { length bytes.new ≡ length bytes.old }
    ensures zero { AreZero bytes.new }
    ensures same { AreZero bytes.old → bytes.new ≡ bytes.old }
{
    if !is_zero(bytes) {
        clear_bits(bytes);
    }
}

/// Whether no bit is set.
pub fn is_zero(bytes: &[u8]) -> bool
    ensures { IsTrue result ↔ AreZero bytes.now }
{
    bytes.iter().all(|byte| *byte == 0)
}
