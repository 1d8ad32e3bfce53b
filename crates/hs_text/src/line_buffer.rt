//! The buffer that a line is made in, filled from its front.
ghost use Rattle.std.specs.Prelude.{◌≡◌, ℕ, ◌+◌, ◌≤◌, ◌++◌, length, take, drop, codes, decimal};
ghost use Rattle.hs_text.specs.declared.line_buffer.TheConstants.{LINE_LEN};

/// The length in bytes of the buffer that a line is made in. Each line fits.
pub const LINE_LEN: usize = 128;

/// Puts bytes behind the first `len` bytes of the buffer, and gives the new length.
pub(crate) fn append(buf: &mut [u8; LINE_LEN], len: usize, bytes: &[u8]) -> usize
    requires whole { length buf.old ≡ LINE_LEN }
    requires room { len + length bytes.now ≤ LINE_LEN }
    ensures whole { length buf.new ≡ LINE_LEN }
    ensures length { result ≡ len + length bytes.now }
    ensures text { take result buf.new ≡ take len buf.old ++ bytes.now }
    ensures rest { (k : ℕ) → result ≤ k → drop k buf.new ≡ drop k buf.old }
{
    let end = len + bytes.len();
    buf[len..end].copy_from_slice(bytes);
    end
}

/// Puts a number in decimal digits behind the first `len` bytes.
pub(crate) fn append_number(buf: &mut [u8; LINE_LEN], len: usize, number: u64) -> usize
    requires whole { length buf.old ≡ LINE_LEN }
    requires room { len + 20 ≤ LINE_LEN }
    ensures whole { length buf.new ≡ LINE_LEN }
    ensures grows { len ≤ result }
    ensures within { result ≤ len + 20 }
    ensures text { take result buf.new ≡ take len buf.old ++ decimal number }
    ensures rest { (k : ℕ) → result ≤ k → drop k buf.new ≡ drop k buf.old }
{
    let mut digits = itoa::Buffer::new();
    append(buf, len, digits.format(number).as_bytes())
}

/// Puts a number of 32 bits in decimal digits behind the first `len` bytes.
pub(crate) fn append_short_number(buf: &mut [u8; LINE_LEN], len: usize, number: u32) -> usize
    requires whole { length buf.old ≡ LINE_LEN }
    requires room { len + 10 ≤ LINE_LEN }
    ensures whole { length buf.new ≡ LINE_LEN }
    ensures grows { len ≤ result }
    ensures within { result ≤ len + 10 }
    ensures text { take result buf.new ≡ take len buf.old ++ decimal number }
    ensures rest { (k : ℕ) → result ≤ k → drop k buf.new ≡ drop k buf.old }
{
    let mut digits = itoa::Buffer::new();
    append(buf, len, digits.format(number).as_bytes())
}
