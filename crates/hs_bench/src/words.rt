//! Literals from the lines of a file.

ghost use Rattle.std.specs.Prelude.{◌≡◌, IfOk, map};
ghost use Rattle.hs_base.specs.LiteralView.{literal_byte, literal_bytes};
ghost use Rattle.hs_bench.specs.Words.{is_looked_for, exact, words_of};

use hs_base::LitByte;
use std::alloc::{AllocError, Global};

/// The least number of bytes of a line that is looked for.
const MIN_LEN: usize = 2;

/// The greatest number of bytes of a line that is looked for.
const MAX_LEN: usize = 32;

/// The literal that takes just these bytes.
fn exactly(alloc: Global, line: &[u8]) -> Result<Vec<LitByte>, AllocError>
    ensures { IfOk result (λ literal. literal_bytes literal ≡ exact line.now) }
{
    let mut literal = Vec::new(alloc);
    for byte in line {
        literal.push(LitByte::one(*byte))?;
    }
    Ok(literal)
}

/// A literal for each line of 2 to 32 bytes. The last line needs no line feed.
pub(crate) fn literals_of(alloc: Global, bytes: &[u8]) -> Result<Vec<Vec<LitByte>>, AllocError>
    ensures { IfOk result (λ literals. map literal_bytes literals.items ≡ words_of bytes.now) }
{
    let mut literals = Vec::new(alloc);
    for line in bytes.split(|byte| *byte == b'\n') {
        if line.len() >= MIN_LEN && line.len() <= MAX_LEN {
            literals.push(exactly(alloc, line)?)?;
        }
    }
    Ok(literals)
}
