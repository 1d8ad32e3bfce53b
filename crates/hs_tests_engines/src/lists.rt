//! Lists of literals, as tests write them. It is `#[cfg(test)]`.
use hs_base::LitByte;
use std::alloc::{AllocError, Global};

/// Literals with a comma behind each. A small letter behind `~` stands for both cases.
pub(crate) fn literals_of(alloc: Global, list: &[u8]) -> Result<Vec<Vec<LitByte>>, AllocError> {
    let mut literals = Vec::new(alloc);
    let mut literal = Vec::new(alloc);
    let mut caseless = false;
    for byte in list {
        if *byte == b',' {
            literals.push(literal)?;
            literal = Vec::new(alloc);
        } else if *byte == b'~' {
            caseless = true;
        } else if caseless && byte.is_ascii_lowercase() {
            literal.push(LitByte::letter(*byte))?;
            caseless = false;
        } else {
            literal.push(LitByte::one(*byte))?;
        }
    }
    Ok(literals)
}
