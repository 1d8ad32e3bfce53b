//! State files byte by byte: written, read, cut and changed. It is `#[cfg(test)]`.
use hs_dbfile::{StateFault, encode_state, read_state};
use sha2::{Digest, Sha256};
use std::alloc::{AllocError, Global};
use std::process::Abort;
use std::test::Fail;

/// A region.
const REGION: [u8; 3] = [1, 2, 3];

/// The state file of the region over a list whose digest is that of the empty message (NIST, "Example Values",
/// SHA-256): name, version, digest, length, region.
const FILE: &[u8] = b"HSST\x02\x00\
\xe3\xb0\xc4\x42\x98\xfc\x1c\x14\x9a\xfb\xf4\xc8\x99\x6f\xb9\x24\
\x27\xae\x41\xe4\x64\x9b\x93\x4c\xa4\x95\x99\x1b\x78\x52\xb8\x55\
\x03\x00\x00\x00\x01\x02\x03";

/// Bytes of the file with what stands there instead, or behind it, and what is answered of it.
const CHANGES: &str = "\
0=88>form 0|3=88>form 3|4=0>version 0|4=1>version 1|5=1>version 258|6=0>database|37=0>database|38=2>form 44|\
38=4>form 45|41=1>form 45|42=9>ok|44=255>ok|45=0>form 45|4=1,6=0>version 1|4=3,45=0>form 45|6=0,38=2>form 44|\
38=4,45=9>ok|38=0>form 42";

/// The file with the changes of a row.
fn changed(alloc: Global, changes: &str) -> Result<Vec<u8>, AllocError> {
    let mut bytes = Vec::from_slice(alloc, FILE)?;
    for change in changes.split(',') {
        let (index, byte) = change.split_once('=').unwrap_or((change, ""));
        let byte = byte.parse::<u8>().unwrap_or(0);
        match bytes.get_mut(index.parse::<usize>().unwrap_or(0)) {
            Some(old) => *old = byte,
            None => bytes.push(byte)?,
        }
    }
    Ok(bytes)
}

/// The fault that words tell, if they tell one.
fn told(words: &str) -> Option<StateFault> {
    let (word, number) = words.split_once(' ').unwrap_or((words, ""));
    match word {
        "form" => Some(StateFault::Form(number.parse::<u64>().unwrap_or(0))),
        "version" => Some(StateFault::Version(number.parse::<u16>().unwrap_or(0))),
        "database" => Some(StateFault::OtherDatabase),
        _ => None,
    }
}

#[test]
fn writes_and_reads_a_region(rt: HostRuntime) -> Result<(), Fail> {
    let digest = Sha256::new().finalize();
    let file = encode_state(rt.alloc(), digest, &REGION)?;
    assert!(rt; file.as_slice() == FILE);
    assert!(rt; read_state(&file, digest) == Ok(REGION.as_slice()));
    Ok(())
}

/// Asserts that each beginning of the file stops having the form at its end.
fn check_cuts(rt: &impl Abort) -> Result<(), Fail> {
    let digest = Sha256::new().finalize();
    for length in 0..FILE.len() {
        let found = read_state(&FILE[..length], digest).err();
        assert!(rt; found == Some(StateFault::Form(length as u64)), "{length}");
    }
    Ok(())
}

#[test]
fn tells_the_first_fault(rt: HostRuntime) -> Result<(), Fail> {
    check_cuts(&rt)?;
    let digest = Sha256::new().finalize();
    for row in CHANGES.split('|') {
        let (changes, answer) = row.split_once('>').unwrap_or((row, ""));
        let bytes = changed(rt.alloc(), changes)?;
        assert!(rt; read_state(&bytes, digest).err() == told(answer), "{row}");
    }
    Ok(())
}
