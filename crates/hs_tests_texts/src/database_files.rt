//! Database files byte by byte: written, read, cut and changed. Files and digests are hexadecimal digits.
//! It is `#[cfg(test)]`.
use hs_base::{Entry, ExprId, Ext, Flags};
use hs_dbfile::{DecodeFault, decode_file, digest, encode_file, encode_list};
use sha2::{Digest, Sha256};
use std::alloc::{AllocError, Global};
use std::process::Abort;
use std::test::Fail;

/// The database file of no entries.
const NONE: &str = "48534442010000000000";

/// The database file of the pattern file `16:/foo/`.
const FOO: &str = "48534442010001000000100000000000000000000000000000ffffffffffffffff0300666f6f";

/// The database file of four entries, each field of the first another number.
const FOUR: &str =
    "4853444201000400000098badcfeff071f08070605040302011817161514131211030000ff0a070000000100010500000000\
    000000ffffffffffffffff000008000000020302000000000000000009000000000000000100610900000000001c00000000\
    00000000ffffffffffffffff02006263";

/// Its entries: identifier, flags, the bits and offsets of parameters, and the bytes of the expression.
const ENTRIES: &str = "4275878552 2047 31 72623859790382856 1230066625199609624 [0, 255, 10]|\
    7 1 1 5 18446744073709551615 []|8 770 2 0 9 [97]|9 0 28 0 18446744073709551615 [98, 99]";

/// The SHA-256 digests of their list encodings, the bytes behind the head.
const NONE_DIGEST: &str = "df3f619804a92fdb4057192dc43dd748ea778adc52bc498ce80524c014b81119";

const FOO_DIGEST: &str = "b64473caa5bd19634677aba91b8d64d5c18b61c38957e4e172ed56dd2e315362";

const FOUR_DIGEST: &str = "0c785f7fc1ff435dc2be5ea1fa3aa5910f358c198a5236605c1a532a066e245b";

/// The SHA-256 digest of the empty message (NIST, "Example Values", SHA-256).
const EMPTY_DIGEST: &str = "e3b0c44298fc1c149afbf4c8996fb92427ae41e4649b934ca495991b7852b855";

/// The SHA-256 digest of `abc` (FIPS 180-4's example).
const ABC_DIGEST: &str = "ba7816bf8f01cfea414140de5dae2223b00361a396177a9cb410ff61f20015ad";

/// Bytes of the file `FOO` with what stands there instead, or behind it, and where the bytes stop being a file.
const CHANGES: &str = "\
0=88>0|3=88>3|4=0>4|4=2>4|5=1>5|6=0>10|6=2>38|9=255>38|13=255>-|14=255>-|15=7>-|15=8>15|15=255>15|16=28>-|\
16=31>-|16=32>16|17=1>17|24=1>24|25=254>25|32=127>32|33=2>37|33=4>38|34=1>38|35=0>-|37=255>-|16=0,17=1,25=1>17|\
16=1,17=1,25=1>25|16=2,17=1,25=1>17|16=3,17=1,25=1>-|38=0>38|38=0,39=0>38";

/// The bytes of hexadecimal digits.
fn bytes_of(alloc: Global, digits: &str) -> Result<Vec<u8>, AllocError> {
    let mut bytes = Vec::new(alloc);
    for pair in digits.as_bytes().chunks(2) {
        let text = str::from_utf8(pair).unwrap_or("");
        bytes.push(u8::from_str_radix(text, 16).unwrap_or(0))?;
    }
    Ok(bytes)
}

/// The length at which the bytes stop being a database file, or none where they are one.
fn place(alloc: Global, bytes: &[u8]) -> Result<Option<u64>, DecodeFault> {
    match decode_file(alloc, bytes) {
        Ok(_) => Ok(None),
        Err(DecodeFault::Form(at)) => Ok(Some(at)),
        Err(DecodeFault::Memory) => Err(DecodeFault::Memory),
    }
}

/// The file of the pattern file `16:/foo/`.
fn foo_file(alloc: Global) -> Result<Vec<u8>, AllocError> {
    let text = Vec::from_slice(alloc, b"foo")?;
    let mut entries = Vec::new(alloc);
    entries.push(Entry {
        id: ExprId(16),
        flags: Flags::NONE,
        ext: Ext::NONE,
        text,
    })?;
    encode_file(alloc, &entries)
}

#[test]
fn writes_one_entry(rt: HostRuntime) -> Result<(), AllocError> {
    let file = foo_file(rt.alloc())?;
    assert!(rt; file == bytes_of(rt.alloc(), FOO)?);
    Ok(())
}

/// An entry, as it stands in a row.
fn shown(alloc: Global, entry: &Entry) -> Result<String, AllocError> {
    let (id, flags, ext) = (entry.id.0, entry.flags.0, &entry.ext);
    let (bits, min, max) = (ext.bits, ext.min_offset, ext.max_offset);
    let text = entry.text.as_slice();
    format!(in alloc; "{id} {flags} {bits} {min} {max} {text:?}")
}

#[test]
fn reads_each_field(rt: HostRuntime) -> Result<(), Fail> {
    let entries = decode_file(rt.alloc(), &bytes_of(rt.alloc(), FOUR)?)?;
    assert!(rt; entries.len() == 4);
    for (entry, row) in entries.iter().zip(ENTRIES.split('|')) {
        let found = shown(rt.alloc(), entry)?;
        assert!(rt; found.as_str() == row, "{found}");
    }
    Ok(())
}

/// Asserts that the file is written as it was read, and has that digest.
fn check_file(rt: &impl Abort, alloc: Global, file: &str, wanted: &str) -> Result<(), Fail> {
    let bytes = bytes_of(alloc, file)?;
    let entries = decode_file(alloc, &bytes)?;
    assert!(rt; encode_file(alloc, &entries)? == bytes, "{file}");
    let list = encode_list(alloc, &entries)?;
    assert!(rt; Some(list.as_slice()) == bytes.get(6..), "{file}");
    let found = digest(&entries);
    assert!(rt;
        bytes_of(alloc, wanted)?.as_slice() == found.as_slice(),
        "{file}"
    );
    assert!(rt; found == Sha256::digest(list.as_slice()), "{file}");
    Ok(())
}

#[test]
fn writes_what_it_read(rt: HostRuntime) -> Result<(), Fail> {
    check_file(&rt, rt.alloc(), NONE, NONE_DIGEST)?;
    check_file(&rt, rt.alloc(), FOO, FOO_DIGEST)?;
    check_file(&rt, rt.alloc(), FOUR, FOUR_DIGEST)
}

#[test]
fn digests_published_messages(rt: HostRuntime) -> Result<(), Fail> {
    let mut hasher = Sha256::new();
    assert!(rt; bytes_of(rt.alloc(), EMPTY_DIGEST)?.as_slice() == hasher.finalize().as_slice());
    hasher = Sha256::new();
    hasher.update(b"a".as_slice());
    hasher.update(b"bc".as_slice());
    assert!(rt; bytes_of(rt.alloc(), ABC_DIGEST)?.as_slice() == hasher.finalize().as_slice());
    Ok(())
}

/// Asserts that each beginning of the bytes stops being a file at its end.
fn check_cuts(rt: &impl Abort, alloc: Global, bytes: &[u8]) -> Result<(), Fail> {
    for length in 0..bytes.len() {
        assert!(rt;
            place(alloc, &bytes[..length])? == Some(length as u64),
            "{length}"
        );
    }
    Ok(())
}

/// Those bytes with the changes of a row.
fn changed(alloc: Global, changes: &str) -> Result<Vec<u8>, AllocError> {
    let mut bytes = bytes_of(alloc, FOO)?;
    for change in changes.split(',') {
        let (index, byte) = change.split_once('=').unwrap_or((change, ""));
        let byte = byte.parse::<u8>().unwrap_or(0);
        match bytes.get_mut(index.parse::<usize>().unwrap_or(0)) {
            Some(old) => *old = byte,
            None => bytes.push(byte)?,
        }
    }
    Ok(bytes)
}

#[test]
fn stops_where_bytes_are_cut_or_wrong(rt: HostRuntime) -> Result<(), Fail> {
    check_cuts(&rt, rt.alloc(), &bytes_of(rt.alloc(), FOO)?)?;
    check_cuts(&rt, rt.alloc(), &bytes_of(rt.alloc(), FOUR)?)?;
    for row in CHANGES.split('|') {
        let (changes, at) = row.split_once('>').unwrap_or((row, ""));
        let bytes = changed(rt.alloc(), changes)?;
        assert!(rt;
            place(rt.alloc(), &bytes)? == at.parse::<u64>().ok(),
            "{row}"
        );
    }
    assert!(rt; place(rt.alloc(), b"HSDX")? == Some(3));
    assert!(rt; place(rt.alloc(), b"HSDB\x01\x00\x00\x00\x00\x00\x00")? == Some(10));
    Ok(())
}
