//! The writer of lists and of database files.
ghost use Rattle.std.specs.Prelude.{◌≡◌, ◌<◌, ◌^◌, ◌++◌, length, map, IfOk, OnOk};
ghost use Rattle.std.specs.Int.{w32, to_le_bytes};
ghost use Rattle.hs_base.specs.Entries.{listed};
ghost use Rattle.hs_base.specs.Lists.{Each};
ghost use Rattle.hs_dbfile.specs.Files.{AreWritable, IsWithinWidths, entry_bytes, list_bytes, IsDatabaseFile};
ghost use Rattle.hs_dbfile.specs.Entries.{fields_bytes};

use crate::reading::HEAD;
use byteorder::{ByteOrder, LittleEndian};
use hs_base::Entry;
use std::alloc::{AllocError, Global};

/// How many bytes stand before an entry's text: the identifier, the flags, the bits of the parameters, both bounds and
/// the text's length.
pub const FIELDS_LEN: usize = 25;

/// The list encoding: how many entries there are, and the entries, with all numbers little-endian.
///
/// # Errors
///
/// Where the bytes find no memory.
pub fn encode_list(alloc: Global, entries: &[Entry]) -> Result<Vec<u8>, AllocError>
    requires { AreWritable (map listed entries.now) }
    ensures { IfOk result (λ bytes. bytes.items ≡ list_bytes (map listed entries.now)) }
{
    let mut bytes = Vec::new(alloc);
    append_list(&mut bytes, entries)?;
    Ok(bytes)
}

/// The database file of a list: `HSDB`, version 1, and the list encoding.
///
/// # Errors
///
/// Where the file finds no memory.
pub fn encode_file(alloc: Global, entries: &[Entry]) -> Result<Vec<u8>, AllocError>
    requires { AreWritable (map listed entries.now) }
    ensures { IfOk result (λ bytes. IsDatabaseFile bytes.items (map listed entries.now)) }
{
    let mut bytes = Vec::new(alloc);
    bytes.extend_from_slice(&HEAD)?;
    append_list(&mut bytes, entries)?;
    Ok(bytes)
}

/// Writes the list encoding at the end.
fn append_list(bytes: &mut Vec<u8>, entries: &[Entry]) -> Result<(), AllocError>
    requires { AreWritable (map listed entries.now) }
    ensures written { OnOk result (bytes.new.items ≡ bytes.old.items ++ list_bytes (map listed entries.now)) }
    ensures widths { OnOk result (Each IsWithinWidths (map listed entries.now)) }
{
    bytes.extend_from_slice(&count_bytes(entries))?;
    for entry in entries {
        append_entry(bytes, entry)?;
    }
    Ok(())
}

/// Writes an entry at the end.
fn append_entry(bytes: &mut Vec<u8>, entry: &Entry) -> Result<(), AllocError>
    requires { length entry.now.text.items < 2 ^ 16 }
    ensures written { OnOk result (bytes.new.items ≡ bytes.old.items ++ entry_bytes (listed entry.now)) }
    ensures widths { OnOk result (IsWithinWidths (listed entry.now)) }
{
    bytes.extend_from_slice(&fields_of(entry))?;
    append_text(bytes, &entry.text)?;
    Ok(())
}

/// Writes a text at the end.
pub fn append_text(bytes: &mut Vec<u8>, text: &[u8]) -> Result<(), AllocError>
    ensures written { OnOk result (bytes.new.items ≡ bytes.old.items ++ text.now) }
    ensures widths { Each (λ b. b < 2 ^ 8) text.now }
{
    bytes.extend_from_slice(text)
}

/// How many entries there are, as bytes.
pub fn count_bytes(entries: &[Entry]) -> [u8; 4]
    requires { length entries.now < 2 ^ 32 }
    ensures { result ≡ to_le_bytes w32 (length entries.now) }
{
    let mut count = [0; 4];
    LittleEndian::write_u32(&mut count, entries.len() as u32);
    count
}

/// The bytes of an entry before its text.
pub fn fields_of(entry: &Entry) -> [u8; FIELDS_LEN]
    requires { length entry.now.text.items < 2 ^ 16 }
    ensures value { result ≡ fields_bytes (listed entry.now) }
    ensures id { entry.now.id.0 < 2 ^ 32 }
    ensures least { entry.now.ext.min_offset < 2 ^ 64 }
    ensures greatest { entry.now.ext.max_offset < 2 ^ 64 }
{
    let id = entry.id.0;
    let min_offset = entry.ext.min_offset;
    let max_offset = entry.ext.max_offset;
    let mut fields = [0; FIELDS_LEN];
    LittleEndian::write_u32(&mut fields, id);
    LittleEndian::write_u16(&mut fields[4..], entry.flags.0);
    fields[6] = entry.ext.bits;
    LittleEndian::write_u64(&mut fields[7..], min_offset);
    LittleEndian::write_u64(&mut fields[15..], max_offset);
    LittleEndian::write_u16(&mut fields[23..], entry.text.len() as u16);
    fields
}
