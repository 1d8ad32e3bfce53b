//! The digest of a list.
ghost use Rattle.std.specs.Prelude.{◌≡◌, map};
ghost use Rattle.sha2.specs.Sha256.{sha256};
ghost use Rattle.hs_base.specs.Entries.{listed};
ghost use Rattle.hs_dbfile.specs.Files.{AreEncodable, list_bytes};

use crate::writing::{count_bytes, fields_of};
use hs_base::Entry;
use sha2::{Digest, Sha256};

/// The SHA-256 digest (FIPS 180-4) of the list encoding. It takes no memory.
pub fn digest(entries: &[Entry]) -> [u8; 32]
    requires { AreEncodable (map listed entries.now) }
    ensures { result ≡ sha256 (list_bytes (map listed entries.now)) }
{
    let mut hasher = Sha256::new();
    hasher.update(&count_bytes(entries));
    for entry in entries {
        hasher.update(&fields_of(entry));
        hasher.update(entry.text.as_slice());
    }
    hasher.finalize()
}
