//! The name of a stream.
ghost use Rattle.std.specs.Prelude.{◌≡◌, ◌≤◌, length};
ghost use Rattle.hs_text.specs.declared.report_lines.TheConstants.{NAME_LEN};

use hs_text::NAME_LEN;
use std::marker::Model;

/// The name of a stream, which has at most 32 bytes.
#[derive(Drop)]
pub struct Name {
    bytes: [u8; NAME_LEN],
    /// How many of the bytes are the name.
    len: usize,
}

impl Model for Name {
    ghost use Rattle.std.specs.Prelude.{ℕ, List, ◌≤◌, take};

    ghost Value = { List ℕ };

    ghost view = { λ name. take name.len name.bytes };

    ghost invariant = { λ name. name.len ≤ 32 };
}

impl Name {
    /// The name of these bytes.
    pub fn new(bytes: &[u8]) -> Name
        requires { length bytes.now ≤ NAME_LEN }
        ensures { result ≡ bytes.now }
    {
        let mut name = Name {
            bytes: [0; NAME_LEN],
            len: 0,
        };
        name.set(bytes);
        name
    }

    /// Makes it the name of these bytes.
    fn set(&mut self, bytes: &[u8])
        requires { length bytes.now ≤ NAME_LEN }
        ensures { self.new ≡ bytes.now }
    {
        self.bytes[..bytes.len()].copy_from_slice(bytes);
        self.len = bytes.len();
    }

    /// The same name once more.
    pub fn copied(&self) -> Name
        ensures { result ≡ self.now }
    {
        Name::new(self.as_slice())
    }

    /// Its bytes.
    pub fn as_slice(&self) -> &[u8]
        ensures bytes { result.now ≡ self.now }
        ensures short { length result.now ≤ NAME_LEN }
    {
        &self.bytes[..self.len]
    }
}
