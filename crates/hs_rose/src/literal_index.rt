//! The literals of a program, each once, and where each of them stands.

ghost use Rattle.std.specs.Prelude.{◌≡◌, ℕ, List, [], IfOk, Option, map};
ghost use Rattle.hs_base.specs.LiteralView.{literal_byte, literal_bytes};
ghost use Rattle.hs_rose.specs.Keys.{key_at};

use hs_base::LitByte;
use std::alloc::{AllocError, Global};
use std::collections::BTreeMap;

/// The literals so far, each once, so that an equal one is found without a look at each.
#[derive(Drop)]
pub(crate) struct LiteralIndex {
    /// The literals.
    pub list: Vec<Vec<LitByte>>,
    /// The number of each, by its key.
    numbers: BTreeMap<Vec<u16>, usize>,
}

impl LiteralIndex {
    ghost use Rattle.hs_rose.specs.Indexing.{IsIndexed, number_at};
    ghost use Rattle.hs_rose.specs.Numbering.{IsNumbered};

    /// No literal.
    pub fn new(alloc: Global) -> LiteralIndex
        ensures none { result.list.items ≡ [] }
        ensures indexed { IsIndexed result }
    {
        LiteralIndex {
            list: Vec::new(alloc),
            numbers: BTreeMap::new(alloc),
        }
    }

    /// The number of the literal: it is put behind these where none of them is equal.
    pub fn number_of(&mut self, alloc: Global, bytes: &[LitByte]) -> Result<usize, AllocError>
        ensures numbered { IfOk result (λ number. IsIndexed self.old →
            IsNumbered (map literal_bytes self.old.list.items) (map literal_byte bytes.now)
            (map literal_bytes self.new.list.items) number) }
        ensures indexed { IfOk result (λ number. IsIndexed self.old → IsIndexed self.new) }
    {
        let key = key_of(alloc, bytes)?;
        if let Some(number) = self.find(&key) {
            return Ok(number);
        }
        let number = self.list.len();
        self.numbers.insert(key, number)?;
        self.list.push(Vec::from_slice(alloc, bytes)?)?;
        Ok(number)
    }

    /// The number of the literal with the key.
    fn find(&self, key: &[u16]) -> Option<usize>
        ensures { result ≡ number_at self.now key.now }
    {
        self.numbers.get(key).copied()
    }
}

/// The literal as a list of numbers, which no other has.
fn key_of(alloc: Global, bytes: &[LitByte]) -> Result<Vec<u16>, AllocError>
    ensures { IfOk result (λ key. key.items ≡ map key_at bytes.now) }
{
    bytes.iter().map(|x| key_byte(*x)).collect(alloc)
}

/// What stands at a place of a literal, as one number.
pub(crate) fn key_byte(x: LitByte) -> u16
    ensures { result ≡ key_at x }
{
    let byte = u16::from(x.byte);
    if x.both_cases {
        return 2 * byte + 1;
    }
    2 * byte
}
