//! The classes of bytes: two bytes are of one class if they do the same.

ghost use Rattle.std.specs.Prelude.{◌≡◌, ◌+◌, ◌<◌, ◌≤◌, IfOk, length, vec_len};

use crate::footing::{Footing, number_among};
use hs_base::Prev;
use hs_engine::Automaton;
use std::alloc::{AllocError, Global};

/// How many bytes have a class: all.
pub const CLASSED_BYTES: usize = 256;

/// The classes of all bytes, numbered by their first bytes.
#[derive(Debug, Drop)]
pub struct ByteClasses {
    /// The class of each byte.
    pub classes: [u8; CLASSED_BYTES],
    /// The first byte of each class.
    pub firsts: Vec<u8>,
    /// What the bytes of each class do.
    pub footings: Vec<Footing>,
}

impl ByteClasses {
    ghost use Rattle.hs_states.specs.AutomatonStates.{AreClassesTo};

    /// The classes of the bytes of an automaton.
    pub fn build(alloc: Global, automaton: &Automaton) -> Result<ByteClasses, AllocError>
        ensures { IfOk result (λ built.
            AreClassesTo automaton.now built.classes built.firsts.items built.footings.items 256) }
    {
        let mut built = ByteClasses {
            classes: [0; CLASSED_BYTES],
            firsts: Vec::new(alloc),
            footings: Vec::new(alloc),
        };
        for byte in 0..CLASSED_BYTES {
            built.add(automaton, byte as u8)?;
        }
        Ok(built)
    }

    /// Adds the next byte.
    fn add(&mut self, automaton: &Automaton, byte: u8) -> Result<(), AllocError>
        requires { AreClassesTo automaton.now self.old.classes self.old.firsts.items self.old.footings.items byte }
        ensures { IfOk result (λ _.
            AreClassesTo automaton.now self.new.classes self.new.firsts.items self.new.footings.items (byte + 1)) }
    {
        let footing = Footing::of_byte(automaton.sets(), byte, Prev::behind(byte));
        match number_among(&self.footings, &footing) {
            Some(number) => {
                self.classes[byte as usize] = number as u8;
            }
            None => {
                self.classes[byte as usize] = self.footings.len() as u8;
                self.firsts.push(byte)?;
                self.footings.push(footing)?;
            }
        }
        Ok(())
    }
}
