//! The program over memory. It is `#[cfg(test)]`.

use crate::top::run;
use hs_settings::{RunsRow, World};
use std::alloc::Global;

/// The program over memory.
pub(crate) struct OverMemory;

impl RunsRow for OverMemory {
    fn run(world: &mut World, alloc: Global, words: &[String]) -> u8 {
        run(
            alloc,
            words,
            &mut world.store,
            &mut world.input,
            &mut world.out,
            &mut world.err,
        )
    }
}
