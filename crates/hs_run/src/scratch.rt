//! Memory that a runner uses within a call. Nothing in it outlives the call.

ghost use Rattle.std.specs.Prelude.{◌↔◌, IfOk, IsTrue};

use crate::ends::Ends;
use crate::kept::Kept;
use crate::look_back::WINDOW_ROOM;
use hs_engine::Engine;
use hs_rose::Program;
use std::alloc::{AllocError, Global};

/// Memory that a runner uses within a call, for one program at a time. A scratch serves any stream of a program that it
/// fits.
#[derive(Debug, Drop)]
pub struct Scratch {
    /// The region of an engine that looks back.
    pub(crate) window: Vec<u8>,
    /// Where matches of each identifier end.
    pub(crate) ends: Vec<Ends>,
    /// What is kept of each identifier.
    pub(crate) kept: Vec<Kept>,
}

impl Scratch {
    ghost use Rattle.hs_run.specs.Scratches.{FitsScratch};

    /// A scratch for the program.
    pub fn new(alloc: Global, program: &Program) -> Result<Scratch, AllocError>
        ensures { IfOk result (λ scratch. FitsScratch program.now scratch) }
    {
        let count = program.identifiers().len();
        Ok(Scratch {
            window: vec![in alloc; 0u8; WINDOW_ROOM]?,
            ends: vec![in alloc; Ends::none(); count]?,
            kept: vec![in alloc; Kept::NOTHING; count]?,
        })
    }

    /// Whether the scratch serves the program.
    pub fn fits(&self, program: &Program) -> bool
        ensures { IsTrue result ↔ FitsScratch program.now self.now }
    {
        let count = program.identifiers().len();
        self.window.len() == WINDOW_ROOM && self.ends.len() == count && self.kept.len() == count
    }
}
