//! Lists by pieces through the plain runner. It is `#[cfg(test)]`.

use crate::cases::{List, Verdict};
use crate::scanning::{Log, Scanner, judge_cases};
use crate::setup::Setup;
use hs_run::{Scratch, clear, feed, finish, well_formed};
use std::alloc::Global;
use std::sync::ledger::Ledger;
use std::test::Fail;

/// A stream: its region, and memory for calls on it.
#[derive(Drop)]
pub(crate) struct Running {
    region: Vec<u8>,
    scratch: Scratch,
}

impl Scanner for Setup {
    type Stream = Running;

    fn open(&self, alloc: Global) -> Result<Running, Fail> {
        let mut region = vec![in alloc; 0xffu8; self.layout.size()]?;
        clear(&mut region);
        Ok(Running {
            region,
            scratch: Scratch::new(alloc, &self.program)?,
        })
    }

    fn offset(&self, stream: &Running) -> u64 {
        if stream.region.len() == self.layout.size() {
            self.layout.offset(&stream.region)
        } else {
            u64::MAX
        }
    }

    fn kept(&self, alloc: Global, stream: &Running) -> Result<Vec<u8>, Fail> {
        Ok(Vec::from_slice(alloc, &stream.region)?)
    }

    fn take<L: Ledger>(&self, stream: &mut Running, bytes: &[u8], log: &mut Log<L>) -> Verdict {
        let Setup { program, layout } = self;
        let Running { region, scratch } = stream;
        if well_formed(program, layout, region)
            && scratch.fits(program)
            && layout.offset(region) < 1_000_000
            && bytes.len() < 1_000_000
        {
            feed(
                program,
                layout,
                region,
                scratch,
                bytes,
                &mut log.told,
                &mut log.steps,
            );
            Ok(())
        } else {
            Err(Fail::new("an ill-formed region"))
        }
    }

    fn reset<L: Ledger>(&self, stream: &mut Running, log: &mut Log<L>) -> Verdict {
        let Setup { program, layout } = self;
        let Running { region, scratch } = stream;
        if well_formed(program, layout, region) && scratch.fits(program) {
            finish(
                program,
                layout,
                region,
                scratch,
                &mut log.told,
                &mut log.steps,
            );
            clear(region);
            Ok(())
        } else {
            Err(Fail::new("an ill-formed region"))
        }
    }

    fn close<L: Ledger>(&self, mut stream: Running, log: &mut Log<L>) -> Verdict {
        self.reset(&mut stream, log)
    }
}

/// Compares the reports of the list by roles with those that are wanted.
pub(crate) fn judge_roles(alloc: Global, list: &List) -> Verdict {
    judge_cases(alloc, &Setup::of(alloc, &list.entries)?, &list.cases)
}
