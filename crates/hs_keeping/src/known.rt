//! What is known of the identifiers within a write: begun by what a region keeps, settled block by block, and written
//! into the region again.

ghost use Rattle.std.specs.Prelude.{◌≡◌, ◌<◌, ◌^◌, IfOk, length};
ghost use Rattle.hs_base.specs.Bits.{word_count};
ghost use Rattle.hs_layout.specs.Layouts.{laid_size};
ghost use Rattle.hs_reports.specs.EndTables.{HasNoEnds};
ghost use Rattle.hs_keeping.specs.Keeping.{AreBitsWritten, AreLast, AreRead, HasBits};
ghost use Rattle.hs_keeping.specs.Knowing.{BeginsKnown, FitsKnown, SettlesKnown};

use crate::keeping::{read_rows, write_rows};
use hs_bits::word_count_for;
use hs_layout::Layout;
use hs_reports::{Identifier, IdentifierEnds, Tellings, settle_block};
use std::alloc::{AllocError, Global};

/// What is known of the identifiers behind the bytes so far, and room for what a block tells of them.
#[derive(Drop)]
pub struct Known {
    /// A bit for each identifier, by its number: it is single, and a pair of it is told.
    pub told: Vec<u64>,
    /// Its pair that ends behind the last byte is told.
    pub here: Vec<u64>,
    /// Where matches of it end in a block.
    pub ends: IdentifierEnds,
    /// What a block tells of those that it concerns.
    pub tellings: Tellings,
}

impl Known {
    /// Room for so many identifiers. The only error is want of memory.
    pub fn new(alloc: Global, count: usize) -> Result<Known, AllocError>
        requires { count < 2 ^ 32 }
        ensures fits { IfOk result (λ known. FitsKnown count known) }
        ensures no_ends { IfOk result (λ known. HasNoEnds known.ends) }
    {
        let words = word_count_for(count);
        Ok(Known {
            told: vec![in alloc; 0u64; words]?,
            here: vec![in alloc; 0u64; words]?,
            ends: IdentifierEnds::new(alloc, count)?,
            tellings: Tellings::new(alloc, count)?,
        })
    }

    /// Reads what the region keeps of the identifiers, and notes those of which a pair ends behind the last byte.
    #[inline]
    pub fn begin(&mut self, layout: &Layout, region: &[u8], identifiers: &[Identifier])
        requires sized { length region.now ≡ laid_size layout.now }
        requires bits { HasBits layout.now identifiers.now }
        requires few { length identifiers.now < 2 ^ 32 }
        requires fits { FitsKnown (length identifiers.now) self.old }
        requires none { HasNoEnds self.old.ends }
        ensures { BeginsKnown layout.now region.now identifiers.now self.new }
    {
        read_rows(layout, region, identifiers, &mut self.told, &mut self.here);
        self.ends.note_all(&self.here);
    }

    /// Settles the identifiers that have an end in a block, or had one behind the last byte before it, of which `last`
    /// is the place of the last byte.
    #[inline]
    pub fn settle(&mut self, identifiers: &[Identifier], last: usize)
        requires ends { length self.old.ends.words ≡ length identifiers.now }
        requires fits { FitsKnown (length identifiers.now) self.old }
        requires last { last < 64 }
        ensures settled { SettlesKnown identifiers.now last self.old self.new }
    {
        settle_block(
            identifiers,
            &mut self.ends,
            &mut self.told,
            &mut self.here,
            last,
            &mut self.tellings,
        );
    }

    /// Writes into the region what is known, and which identifiers are left to the end; all else stays.
    #[inline]
    pub fn write(
        &self,
        layout: &Layout,
        region: &mut [u8],
        identifiers: &[Identifier],
        last: &[u64],
    )
        requires sized { length region.old ≡ laid_size layout.now }
        requires bits { HasBits layout.now identifiers.now }
        requires few { length identifiers.now < 2 ^ 32 }
        requires fits { FitsKnown (length identifiers.now) self.now }
        requires last { length last.now ≡ word_count (length identifiers.now) }
        ensures written { AreBitsWritten layout.now region.old region.new }
        ensures read { AreRead layout.now region.new identifiers.now self.now.told.items self.now.here.items }
        ensures last { AreLast layout.now region.new identifiers.now last.now }
    {
        write_rows(layout, region, identifiers, &self.told, &self.here, last);
    }
}
