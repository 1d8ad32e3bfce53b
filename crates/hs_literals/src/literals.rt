//! Literals, ready to be looked for.

ghost use Rattle.std.specs.Prelude.{◌≡◌, IfOk, length, map};
ghost use Rattle.hs_base.specs.LiteralView.{literal_byte};
ghost use Rattle.hs_confirm.specs.Filed.{literals_of, buckets_of};
ghost use Rattle.hs_literals.specs.Masking.{TablesHideNone, AreFew};

use hs_base::LitByte;
use hs_confirm::Confirm;
use hs_fdr::Tables;
use std::alloc::{AllocError, Global};

/// Literals, ready to be looked for in any bytes.
#[derive(Drop)]
pub struct Literals {
    /// Which buckets may have a literal that ends at a place.
    pub(crate) tables: Tables,
    /// Which of their literals do.
    pub(crate) confirm: Confirm,
    ghost hides_none: { TablesHideNone tables (literals_of confirm) (buckets_of confirm) },
    ghost few: { AreFew (buckets_of confirm) },
}

impl Literals {
    ghost use Rattle.hs_literals.specs.Held.{held};

    /// How many literals there are.
    pub fn count(&self) -> usize
        ensures { result ≡ length (held self.now) }
    {
        self.confirm.count()
    }

    /// The tables of these literals. They are fast where each literal has 2 to 32 bytes.
    ///
    /// # Errors
    ///
    /// There may be no memory.
    pub fn build(alloc: Global, literals: &[Vec<LitByte>]) -> Result<Literals, AllocError>
        ensures { IfOk result (λ built. held built ≡ map (λ literal. map literal_byte literal.items) literals.now) }
    {
        let (tables, buckets) = hs_fdr_build::build(alloc, literals)?;
        let confirm = Confirm::build(alloc, literals, buckets.as_slice())?;
        Ok(Literals { tables, confirm })
    }
}
