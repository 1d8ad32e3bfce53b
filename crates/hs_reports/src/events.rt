//! What takes reports.
ghost use Rattle.std.specs.Prelude.{ℕ};

use hs_base::ExprId;

/// What takes the reports of a scan, one by one, in the order in which they are decided.
pub trait Events {
    /// What one report, of an identifier and an end, makes of it.
    ghost tells: { Self → ℕ → ℕ → Self → Type 0 };

    /// Takes a report: an identifier, and the offset in bytes behind the last byte of the match.
    fn report(&mut self, id: ExprId, to: u64)
        ensures { tells self.old id.0 to self.new };
}
