//! A walk through the items of a chain, which keeps numbers in place of pieces.
ghost use Rattle.std.specs.Prelude.{◌≡◌, ◌<◌, ◌∷◌, [], ℕ, Bool, List, Option, None};
ghost use Rattle.std.specs.Option.{option_or};
ghost use Rattle.hs_base.specs.Chains.{literal, ordinary, long, part_of};
ghost use Rattle.hs_base.specs.Literals.{LiteralByte};
ghost use Rattle.hs_base.specs.Trees.{Tree};
ghost use Rattle.hs_expr.specs.Counts.{capped, positions};
ghost use Rattle.hs_expr.specs.Meaning.{tree_of};
ghost use Rattle.hs_support.specs.PieceCounts.{too_many};

use hs_base::MAX_POSITIONS;
use hs_expr::{Expr, Kind, MOST_LITERAL_BYTES, kind_of, positions};

/// What is found, and what waits for the items to come.
#[derive(Clone, Copy, Debug)]
pub struct Walk {
    /// The positions of the first piece that has too many.
    pub found: Option<u32>,
    /// The positions of the ordinary items that wait.
    pub count: u32,
    /// The literal bytes that wait behind these, not yet a full literal.
    pub run: usize,
    ghost short: { run < 32 },
}

impl Walk {
    ghost use Rattle.hs_support.specs.Walking.{Leads, Takes, EndsRun};

    /// No item yet.
    pub fn new() -> Walk
        ensures found { result.found ≡ None }
        ensures count { result.count ≡ 0 }
        ensures run { result.run ≡ 0 }
    {
        Walk {
            found: None,
            count: 0,
            run: 0,
        }
    }

    /// The walk with one more item.
    pub fn with_item(self, item: &Expr) -> Walk
        ensures { Takes self (part_of (tree_of item.now)) result }
    {
        match kind_of(item) {
            Kind::Literal(_) => self.with_byte(),
            Kind::Long(_, _, _) => self.with_long(),
            Kind::Ordinary => self.with_positions(positions(item)),
        }
    }

    /// What is found where no item comes any more.
    pub fn finish(self) -> Option<u32>
        ensures { Leads self [] result }
    {
        let ended = self.run_ended();
        first_excess(ended.found, ended.count)
    }

    /// The walk with one more byte of a literal.
    fn with_byte(self) -> Walk
        ensures { (x : LiteralByte) → Takes self (literal (x ∷ [])) result }
    {
        if self.run + 1 < MOST_LITERAL_BYTES {
            return Walk {
                found: self.found,
                count: self.count,
                run: self.run + 1,
            };
        }
        Walk {
            found: first_excess(self.found, self.count),
            count: 0,
            run: 0,
        }
    }

    /// The walk with a long repeat of a set, which is a piece of its own.
    fn with_long(self) -> Walk
        ensures { (set : List Bool) (least : ℕ) (greatest : Option ℕ) → Takes self (long set least greatest) result }
    {
        let ended = self.run_ended();
        Walk {
            found: first_excess(ended.found, ended.count),
            count: 0,
            run: 0,
        }
    }

    /// The walk with an ordinary item of so many positions.
    fn with_positions(self, count: u32) -> Walk
        ensures { (t : Tree) → count ≡ capped (positions t) → Takes self (ordinary (t ∷ [])) result }
    {
        let ended = self.run_ended();
        Walk {
            found: ended.found,
            count: ended.count.saturating_add(count),
            run: 0,
        }
    }

    /// The walk behind the run that waits: one byte alone is an ordinary item.
    fn run_ended(self) -> Walk
        ensures { EndsRun self result }
    {
        if self.run == 0 {
            return self;
        }
        if self.run == 1 {
            return Walk {
                found: self.found,
                count: self.count.saturating_add(1),
                run: 0,
            };
        }
        Walk {
            found: first_excess(self.found, self.count),
            count: 0,
            run: 0,
        }
    }
}

/// What is found where a piece of so many positions ends.
fn first_excess(found: Option<u32>, count: u32) -> Option<u32>
    ensures { result ≡ option_or found (too_many count) }
{
    if found.is_some() || count <= MAX_POSITIONS {
        return found;
    }
    Some(count)
}
