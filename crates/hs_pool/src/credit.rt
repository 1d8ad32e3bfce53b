//! What may be spent on steps that weren't met yet. Nothing hangs on it but speed: where a pool doesn't tell what a
//! block does, the engine does.

ghost use Rattle.std.specs.Prelude.{◌≡◌, ◌↔◌, ◌<◌, ◌+◌, ◌-◌, ◌*◌, IsTrue};
ghost use Rattle.hs_pool.specs.Credits.{at_most, credit};

/// How many steps may be made at first.
const FIRST_CREDIT: u32 = 512;

/// How many after each rest.
const LATER_CREDIT: u32 = 64;

/// How many at most.
const MOST_CREDIT: u32 = 1024;

/// For how many blocks an engine rests at first.
const FIRST_REST: u32 = 64;

/// For how many it rests at most.
const MOST_BLOCKS_OF_REST: u32 = 4096;

/// What may be spent on an engine: steps that are made. Where it is used up, the engine rests for some blocks, the
/// longer the more often.
#[derive(Clone, Copy, Debug)]
pub struct Credit {
    /// How many steps may be made before the engine has to rest.
    left: u32,
    /// For how many blocks it rests still.
    rest: u32,
    /// For how many it will rest next.
    patience: u32,
}

impl Credit {
    /// What an engine begins with.
    pub(crate) const FIRST: Credit = Credit {
        left: FIRST_CREDIT,
        rest: 0,
        patience: FIRST_REST,
    };

    /// Spends a step, if there is one left.
    pub(crate) fn spend(&mut self) -> bool
        ensures is_left { IsTrue result ↔ 0 < self.old.left }
        ensures spent { self.new ≡ credit (self.old.left - 1) self.old.rest self.old.patience }
    {
        if self.left == 0 {
            return false;
        }
        self.left -= 1;
        true
    }

    /// Gives what a block earns that took no step that wasn't met.
    pub(crate) fn earn(&mut self)
        ensures { self.new ≡ credit (at_most 1024 (self.old.left + 1)) self.old.rest self.old.patience }
    {
        self.left = self.left.saturating_add(1).min(MOST_CREDIT);
    }

    /// Begins a rest, and gives what may be spent behind it.
    pub(crate) fn begin_rest(&mut self)
        ensures { self.new ≡ credit 64 self.old.patience (at_most 4096 (2 * self.old.patience)) }
    {
        self.left = LATER_CREDIT;
        self.rest = self.patience;
        self.patience = self.patience.saturating_mul(2).min(MOST_BLOCKS_OF_REST);
    }

    /// Whether the engine rests for a block, which is then one less to rest for.
    pub(crate) fn rests(&mut self) -> bool
        ensures is_resting { IsTrue result ↔ 0 < self.old.rest }
        ensures passed { self.new ≡ credit self.old.left (self.old.rest - 1) self.old.patience }
    {
        if self.rest == 0 {
            return false;
        }
        self.rest -= 1;
        true
    }
}
