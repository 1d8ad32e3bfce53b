//! What may be spent on steps that aren't known yet. Nothing hangs on it but speed: what an automaton doesn't tell, the
//! engines do.

ghost use Rattle.std.specs.Prelude.{◌≡◌, false, nat_le, nat_lt};

/// How many engines may be asked for a byte at first.
const FIRST_CREDIT: u32 = 65536;

/// How many after each rest.
const LATER_CREDIT: u32 = 16384;

/// How many more for each chunk that was taken.
const CHUNK_CREDIT: u32 = 64;

/// How many at most.
const MOST_CREDIT: u32 = 65536;

/// After how many chunks in turn that were taken in vain an automaton rests.
const MOST_VAIN: u32 = 64;

/// With how many members it doesn't rest so: to ask for each of as many takes longer than its steps.
const MANY_MEMBERS: usize = 32;

/// After how many chunks in turn of which many bytes left members those are given up that were left most.
const MOST_NOISY: u32 = 16;

/// For how many chunks an automaton rests at first.
const FIRST_REST: u32 = 256;

/// For how many it rests at most.
const LONGEST_REST: u32 = 4096;

/// What an automaton may spend: engines that are asked for a byte. Where it is used up, the automaton rests for some
/// chunks, the longer the more often.
#[derive(Clone, Copy, Debug)]
pub struct Budget {
    /// How many engines may be asked before the automaton has to rest.
    credit: u32,
    /// How many chunks in turn were taken in vain.
    vain: u32,
    /// Of how many chunks in turn many bytes left members.
    noisy: u32,
    /// For how many chunks it rests still.
    rest: u32,
    /// For how many it will rest next.
    patience: u32,
}

impl Budget {
    /// What an automaton begins with.
    pub(crate) const FIRST: Budget = Budget {
        credit: FIRST_CREDIT,
        vain: 0,
        noisy: 0,
        rest: 0,
        patience: FIRST_REST,
    };

    /// Spends that much, if there is as much; else all is spent.
    pub(crate) fn spend(&mut self, cost: u32) -> bool
        ensures { result ≡ nat_le cost self.old.credit }
    {
        if cost > self.credit {
            self.credit = 0;
            return false;
        }
        self.credit -= cost;
        true
    }

    /// Whether all is spent.
    pub(crate) fn is_spent(&self) -> bool
        ensures { result ≡ nat_le self.now.credit 0 }
    {
        self.credit == 0
    }

    /// Gives what a chunk earns that was taken by so many members, and begins a rest where these are few and too many
    /// chunks were taken in vain.
    pub(crate) fn earn(&mut self, in_vain: bool, members: usize)
        ensures { in_vain ≡ false → self.new.rest ≡ self.old.rest }
    {
        self.credit = self.credit.saturating_add(CHUNK_CREDIT).min(MOST_CREDIT);
        if !in_vain {
            self.vain = 0;
            return;
        }
        self.vain = self.vain.saturating_add(1);
        if self.vain >= MOST_VAIN && members < MANY_MEMBERS {
            self.begin_rest();
        }
    }

    /// Takes note of whether many bytes of a chunk left members. Answers whether it was so of too many chunks in turn,
    /// and counts anew then.
    pub(crate) fn hear(&mut self, is_noisy: bool) -> bool
        ensures { is_noisy ≡ false → result ≡ false }
    {
        if !is_noisy {
            self.noisy = 0;
            return false;
        }
        self.noisy = self.noisy.saturating_add(1);
        if self.noisy < MOST_NOISY {
            return false;
        }
        self.noisy = 0;
        true
    }

    /// Begins a rest, and gives what may be spent behind it.
    pub(crate) fn begin_rest(&mut self)
        ensures { self.new.rest ≡ self.old.patience }
    {
        self.credit = LATER_CREDIT;
        self.vain = 0;
        self.rest = self.patience;
        self.patience = self.patience.saturating_mul(2).min(LONGEST_REST);
    }

    /// Whether the automaton rests for a chunk, which is then one less to rest for.
    pub(crate) fn rests(&mut self) -> bool
        ensures { result ≡ nat_lt 0 self.old.rest }
    {
        if self.rest == 0 {
            return false;
        }
        self.rest -= 1;
        true
    }
}
