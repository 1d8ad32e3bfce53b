//! The rest of a file that holds no list: it is read, and nothing of it kept.
ghost use Rattle.std.specs.Prelude.{◌≡◌, ◌≤◌, ℕ, IfErr, OnOk};
ghost use Rattle.hs_outside.specs.Store.{Told, EndsBy, Refuses};
ghost use Rattle.hs_lists.specs.Causes.{cause_of};
ghost use Rattle.hs_lists.specs.ListKinds.{ListKind as PlainKind};
ghost use Rattle.hs_lists.specs.Endings.{StopsList, greatest_list};

use crate::fault::Fault;
use crate::loading::MAX_LIST_LEN;
use hs_outside::{PIECE_LEN, Store, StoreFault};

/// Reads the file on from there, and sees that it ends within the limit of a list's file.
pub fn skip_rest<'a, S: Store>(name: &'a str, from: u64, store: &mut S) -> Result<(), Fault<'a>>
    requires { from ≤ greatest_list }
    ensures end { OnOk result (EndsBy (S.told store.old name.now) greatest_list) }
    ensures counted { OnOk result (S.faults store.new ≡ S.faults store.old) }
    ensures fault { IfErr result (λ fault. (kind : PlainKind) → StopsList kind name.now (S.told store.old name.now)
        (S.faults store.old) (S.faults store.new) (cause_of fault)) }
    ensures kept { S.told store.new ≡ S.told store.old }
{
    let mut at = from;
    let mut piece = [0; PIECE_LEN];
    loop {
        let n = match store.read_at(name, at, &mut piece) {
            Ok(0) => return Ok(()),
            Ok(n) => n as u64,
            Err(fault) => return Err(stopped(fault, name)),
        };
        if MAX_LIST_LEN - at < n {
            return Err(Fault::Limit);
        }
        at += n;
    }
}

/// Why a list isn't loaded from the file of this name, of which nothing could be read.
pub fn stopped<'a>(fault: StoreFault, name: &'a str) -> Fault<'a>
    ensures { (kind : PlainKind) (told : Told) (before now : ℕ) → Refuses fault told before now →
        StopsList kind name.now told before now (cause_of result) }
{
    match fault {
        StoreFault::Absent => Fault::Absent(name),
        StoreFault::Failed => Fault::Store,
    }
}
