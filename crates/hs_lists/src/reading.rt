//! The file of a list, judged while it is read.
ghost use Rattle.std.specs.Prelude.{◌≡◌, ◌≤◌, IfOk, IfErr, OnOk, length};
ghost use Rattle.hs_outside.specs.Store.{IsFile};
ghost use Rattle.hs_lists.specs.Causes.{cause_of};
ghost use Rattle.hs_lists.specs.ListKinds.{kind_of};
ghost use Rattle.hs_lists.specs.Endings.{StopsList, greatest_list};

use crate::early::early_fault;
use crate::fault::Fault;
use crate::loading::{ListKind, MAX_LIST_LEN};
use crate::skipping::{skip_rest, stopped};
use hs_outside::{PIECE_LEN, Store};
use std::alloc::Global;

/// How many bytes there are when they are judged first.
const FIRST_JUDGED: usize = 1_048_576;

/// Reads the file of a list. Where no file that begins like it holds a list, none of its bytes are kept, and the rest
/// is read only to see that it ends within the limit.
///
/// The bytes are judged when there are 1 MiB of them, and again whenever they have doubled. So a shorter file isn't
/// judged here, and of a longer one at most twice its length is looked through.
pub fn read_listed<'a, S: Store>(
    alloc: Global,
    kind: ListKind,
    name: &'a str,
    store: &mut S,
) -> Result<Vec<u8>, Fault<'a>>
    ensures whole { IfOk result (λ bytes. IsFile (S.told store.old name.now) bytes.items) }
    ensures within { IfOk result (λ bytes. length bytes.items ≤ greatest_list) }
    ensures counted { OnOk result (S.faults store.new ≡ S.faults store.old) }
    ensures fault { IfErr result (λ fault. StopsList (kind_of kind) name.now (S.told store.old name.now)
        (S.faults store.old) (S.faults store.new) (cause_of fault)) }
    ensures kept { S.told store.new ≡ S.told store.old }
{
    let mut bytes = Vec::new(alloc);
    let mut piece = [0; PIECE_LEN];
    let mut judged_at = FIRST_JUDGED;
    loop {
        let n = match store.read_at(name, bytes.len() as u64, &mut piece) {
            Ok(0) => return Ok(bytes),
            Ok(n) => n,
            Err(fault) => return Err(stopped(fault, name)),
        };
        if MAX_LIST_LEN - (bytes.len() as u64) < n as u64 {
            return Err(Fault::Limit);
        }
        if bytes.extend_from_slice(&piece[..n]).is_err() {
            return Err(Fault::Memory);
        }
        if judged_at <= bytes.len() {
            if let Some(fault) = early_fault(alloc, kind, bytes.as_slice()) {
                let from = bytes.len() as u64;
                drop(bytes);
                return match skip_rest(name, from, store) {
                    Ok(()) => Err(fault),
                    Err(other) => Err(other),
                };
            }
            judged_at = bytes.len() * 2;
        }
    }
}
