//! The list of a command, from the file that holds it to what scans it.
ghost use Rattle.std.specs.Prelude.{◌≡◌, map, IfOk, IfErr, OnOk};
ghost use Rattle.hs_base.specs.Entries.{listed};
ghost use Rattle.hs_compile.specs.Answers.{IsCompiled};
ghost use Rattle.hs_compile.specs.Databases.{digest_of};
ghost use Rattle.hs_lists.specs.Causes.{cause_of};
ghost use Rattle.hs_lists.specs.ListKinds.{kind_of};
ghost use Rattle.hs_lists.specs.Accepting.{IsEntryCause};
ghost use Rattle.hs_lists.specs.Endings.{StopsList};
ghost use Rattle.hs_lists.specs.Loading.{IsLoaded, list_digest};

use crate::fault::Fault;
use crate::form::read_entries;
use crate::reading::read_listed;
use hs_base::Entry;
use hs_compile::{CompileFault, Database, compile};
use hs_outside::Store;
use std::alloc::Global;

/// The greatest length of a pattern file or a database file, in bytes.
pub const MAX_LIST_LEN: u64 = 2_147_483_648;

/// What holds a list.
#[derive(Clone, Copy, Debug, PartialEq, Eq)]
pub enum ListKind {
    /// A pattern file.
    Patterns,
    /// A database file.
    Database,
}

/// A list that is accepted.
#[derive(Drop)]
pub struct Loaded {
    /// Its entries, in order.
    pub entries: Vec<Entry>,
    /// What scans them.
    pub database: Database,
}

/// Reads the file `name` and compiles the list that it holds.
pub fn load<'a, S: Store>(
    alloc: Global,
    kind: ListKind,
    name: &'a str,
    store: &mut S,
) -> Result<Loaded, Fault<'a>>
    ensures loaded { IfOk result (IsLoaded (kind_of kind) (S.told store.old name.now)) }
    ensures counted { OnOk result (S.faults store.new ≡ S.faults store.old) }
    ensures fault { IfErr result (λ fault. StopsList (kind_of kind) name.now (S.told store.old name.now)
        (S.faults store.old) (S.faults store.new) (cause_of fault)) }
    ensures kept { S.told store.new ≡ S.told store.old }
{
    let bytes = match read_listed(alloc, kind, name, store) {
        Ok(bytes) => bytes,
        Err(fault) => return Err(fault),
    };
    let entries = match read_entries(alloc, kind, bytes.as_slice()) {
        Ok(entries) => entries,
        Err(fault) => return Err(fault),
    };
    drop(bytes);
    let database = match compile_entries(alloc, entries.as_slice()) {
        Ok(database) => database,
        Err(fault) => return Err(fault),
    };
    Ok(Loaded { entries, database })
}

/// What scans the entries of a list.
fn compile_entries<'a>(alloc: Global, entries: &[Entry]) -> Result<Database, Fault<'a>>
    ensures compiled { IfOk result (IsCompiled (map listed entries.now)) }
    ensures digest { IfOk result (λ database. digest_of database ≡ list_digest (map listed entries.now)) }
    ensures fault { IfErr result (λ fault. IsEntryCause (map listed entries.now) (cause_of fault)) }
{
    match compile(alloc, entries) {
        Ok(database) => Ok(database),
        Err(CompileFault::Refused { entry, id, refusal }) => {
            Err(Fault::Refused(Some((entry, id)), refusal))
        }
        Err(CompileFault::Memory) => Err(Fault::Memory),
    }
}
