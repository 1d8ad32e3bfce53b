//! The files of saved streams: a save puts one, an expansion reads one.
ghost use Rattle.std.specs.Prelude.{◌≡◌, [], ◌∷◌, Some, IfOk, OnOk, OnErr};
ghost use Rattle.hs_outside.specs.Counts.{Rose};
ghost use Rattle.hs_text.specs.Commands.{IsFileName};
ghost use Rattle.hs_script.specs.Actions.{Save, Expand};
ghost use Rattle.hs_tool.specs.OpenStreams.{AreStreamsOf, kept, Performs};
ghost use Rattle.hs_tool.specs.SavedFiles.{KeepsBut};

use super::streams::Streams;
use hs_compile::Database;
use hs_outside::{Failed, FileFault, Store, read_file};
use hs_text::{Reply, Verb, Word};
use std::alloc::Global;

/// The greatest length of a state file, in bytes.
const MAX_STATE_FILE: u64 = 16_777_258;

/// The name of a file as a text.
pub(crate) fn path_of(file: &[u8]) -> &str
    requires { IsFileName file.now }
    ensures { result.now ≡ file.now }
{
    match std::str::from_utf8(file) {
        Ok(path) => path,
        Err(_) => "",
    }
}

/// Puts the state file of the stream of that name, and gives the answer that is due. The error is the store's.
pub(crate) fn save_file<S: Store>(
    alloc: Global,
    db: &Database,
    streams: &Streams,
    store: &mut S,
    name: &[u8],
    file: &str,
) -> Result<Reply, Failed>
    requires fits { AreStreamsOf db.now streams.now }
    ensures performs { IfOk result (λ reply. Performs db.now (kept streams.now (S.told store.old))
        (kept streams.now (S.told store.new)) (Save name.now file.now ∷ [])
        (record { reports = []; reply = Some reply } ∷ [])) }
    ensures files { KeepsBut (λ name. file.now ≡ name) (S.told store.old) (S.told store.new) }
    ensures counted { OnOk result (S.faults store.new ≡ S.faults store.old) }
    ensures failed { OnErr result (Rose (S.faults store.old) (S.faults store.new)) }
{
    let Some(stream) = streams.map.get(name) else {
        return Ok(Reply::No(Verb::Save, Word::Unknown));
    };
    let Ok(bytes) = stream.save(alloc, db) else {
        return Ok(Reply::No(Verb::Save, Word::Memory));
    };
    match store.put(file, bytes.as_slice()) {
        Ok(()) => Ok(Reply::Done(Verb::Save, Some(db.stream_size() as u64))),
        Err(Failed) => Err(Failed),
    }
}

/// Opens a stream of that name that goes on as the one of the state file, and gives the answer that is due. The error
/// is the store's, and changes nothing.
pub(crate) fn expand_file<S: Store>(
    alloc: Global,
    db: &Database,
    streams: &mut Streams,
    store: &mut S,
    name: &[u8],
    file: &str,
) -> Result<Reply, Failed>
    requires fits { AreStreamsOf db.now streams.old }
    ensures fits { AreStreamsOf db.now streams.new }
    ensures performs { IfOk result (λ reply. Performs db.now (kept streams.old (S.told store.old))
        (kept streams.new (S.told store.new)) (Expand name.now file.now ∷ [])
        (record { reports = []; reply = Some reply } ∷ [])) }
    ensures files { S.told store.new ≡ S.told store.old }
    ensures counted { OnOk result (S.faults store.new ≡ S.faults store.old) }
    ensures failed { OnErr result (Rose (S.faults store.old) (S.faults store.new)) }
{
    if let Some(word) = streams.hindrance(name) {
        return Ok(Reply::No(Verb::Expand, word));
    }
    match read_file(alloc, store, file, MAX_STATE_FILE) {
        Ok(bytes) => Ok(streams.expand(alloc, db, name, bytes.as_slice())),
        Err(FileFault::Absent) => Ok(Reply::No(Verb::Expand, Word::Absent)),
        Err(FileFault::Limit) => Ok(Reply::No(Verb::Expand, Word::Form)),
        Err(FileFault::Memory) => Ok(Reply::No(Verb::Expand, Word::Memory)),
        Err(FileFault::Failed) => Err(Failed),
    }
}
