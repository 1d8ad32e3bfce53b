//! The loops over the outside: a whole text to a sink, a source to its end, a whole file of a store.
ghost use Rattle.std.specs.Prelude.{◌≡◌, ◌≤◌, IfOk, OnOk, IfErr, OnErr, length};
ghost use Rattle.hs_outside.specs.Sink.{Sends};
ghost use Rattle.hs_outside.specs.Source.{GaveAll, Interrupts};
ghost use Rattle.hs_outside.specs.Store.{IsFile, Prevents};

use crate::{Failed, FileFault, Sink, Source, SourceFault, Store, StoreFault};
use std::alloc::Global;

/// How many bytes of a file or a stream are asked for at once.
pub const PIECE_LEN: usize = 65536;

/// Writes all of `bytes`. A failed sink took a first part of them.
pub fn write_all<O: Sink>(sink: &mut O, bytes: &[u8]) -> Result<(), Failed>
    ensures { Sends result (O.written sink.old) (O.written sink.new) (O.faults sink.old) (O.faults sink.new) bytes.now }
{
    let mut rest = bytes;
    while !rest.is_empty() {
        match sink.write(rest) {
            Ok(n) => rest = &rest[n..],
            Err(Failed) => return Err(Failed),
        }
    }
    Ok(())
}

/// Reads a source to its end, which has to come within `limit` bytes. What a fault ends was taken from the source.
pub fn read_to_end<I: Source>(
    alloc: Global,
    source: &mut I,
    limit: u64,
) -> Result<Vec<u8>, SourceFault>
    ensures whole { IfOk result (λ bytes. GaveAll (I.left source.old) (I.left source.new) limit bytes.items) }
    ensures counted { OnOk result (I.faults source.new ≡ I.faults source.old) }
    ensures fault { IfErr result (λ fault. Interrupts fault (I.left source.old) (I.left source.new) limit
        (I.faults source.old) (I.faults source.new)) }
{
    let mut bytes = Vec::new(alloc);
    let mut piece = [0; PIECE_LEN];
    loop {
        let n = match source.read(&mut piece) {
            Ok(0) => return Ok(bytes),
            Ok(n) => n,
            Err(Failed) => return Err(SourceFault::Failed),
        };
        if limit - (bytes.len() as u64) < n as u64 {
            return Err(SourceFault::Limit);
        }
        if bytes.extend_from_slice(&piece[..n]).is_err() {
            return Err(SourceFault::Memory);
        }
    }
}

/// Reads a whole file, which may have `limit` bytes.
pub fn read_file<S: Store>(
    alloc: Global,
    store: &mut S,
    name: &str,
    limit: u64,
) -> Result<Vec<u8>, FileFault>
    ensures whole { IfOk result (λ bytes. IsFile (S.told store.old name.now) bytes.items) }
    ensures within { IfOk result (λ bytes. length bytes.items ≤ limit) }
    ensures counted { OnOk result (S.faults store.new ≡ S.faults store.old) }
    ensures fault { IfErr result (λ fault. Prevents fault (S.told store.old name.now) limit
        (S.faults store.old) (S.faults store.new)) }
    ensures kept { S.told store.new ≡ S.told store.old }
{
    let mut bytes = Vec::new(alloc);
    let mut piece = [0; PIECE_LEN];
    loop {
        let n = match store.read_at(name, bytes.len() as u64, &mut piece) {
            Ok(0) => return Ok(bytes),
            Ok(n) => n,
            Err(StoreFault::Absent) => return Err(FileFault::Absent),
            Err(StoreFault::Failed) => return Err(FileFault::Failed),
        };
        if limit - (bytes.len() as u64) < n as u64 {
            return Err(FileFault::Limit);
        }
        if bytes.extend_from_slice(&piece[..n]).is_err() {
            return Err(FileFault::Memory);
        }
    }
}
