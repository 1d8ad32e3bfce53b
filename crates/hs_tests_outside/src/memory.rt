//! The versions over memory call by call, and the loops over them. It is `#[cfg(test)]`.
ghost use Rattle.hs_outside.specs.Store.{untold};

use hs_outside::{
    Failed, FileFault, MemSink, MemSource, MemStore, Sink, Source, SourceFault, Store, StoreFault,
    SureSink, SureSource, SureStore, read_file, read_to_end, write_all,
};
use std::alloc::{AllocError, Global};
use std::process::Abort;

/// What most tests read and write.
const TEXT: &[u8] = b"Look, a bird";

/// What a read gave: the bytes in front of the buffer, where the rest is still `_`, `!` where it failed, and `?` where
/// the file is absent.
fn given(read: Result<usize, StoreFault>, buf: &[u8]) -> Option<&[u8]> {
    match read {
        Ok(n) if buf.iter().skip(n).all(|byte| *byte == b'_') => buf.get(..n),
        Ok(_) => None,
        Err(StoreFault::Absent) => Some(b"?"),
        Err(StoreFault::Failed) => Some(b"!"),
    }
}

/// Whether a read gives what the row says, into a buffer of so many bytes.
fn is_read_so(source: &mut impl Source, room: usize, row: &str) -> bool {
    let mut buf = *b"________________";
    let read = match source.read(&mut buf[..room.min(16)]) {
        Ok(n) => Ok(n),
        Err(Failed) => Err(StoreFault::Failed),
    };
    given(read, &buf) == Some(row.as_bytes())
}

/// Asserts what these reads give, one after another, into a buffer of so many bytes.
pub(crate) fn check_reads(rt: &impl Abort, source: &mut impl Source, room: usize, rows: &str) {
    for row in rows.split('|') {
        assert!(rt; is_read_so(source, room, row), "{row}");
    }
}

/// Whether a write is answered as the row says: bytes, and how many are taken, or `!` where the sink fails.
fn is_write_so(sink: &mut impl Sink, row: &str) -> bool {
    let (bytes, count) = row.split_once('=').unwrap_or((row, "!"));
    let found = match sink.write(bytes.as_bytes()) {
        Ok(n) => b'0' + (n % 10) as u8,
        Err(Failed) => b'!',
    };
    count.as_bytes() == [found].as_slice()
}

/// Asserts the answers of these writes, one after another.
pub(crate) fn check_writes(rt: &impl Abort, sink: &mut impl Sink, rows: &str) {
    for row in rows.split('|') {
        assert!(rt; is_write_so(sink, row), "{row}");
    }
}

/// The answer of a call: `NAME<BYTES` is a put, which gives nothing, and `NAME@OFFSET` a read.
fn answer(store: &mut impl Store, call: &str, buf: &mut [u8]) -> Result<usize, StoreFault> {
    if let Some((name, bytes)) = call.split_once('<') {
        return match store.put(name, bytes.as_bytes()) {
            Ok(()) => Ok(0),
            Err(Failed) => Err(StoreFault::Failed),
        };
    }
    let (name, offset) = call.split_once('@').unwrap_or((call, ""));
    store.read_at(name, offset.parse::<u64>().unwrap_or(0), buf)
}

/// Whether a call gives what the row says, with a buffer of eight bytes.
fn is_call_so(store: &mut impl Store, row: &str) -> bool {
    let mut buf = *b"________";
    let (call, wanted) = row.split_once('=').unwrap_or((row, ""));
    let read = answer(store, call, &mut buf);
    given(read, &buf) == Some(wanted.as_bytes())
}

/// Asserts what these calls give, one after another, with a buffer of eight bytes.
pub(crate) fn check_calls(rt: &impl Abort, store: &mut impl Store, rows: &str) {
    for row in rows.split('|') {
        assert!(rt; is_call_so(store, row), "{row}");
    }
}

/// Asserts what a source of the text gives by pieces of these lengths, with a buffer of so many bytes.
fn check_source(
    rt: &impl Abort,
    alloc: Global,
    pieces: &[usize],
    fails: &[u64],
    room: usize,
    rows: &str,
) -> Result<(), AllocError> {
    let mut source = MemSource::new(alloc, TEXT, pieces, fails)?;
    check_reads(rt, &mut source, room, rows);
    assert!(rt; source.faults() == fails.len() as u64);
    Ok(())
}

#[test]
fn a_source_gives_pieces_and_fails_at_listed_reads(rt: HostRuntime) -> Result<(), AllocError> {
    let rows = "Lo|!|o|k, |a b|!|ird||";
    check_source(&rt, rt.alloc(), &[2, 0, 3], &[2, 6], 4, rows)?;
    check_source(&rt, rt.alloc(), &[], &[], 9, "Look, a b|ird")
}

#[test]
fn a_sure_source_gives_pieces(rt: HostRuntime) -> Result<(), AllocError> {
    let mut source = SureSource::new(rt.alloc(), TEXT, &[2, 1, 5])?;
    check_reads(&rt, &mut source, 4, "Lo|o|k, a| bir|d||");
    Ok(())
}

#[test]
fn a_sink_takes_what_fits(rt: HostRuntime) -> Result<(), AllocError> {
    let mut sink = MemSink::new(rt.alloc(), 8, &[2])?;
    check_writes(&rt, &mut sink, "Look=4|, a=!|, a bird=4|bird=!|=0");
    assert!(rt; sink.written() == b"Look, a ".as_slice() && sink.faults() == 2);
    Ok(())
}

/// Asserts the answer of a write, and what the sink tells then.
fn check_told(rt: &impl Abort, sink: &mut SureSink, row: &str, written: Option<&[u8]>) {
    check_writes(rt, sink, row);
    assert!(rt; sink.written() == written, "{row}");
}

/// Writes the whole text, and tells whether that was done.
fn is_done(sink: &mut impl Sink, text: &[u8]) -> bool {
    write_all(sink, text).is_ok()
}

#[test]
fn a_sure_sink_tells_until_it_is_full(rt: HostRuntime) -> Result<(), AllocError> {
    let mut sink = SureSink::new(rt.alloc(), 12)?;
    assert!(rt; is_done(&mut sink, b"Look, ") && is_done(&mut sink, b"a bird"));
    check_told(&rt, &mut sink, "=0", Some(TEXT));
    check_told(&rt, &mut sink, "!=1", None);
    check_told(&rt, &mut sink, "=0", None);
    Ok(())
}

/// Asserts what calls on a store give, how many of them fail, and what the file `a` is then.
fn check_store(rt: &impl Abort, mut store: MemStore, rows: &str, faults: u64, left: Option<&[u8]>) {
    check_calls(rt, &mut store, rows);
    assert!(rt; store.faults() == faults, "{rows}");
    assert!(rt; store.file("a") == left, "{rows}");
}

#[test]
fn a_store_keeps_files_within_its_room(rt: HostRuntime) -> Result<(), AllocError> {
    // The third call is listed, then comes a third file, 13 bytes, and 12.
    let rows = "a<Look=|b<bird=|a<!=!|c<=!|a<Look, a=!|a<Look, =|b@0=bird|c@0=?";
    let store = MemStore::new(rt.alloc(), 2, 12, &[3])?;
    check_store(&rt, store, rows, 3, Some(b"Look, "));
    let rows = "a<Look, a bird=|a@8=bird|a@0=!|b@0=?|a@12=|a@18446744073709551615=";
    let store = MemStore::new(rt.alloc(), 1, 99, &[3, 4])?;
    check_store(&rt, store, rows, 1, Some(TEXT));
    Ok(())
}

/// Asserts what a call gives, and whether the store tells its files then.
fn check_call(rt: &impl Abort, store: &mut SureStore, row: &str, is_told: bool) {
    check_calls(rt, store, row);
    assert!(rt; store.is_told() == is_told, "{row}");
}

#[test]
fn a_sure_store_tells_until_it_is_full(rt: HostRuntime) -> Result<(), AllocError> {
    let mut store = SureStore::new(rt.alloc(), 2, 12)?;
    // Twelve bytes are told, and thirteen aren't, nor what comes behind them.
    check_call(&rt, &mut store, "a<Look=|b<bird=|a<Look, =", true);
    check_call(&rt, &mut store, "a<Look, a=", false);
    check_call(&rt, &mut store, "b<!=", false);
    assert!(rt; store.file("a") == Some(b"Look, "));
    check_calls(&rt, &mut store, "b@0=!|a@4=, |c@0=?");
    Ok(())
}

#[test]
fn a_sure_store_has_room_for_so_many_files(rt: HostRuntime) -> Result<(), AllocError> {
    let mut store = SureStore::new(rt.alloc(), 1, 12)?;
    check_call(&rt, &mut store, "a<=|b<=", false);
    Ok(())
}

/// Asserts that a source is read to the end of the text, or to its fault.
fn check_end(
    rt: &impl Abort,
    alloc: Global,
    source: &mut impl Source,
    limit: u64,
    fault: Option<SourceFault>,
) {
    match read_to_end(alloc, source, limit) {
        Ok(bytes) => assert!(rt; fault.is_none() && bytes.as_slice() == TEXT),
        Err(found) => assert!(rt; fault == Some(found), "limit {limit}"),
    }
}

/// Asserts that a source that fails at that read is read to the end of the text, or to its fault.
fn check_ends(
    rt: &impl Abort,
    alloc: Global,
    limit: u64,
    fails: u64,
    fault: Option<SourceFault>,
) -> Result<(), AllocError> {
    let mut source = MemSource::new(alloc, TEXT, &[5], &[fails])?;
    check_end(rt, alloc, &mut source, limit, fault);
    Ok(())
}

#[test]
fn reading_goes_to_the_end_or_the_fault(rt: HostRuntime) -> Result<(), AllocError> {
    check_ends(&rt, rt.alloc(), 12, 0, None)?;
    check_ends(&rt, rt.alloc(), 11, 0, Some(SourceFault::Limit))?;
    check_ends(&rt, rt.alloc(), 12, 3, Some(SourceFault::Failed))?;
    let mut sure = SureSource::new(rt.alloc(), TEXT, &[])?;
    check_end(&rt, rt.alloc(), &mut sure, 12, None);
    Ok(())
}

#[test]
fn writing_goes_to_the_end_or_the_fault(rt: HostRuntime) -> Result<(), AllocError> {
    let mut sink = MemSink::new(rt.alloc(), 14, &[])?;
    assert!(rt; is_done(&mut sink, TEXT) && !is_done(&mut sink, TEXT));
    assert!(rt; sink.written() == b"Look, a birdLo".as_slice());
    Ok(())
}

/// Asserts that a file of the store is the text, or which fault it has.
fn check_file(
    rt: &impl Abort,
    alloc: Global,
    store: &mut MemStore,
    name: &str,
    limit: u64,
    fault: Option<FileFault>,
) {
    match read_file(alloc, store, name, limit) {
        Ok(bytes) => assert!(rt; fault.is_none() && bytes.as_slice() == TEXT),
        Err(found) => assert!(rt; fault == Some(found), "limit {limit}"),
    }
}

#[test]
fn a_file_is_read_whole_within_the_limit(rt: HostRuntime) -> Result<(), AllocError> {
    let alloc = rt.alloc();
    let mut store = MemStore::new(alloc, 1, 99, &[9])?;
    check_calls(&rt, &mut store, "a<Look, a bird=");
    check_file(&rt, alloc, &mut store, "a", 12, None);
    check_file(&rt, alloc, &mut store, "a", 11, Some(FileFault::Limit));
    check_file(&rt, alloc, &mut store, "b", 12, Some(FileFault::Absent));
    check_file(&rt, alloc, &mut store, "a", 12, None);
    check_file(&rt, alloc, &mut store, "a", 12, Some(FileFault::Failed));
    Ok(())
}

/// A store that tells nothing, with a file that is gone after the first read.
#[derive(Drop)]
struct Vanishing {
    is_gone: bool,
}

impl Store for Vanishing {
    ghost told = { λ _ _. untold };

    ghost faults = { λ _. 0 };

    fn read_at(&mut self, _name: &str, _offset: u64, buf: &mut [u8]) -> Result<usize, StoreFault> {
        if self.is_gone || buf.is_empty() {
            return Err(StoreFault::Absent);
        }
        self.is_gone = true;
        buf[0] = b'x';
        Ok(1)
    }

    fn put(&mut self, _name: &str, _bytes: &[u8]) -> Result<(), Failed> {
        Ok(())
    }
}

#[test]
fn a_file_that_goes_while_it_is_read_is_absent(rt: HostRuntime) {
    let read = read_file(rt.alloc(), &mut Vanishing { is_gone: false }, "a", 12);
    assert!(rt; read.err() == Some(FileFault::Absent));
}
