//! The adapters over real files, and over readers and writers that the system could be. It is `#[cfg(test)]`.
use crate::memory::{check_calls, check_reads, check_writes};
use hs_outside::{FolderStore, StdSink, StdSource, Store, write_all};
use std::alloc::{AllocError, Allocator, Global};
use std::fs::{File, Metadata, OpenOptions, Permissions};
use std::io::{Error, ErrorKind, Read, Write};
use std::os::unix::fs::{PermissionsExt, symlink};
use std::process::Abort;
use std::rt::Files;
use std::test::Fail;
use std::{fs, io, process};

/// A file that takes three bytes at a time, or a device of which each call is interrupted.
#[derive(Drop)]
struct Slow(Option<File>);

impl Write for Slow {
    fn write(&mut self, buf: &[u8]) -> io::Result<usize> {
        match &mut self.0 {
            Some(file) => file.write(&buf[..buf.len().min(3)]),
            None => Err(Error::from(ErrorKind::Interrupted)),
        }
    }

    fn flush(&mut self) -> io::Result<()> {
        Ok(())
    }
}

impl Read for Slow {
    fn read(&mut self, _buf: &mut [u8]) -> io::Result<usize> {
        Err(Error::from(ErrorKind::Interrupted))
    }
}

/// The files of the system, of which none can be renamed.
#[derive(Drop)]
struct Stuck<'r>(&'r HostRuntime);

impl Files for Stuck<'_> {
    type File = File;

    type Dir = <HostRuntime as Files>::Dir;

    fn open_file(&self, how: &OpenOptions, path: &str) -> io::Result<File> {
        self.0.open_file(how, path)
    }

    fn open_dir(&self, path: &str) -> io::Result<Self::Dir> {
        self.0.open_dir(path)
    }

    fn metadata(&self, path: &str) -> io::Result<Metadata> {
        self.0.metadata(path)
    }

    fn symlink_metadata(&self, path: &str) -> io::Result<Metadata> {
        self.0.symlink_metadata(path)
    }

    fn copy(&self, from: &str, to: &str) -> io::Result<u64> {
        self.0.copy(from, to)
    }

    fn rename(&self, _from: &str, _to: &str) -> io::Result<()> {
        Err(Error::from(ErrorKind::PermissionDenied))
    }

    fn remove_file(&self, path: &str) -> io::Result<()> {
        self.0.remove_file(path)
    }

    fn create_dir(&self, path: &str) -> io::Result<()> {
        self.0.create_dir(path)
    }

    fn remove_dir(&self, path: &str) -> io::Result<()> {
        self.0.remove_dir(path)
    }

    fn remove_dir_all<B: Allocator>(&self, alloc: B, path: &str) -> io::Result<()> {
        self.0.remove_dir_all(alloc, path)
    }
}

/// Names in the test's folder, with what is done with them, or seen there.
const STEPS: &str = " folder
/long put_long
/file write old
/file set_mode
/.hs_put_000 write another's
/link link_to file
/file put_stuck Look, a bird
/file holds old
/.hs_put_001 is_absent
/file put Look, a bird
/file holds Look, a bird
/file has_mode
/.hs_put_000 holds another's
/.hs_put_001 is_absent
/link put No birds
/link is_link
/link holds No birds
/file holds No birds";

/// A path that no other process takes.
fn path_of(rt: &HostRuntime, end: &str) -> Result<String, AllocError> {
    format!(in rt.alloc(); "/tmp/hs_outside-{}{end}", process::id(rt.process()))
}

/// Puts bytes, and tells whether that was done.
fn is_put(rt: &HostRuntime, path: &str, bytes: &[u8]) -> bool {
    FolderStore::new(rt).put(path, bytes).is_ok()
}

/// Puts bytes where no file can be renamed, and tells whether that was done.
fn is_put_stuck(rt: &HostRuntime, path: &str, bytes: &[u8]) -> bool {
    FolderStore::new(Stuck(rt)).put(path, bytes).is_ok()
}

/// Whether the file has these bytes.
fn holds(rt: &HostRuntime, path: &str, bytes: &[u8]) -> bool {
    match fs::read(rt, path) {
        Ok(found) => found.as_slice() == bytes,
        Err(_) => false,
    }
}

/// Puts five million bytes, and tells whether the file has them.
fn is_put_long(rt: &HostRuntime, path: &str) -> Result<bool, AllocError> {
    let long = vec![in rt.alloc(); b'x'; 5 * 1024 * 1024]?;
    Ok(is_put(rt, path, &long) && holds(rt, path, &long))
}

/// Gives the file the mode 640.
fn set_mode(rt: &HostRuntime, path: &str) -> bool {
    fs::set_permissions(rt, path, Permissions::from_mode(0o640)).is_ok()
}

/// Whether the file has the mode 640.
fn has_mode(rt: &HostRuntime, path: &str) -> bool {
    match fs::metadata(rt, path) {
        Ok(found) => found.permissions().mode() & 0o7777 == 0o640,
        Err(_) => false,
    }
}

/// Whether a symbolic link stands there.
fn is_link(rt: &HostRuntime, path: &str) -> bool {
    match fs::symlink_metadata(rt, path) {
        Ok(found) => found.is_symlink(),
        Err(_) => false,
    }
}

/// Does what a step says, and tells whether all is as it is to be.
fn is_so(rt: &HostRuntime, path: &str, verb: &str, text: &str) -> Result<bool, AllocError> {
    let bytes = text.as_bytes();
    Ok(match verb {
        "folder" => fs::create_dir(rt, path).is_ok(),
        "write" => fs::write(rt, path, bytes).is_ok(),
        "set_mode" => set_mode(rt, path),
        "link_to" => symlink(rt, text, path).is_ok(),
        "put_long" => is_put_long(rt, path)?,
        "put_stuck" => !is_put_stuck(rt, path, bytes),
        "put" => is_put(rt, path, bytes),
        "holds" => holds(rt, path, bytes),
        "has_mode" => has_mode(rt, path),
        "is_link" => is_link(rt, path),
        "is_absent" => matches!(fs::exists(rt, path), Ok(false)),
        _ => false,
    })
}

/// Does a step, and tells whether all is as it is to be.
fn is_step_so(rt: &HostRuntime, folder: &str, step: &str) -> Result<bool, AllocError> {
    let (name, behind) = step.split_once(' ').unwrap_or((step, ""));
    let (verb, text) = behind.split_once(' ').unwrap_or((behind, ""));
    let path = format!(in rt.alloc(); "{folder}{name}")?;
    is_so(rt, path.as_str(), verb, text)
}

#[test]
fn a_put_is_whole_and_keeps_what_it_does_not_replace(rt: HostRuntime) -> Result<(), Fail> {
    let folder = path_of(&rt, "")?;
    for step in STEPS.split('\n') {
        assert!(rt; is_step_so(&rt, folder.as_str(), step)?, "{step}");
    }
    fs::remove_dir_all(&rt, folder.as_str())?;
    Ok(())
}

/// Asserts what a stream into a file takes.
fn check_sink(rt: &impl Abort, file: File) {
    let mut sink = StdSink::new(file);
    check_writes(rt, &mut sink, "Look, =6|a bird=6");
    assert!(rt; sink.flush().is_ok());
}

/// Asserts what a stream out of a file gives.
fn check_source(rt: &impl Abort, file: File, room: usize, rows: &str) {
    check_reads(rt, &mut StdSource::new(file), room, rows);
}

#[test]
fn streams_over_a_device_that_is_interrupted_fail(rt: HostRuntime) {
    check_reads(&rt, &mut StdSource::new(Slow(None)), 4, "!");
    check_writes(&rt, &mut StdSink::new(Slow(None)), "Look=!");
}

/// Asserts that a short write is counted as short, and the rest is written behind it.
fn check_short(rt: &impl Abort, file: File) {
    let mut sink = StdSink::new(Slow(Some(file)));
    check_writes(rt, &mut sink, "Look, =3");
    assert!(rt; write_all(&mut sink, b"k, a bird").is_ok());
}

/// Asserts that bytes are moved into the file and out of it.
fn check_streams(abort: &impl Abort, rt: &HostRuntime, path: &str) -> Result<(), io::Error> {
    check_sink(abort, fs::create(rt, path)?);
    check_source(abort, fs::open(rt, path)?, 16, "Look, a bird|");
    check_source(abort, fs::open(rt, "/tmp")?, 4, "!");
    check_short(abort, fs::create(rt, path)?);
    assert!(abort; holds(rt, path, b"Look, a bird"));
    fs::remove_file(rt, path)
}

#[test]
fn streams_move_the_bytes_of_a_file(rt: HostRuntime) -> Result<(), Fail> {
    let path = path_of(&rt, "-stream")?;
    check_streams(&rt, &rt, path.as_str())?;
    Ok(())
}

/// Calls on a store, with what they give. A star stands for the path of a file.
const CALLS: &str = "*@0=?|*<Look, a bird=|*@6=a bird|*@12=|/tmp/hs_outside-none@12=?|*@0=Look, a |\
    *<No birds, no planes=|*@8=, no pla|*@16=nes|*@1099511627776=|/tmp@0=!|/tmp<=!";

/// The calls on the file of that path.
fn calls_on(alloc: Global, path: &str) -> Result<String, AllocError> {
    let mut calls = String::new(alloc);
    for (number, part) in CALLS.split('*').enumerate() {
        if 0 < number {
            calls.push_str(path)?;
        }
        calls.push_str(part)?;
    }
    Ok(calls)
}

#[test]
fn a_folder_store_reads_what_was_put(rt: HostRuntime) -> Result<(), Fail> {
    let path = path_of(&rt, "-store")?;
    let calls = calls_on(rt.alloc(), path.as_str())?;
    check_calls(&rt, &mut FolderStore::new(&rt), calls.as_str());
    fs::remove_file(&rt, path.as_str())?;
    Ok(())
}

/// So many copies of a part behind what stands before.
fn name_of(alloc: Global, before: &str, part: &str, times: usize) -> Result<String, AllocError> {
    let mut name = String::from_str(alloc, before)?;
    for _copy in 0..times {
        name.push_str(part)?;
    }
    Ok(name)
}

#[test]
fn a_put_that_cannot_be_whole_fails(rt: HostRuntime) -> Result<(), AllocError> {
    // A file's name may have 255 bytes, a path 4,095, and a full device takes none.
    for (before, part, times) in [("/tmp/", "x", 256), ("", "./", 2_050), ("/dev/full", "", 1)] {
        let name = name_of(rt.alloc(), before, part, times)?;
        assert!(rt; !is_put(&rt, name.as_str(), b"Look"), "{before}");
    }
    Ok(())
}
