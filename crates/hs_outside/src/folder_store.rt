//! A store over real files, named by their paths. What a regular file holds is changed at once, by a file beside it
//! that takes its place.
ghost use Rattle.std.specs.Prelude.{◌≡◌};
ghost use Rattle.hs_outside.specs.Store.{untold};

use crate::chunk::Chunk;
use crate::fault::raise;
use crate::{Failed, StdSink, Store, StoreFault, write_all};
use std::fs::{Metadata, OpenFile, OpenOptions};
use std::io::{ErrorKind, Seek, SeekFrom, Write};
use std::marker::Model;
use std::rt::Files;
use std::{fs, str};

/// The longest name, in bytes, of a file that stays open between two reads.
const NAME_LEN: usize = 4096;

/// The most bytes of the path of a file that is made beside another one.
const PATH_LEN: usize = 4096;

/// What the name of such a file begins with. A number of three digits follows.
const PREFIX: &[u8; 8] = b".hs_put_";

/// How many numbers are tried.
const NUMBERS: u16 = 1000;

/// The file that was read last. A read of it that begins where that one ended needs no opening.
#[derive(Drop)]
struct LastRead<T> {
    file: T,
    // The first `name_len` bytes, where there are so many. A longer name isn't kept, and fits none.
    name: [u8; NAME_LEN],
    name_len: usize,
    // The offset, in bytes, at which the file stands.
    end: u64,
}

/// A store over files, whose names are paths from the current folder. It tells nothing of their contents, and counts
/// each error but that a file isn't there.
#[derive(Drop)]
pub struct FolderStore<F: Files> {
    files: F,
    faults: u64,
    chunk: Chunk,
    last: Option<LastRead<F::File>>,
}

impl<F: Files> Model for FolderStore<F> {
    ghost use Rattle.std.specs.Prelude.{ℕ};

    ghost Value = { ℕ };

    ghost view = { λ store. store.faults };
}

impl<F: Files> FolderStore<F> {
    /// A store that has not failed yet.
    pub fn new(files: F) -> Self
        ensures { result ≡ 0 }
    {
        FolderStore {
            files,
            faults: 0,
            chunk: Chunk::new(),
            last: None,
        }
    }
}

impl<F: Files> Store for FolderStore<F> {
    ghost told = { λ _ _. untold };

    ghost faults = { λ store. store };

    fn read_at(&mut self, name: &str, offset: u64, buf: &mut [u8]) -> Result<usize, StoreFault> {
        let mut last = match reopen(&self.files, self.last.take(), name, offset) {
            Ok(last) => last,
            Err(StoreFault::Absent) => return Err(StoreFault::Absent),
            Err(StoreFault::Failed) => {
                self.faults = raise(self.faults);
                return Err(StoreFault::Failed);
            }
        };
        match self.chunk.read(&mut last.file, buf) {
            Ok(n) => {
                last.end = offset.saturating_add(n as u64);
                self.last = Some(last);
                Ok(n)
            }
            Err(Failed) => {
                self.faults = raise(self.faults);
                Err(StoreFault::Failed)
            }
        }
    }

    fn put(&mut self, name: &str, bytes: &[u8]) -> Result<(), Failed> {
        self.last = None;
        let answer = put_file(&self.files, name, bytes);
        if answer.is_err() {
            self.faults = raise(self.faults);
        }
        answer
    }
}

impl<T> LastRead<T> {
    /// Whether a read of this file from this offset goes on where the last one ended.
    fn goes_on(&self, name: &[u8], offset: u64) -> bool {
        offset == self.end && self.name.get(..self.name_len) == Some(name)
    }
}

/// The file at the offset: the last one, if the read goes on there, or else opened anew.
fn reopen<F: Files>(
    files: &F,
    last: Option<LastRead<F::File>>,
    name: &str,
    offset: u64,
) -> Result<LastRead<F::File>, StoreFault> {
    match last {
        Some(last) if offset > 0 && last.goes_on(name.as_bytes(), offset) => Ok(last),
        Some(_) | None => open_at(files, name, offset),
    }
}

/// Opens a file and goes to the offset.
fn open_at<F: Files>(files: &F, name: &str, offset: u64) -> Result<LastRead<F::File>, StoreFault> {
    let mut file = match fs::open(files, name) {
        Ok(file) => file,
        Err(error) if error.kind() == ErrorKind::NotFound => return Err(StoreFault::Absent),
        Err(_) => return Err(StoreFault::Failed),
    };
    if offset > 0 && file.seek(SeekFrom::Start(offset)).is_err() {
        return Err(StoreFault::Failed);
    }
    let bytes = name.as_bytes();
    let mut kept = [0; NAME_LEN];
    let name_len = bytes.len();
    if name_len <= NAME_LEN {
        kept[..name_len].copy_from_slice(bytes);
    }
    Ok(LastRead {
        file,
        name: kept,
        name_len,
        end: offset,
    })
}

/// Makes `bytes` the whole of the file `name`. A regular file, and one that isn't there, is replaced by a new file that
/// was made beside it, so it has its old bytes or the new ones, and never only some. What else has the name, as a
/// device, a pipe or a link, is written through.
fn put_file<F: Files>(files: &F, name: &str, bytes: &[u8]) -> Result<(), Failed> {
    match fs::symlink_metadata(files, name) {
        Ok(there) if there.is_file() => replace(files, name, bytes, Some(&there)),
        Ok(_) => write_through(files, name, bytes),
        Err(error) if error.kind() == ErrorKind::NotFound => replace(files, name, bytes, None),
        Err(_) => Err(Failed),
    }
}

/// Opens what has the name, and writes to it.
fn write_through<F: Files>(files: &F, name: &str, bytes: &[u8]) -> Result<(), Failed> {
    match fs::create(files, name) {
        Ok(file) => write_all(&mut StdSink::new(file), bytes),
        Err(_) => Err(Failed),
    }
}

/// Makes a file beside the name, which then takes its place, and which goes where anything fails. A file that is there
/// is replaced only where it could be written, and its permissions stay.
fn replace<F: Files>(
    files: &F,
    name: &str,
    bytes: &[u8],
    there: Option<&Metadata>,
) -> Result<(), Failed> {
    let can_write = OpenOptions::new().write(true).open(files, name).is_ok();
    if there.is_some() && !can_write {
        return Err(Failed);
    }
    let (beside, file) = make_beside(files, name)?;
    let path = beside.path()?;
    let done = match fill(file, bytes, there) {
        Ok(()) => fs::rename(files, path, name).is_ok(),
        Err(Failed) => false,
    };
    if !done {
        let _ = fs::remove_file(files, path);
        return Err(Failed);
    }
    Ok(())
}

/// Gives a new file its permissions, then its bytes, down to the disk.
fn fill<T: OpenFile + Write + Drop>(
    mut file: T,
    bytes: &[u8],
    there: Option<&Metadata>,
) -> Result<(), Failed> {
    if let Some(there) = there {
        if file.set_permissions(there.permissions()).is_err() {
            return Err(Failed);
        }
    }
    write_all(&mut StdSink::new(&mut file), bytes)?;
    match file.sync_all() {
        Ok(()) => Ok(()),
        Err(_) => Err(Failed),
    }
}

/// Makes a file in the folder of the name, by the first number under which there is none.
fn make_beside<F: Files>(files: &F, name: &str) -> Result<(Beside, F::File), Failed> {
    for number in 0..NUMBERS {
        let beside = Beside::new(name, number)?;
        let made = OpenOptions::new()
            .write(true)
            .create_new(true)
            .open(files, beside.path()?);
        match made {
            Ok(file) => return Ok((beside, file)),
            Err(error) if error.kind() == ErrorKind::AlreadyExists => {}
            Err(_) => return Err(Failed),
        }
    }
    Err(Failed)
}

/// The path of a file beside another one. It takes no memory.
#[derive(Drop)]
struct Beside {
    bytes: [u8; PATH_LEN],
    len: usize,
}

impl Beside {
    /// The path of this number in the folder of the name. There is none where it would be too long.
    fn new(name: &str, number: u16) -> Result<Self, Failed> {
        let folder = match name.rsplit_once('/') {
            Some((folder, _)) => folder.as_bytes(),
            None => b".",
        };
        if PATH_LEN - 16 < folder.len() {
            return Err(Failed);
        }
        let digits = [number / 100, number / 10, number].map(|n| b'0' + (n % 10) as u8);
        let mut bytes = [0; PATH_LEN];
        let (prefix, number) = (folder.len() + 1, folder.len() + 9);
        bytes[..folder.len()].copy_from_slice(folder);
        bytes[folder.len()] = b'/';
        bytes[prefix..number].copy_from_slice(PREFIX);
        bytes[number..number + 3].copy_from_slice(&digits);
        Ok(Beside {
            bytes,
            len: number + 3,
        })
    }

    /// The path as text.
    fn path(&self) -> Result<&str, Failed> {
        match self.bytes.get(..self.len) {
            Some(bytes) => str::from_utf8(bytes).map_err(|_| Failed),
            None => Err(Failed),
        }
    }
}
