//! What a row says that the program is run on, and what it answers.
ghost use Rattle.std.specs.Prelude.{◌≡◌, ◌==◌, ◌≤◌, [], false, IfOk, OnErr, IsTrue};
ghost use Rattle.std.specs.List.{list_any};

use hs_rows::{number_of, text_of, words_of};
use std::alloc::{AllocError, Global};
use std::test::Fail;

/// How many bytes `out` has room for where no row says less, and each piece of a script at most.
pub const ROOM: usize = 262_144;

/// How many bytes the store has room for: also those of a list that is judged before it is read whole.
pub const STORE_ROOM: usize = 1_200_000;

/// The calls that fail, and the read at which the store lacks its files, counted from 1; 0 is none.
#[derive(Clone, Copy)]
pub struct Faults {
    /// The call on the store.
    pub store: u64,
    /// The call on the source.
    pub source: u64,
    /// The call on `out`.
    pub out: u64,
    /// The call on `err`.
    pub err: u64,
    /// The read at which the store lacks its files.
    pub gone: u64,
}

/// No call fails.
pub const NO_FAULTS: Faults = Faults {
    store: 0,
    source: 0,
    out: 0,
    err: 0,
    gone: 0,
};

/// What fails in turn, and what is written to `err` then.
pub const PARTS: [(&str, &str); 3] = [
    ("store", "fault store\n"),
    ("source", "fault read\n"),
    ("out", "fault write\n"),
];

/// What the program is run on.
#[derive(Drop)]
pub struct Setting {
    /// The words of the commands, over the same store and streams.
    pub commands: Vec<Vec<String>>,
    /// The file `p`, where it is there. The store's first calls put the files.
    pub patterns: Option<Vec<u8>>,
    /// The file `f`, where it is there.
    pub file: Option<Vec<u8>>,
    /// The file `d`, where it is there.
    pub database: Option<Vec<u8>>,
    /// What standard input holds.
    pub script: Vec<u8>,
    /// The script opens each stream of a name of two letters first.
    pub opens_all: bool,
    /// For each run of the commands the length of the pieces in which the script comes.
    pub pieces: Vec<usize>,
    /// How many bytes `out` has room for.
    pub room: usize,
    /// The calls that fail.
    pub faults: Faults,
    /// Each call on the store, the source and `out` fails in turn, too.
    pub fails_each: bool,
}

/// What the program answers.
#[derive(Drop)]
pub struct Answer {
    /// The status of the last command.
    pub status: u32,
    /// What was written to `out`.
    pub out: Vec<u8>,
    /// A call failed, so that a beginning of that may have been written.
    pub is_cut: bool,
    /// What was written to `err`.
    pub err: Vec<u8>,
    /// The file `d` that is left, empty where there is none; none where that isn't asked for.
    pub left: Option<Vec<u8>>,
}

/// The bytes of a word `<text>`, or none of the word `-`.
fn file_of(alloc: Global, word: &[u8]) -> Result<Option<Vec<u8>>, Fail> {
    match word {
        [b'<', written @ .., b'>'] => Ok(Some(text_of(alloc, written)?.bytes)),
        [b'-'] => Ok(None),
        _ => Err("no text in a row".into()),
    }
}

/// The bytes of a word `<text>`, none where it is `-`.
fn bytes_of(alloc: Global, word: &[u8]) -> Result<Vec<u8>, Fail> {
    Ok(file_of(alloc, word)?.unwrap_or(Vec::new(alloc)))
}

/// The words of a command.
fn command_of(alloc: Global, line: &str) -> Result<Vec<String>, Fail> {
    let mut words = Vec::new(alloc);
    for word in words_of(alloc, line.as_bytes())? {
        words.push(String::from_utf8(word)?)?;
    }
    Ok(words)
}

/// The commands of a word `<text>`, one a line of it.
fn commands_of(alloc: Global, word: &[u8]) -> Result<Vec<Vec<String>>, Fail> {
    let text = bytes_of(alloc, word)?;
    let mut commands = Vec::new(alloc);
    for line in std::str::from_utf8(&text)?.split('\n') {
        commands.push(command_of(alloc, line)?)?;
    }
    Ok(commands)
}

/// The number that a word is.
fn number_in(word: &[u8]) -> Result<u32, Fail> {
    Ok(number_of(word).ok_or("no number in a row")?)
}

/// The numbers that a word has between commas.
fn numbers_in(alloc: Global, word: &[u8]) -> Result<Vec<usize>, Fail> {
    let mut numbers = Vec::new(alloc);
    for digits in std::str::from_utf8(word)?.split(',') {
        numbers.push(number_in(digits.as_bytes())? as usize)?;
    }
    Ok(numbers)
}

impl Setting {
    /// No command, over no files and an empty script.
    pub fn new(alloc: Global) -> Result<Setting, AllocError>
        ensures { IfOk result (λ setting. setting.fails_each ≡ false) }
    {
        Ok(Setting {
            commands: Vec::new(alloc),
            patterns: None,
            file: None,
            database: None,
            script: Vec::new(alloc),
            opens_all: false,
            pieces: Vec::from_slice(alloc, &[ROOM])?,
            room: ROOM,
            faults: NO_FAULTS,
            fails_each: false,
        })
    }

    /// How many calls put the files.
    pub fn puts(&self) -> u64
        ensures { result ≤ 3 }
    {
        u64::from(self.patterns.is_some())
            + u64::from(self.file.is_some())
            + u64::from(self.database.is_some())
    }

    /// Takes the fields of a row, if it has some.
    pub fn take(&mut self, alloc: Global, words: &[Vec<u8>]) -> Result<(), Fail>
        ensures { words.now ≡ [] → self.new ≡ self.old }
    {
        if words.is_empty() {
            return Ok(());
        }
        self.take_all(alloc, words)
    }

    /// Takes the fields of a row.
    fn take_all(&mut self, alloc: Global, words: &[Vec<u8>]) -> Result<(), Fail> {
        for pair in words.chunks(2) {
            match pair {
                [name, value] => self.set(alloc, name, value)?,
                _ => return Err("a field without a value".into()),
            }
        }
        Ok(())
    }

    /// Takes a field of a row.
    fn set(&mut self, alloc: Global, name: &[u8], value: &[u8]) -> Result<(), Fail> {
        match name {
            b"run" => self.commands = commands_of(alloc, value)?,
            b"in" => self.script = bytes_of(alloc, value)?,
            b"p" | b"f" | b"d" => self.set_file(name, file_of(alloc, value)?),
            b"pieces" => self.pieces = numbers_in(alloc, value)?,
            b"opens" => self.opens_all = true,
            b"fails" => self.fails_each = true,
            b"room" => self.room = number_in(value)? as usize,
            _ => return self.faults.set(name, u64::from(number_in(value)?)),
        }
        Ok(())
    }

    /// Takes a file.
    fn set_file(&mut self, name: &[u8], file: Option<Vec<u8>>) {
        match name {
            b"p" => self.patterns = file,
            b"f" => self.file = file,
            _ => self.database = file,
        }
    }
}

impl Faults {
    /// Takes the call that fails of that name.
    pub fn set(&mut self, name: &[u8], call: u64) -> Result<(), Fail>
        ensures { OnErr result (self.new ≡ self.old) }
    {
        match name {
            b"store" => self.store = call,
            b"source" => self.source = call,
            b"out" => self.out = call,
            b"err" => self.err = call,
            b"gone" => self.gone = call,
            _ => return Err("no such field".into()),
        }
        Ok(())
    }
}

impl Answer {
    /// Whether this answer, which is wanted, is the one that was found.
    pub fn is_met_by(&self, found: &Answer) -> bool
        ensures { IsTrue result → found.now.status ≡ self.now.status }
    {
        if found.status != self.status {
            return false;
        }
        self.out.starts_with(&found.out)
            && (self.is_cut || found.out == self.out)
            && found.err == self.err
            && (self.left.is_none() || found.left == self.left)
    }

    /// Whether the answer that was found is a beginning of this one, broken off by a fault of that line.
    pub fn is_cut_short(&self, found: &Answer, line: &[u8]) -> bool
        ensures { IsTrue result → found.now.status ≡ 3 }
    {
        if found.status != 3 {
            return false;
        }
        self.out.starts_with(&found.out) && found.err.as_slice() == line
    }
}

/// The bytes of the word of that number.
fn text_at(alloc: Global, words: &[Vec<u8>], number: usize) -> Result<Option<Vec<u8>>, Fail> {
    match words.get(number) {
        Some(word) => file_of(alloc, word),
        None => Ok(None),
    }
}

/// What a row wants.
pub fn wanted_of(alloc: Global, written: &[u8]) -> Result<Answer, Fail>
    ensures { IfOk result (λ answer. answer.is_cut ≡ list_any (λ byte. byte == 126) written.now) }
{
    let is_cut = written.contains(&b'~');
    let words = words_of(alloc, written)?;
    let status = words.first().ok_or("no status in a row")?;
    Ok(Answer {
        status: number_in(status)?,
        out: text_at(alloc, &words, 1)?.unwrap_or(Vec::new(alloc)),
        is_cut,
        err: text_at(alloc, &words, 2)?.unwrap_or(Vec::new(alloc)),
        left: text_at(alloc, &words, 3)?,
    })
}
