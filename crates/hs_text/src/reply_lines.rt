//! The lines that answer the commands of a script, and the line of a fault of the script.
ghost use Rattle.std.specs.Prelude.{◌≡◌, ℕ, ◌+◌, ◌≤◌, ◌++◌, length, take, drop, codes, decimal};
ghost use Rattle.hs_text.specs.ReplyLines.{verb_text, word_text, number_text, reply_line as line_of_reply};
ghost use Rattle.hs_text.specs.ReplyLines.{fault_line as line_of_fault};
ghost use Rattle.hs_text.specs.declared.line_buffer.TheConstants.{LINE_LEN};
ghost use Rattle.hs_text.specs.declared.report_lines.TheConstants.{NAME_LEN};

use crate::commands::Verb;
use crate::line_buffer::{LINE_LEN, append, append_number};
use crate::report_lines::NAME_LEN;

/// Why a command is refused, by its word.
#[derive(Clone, Copy)]
pub enum Word {
    /// The stream is open already.
    Exists,
    /// The stream isn't open.
    Unknown,
    /// As many streams as may be are open.
    Full,
    /// The stream would become longer than a stream may be.
    Length,
    /// The store has no file of that name.
    Absent,
    /// The file isn't a state file, or its region isn't well formed.
    Form,
    /// The state file has another version.
    Version,
    /// The state file is of another database.
    Database,
    /// Memory ran out.
    Memory,
}

/// The answer to a command.
#[derive(Clone, Copy)]
pub enum Reply {
    /// It was done; the number is the one that its line ends with, if any.
    Done(Verb, Option<u64>),
    /// It was refused, and changed nothing.
    No(Verb, Word),
}

/// Where a script ends that isn't of the form. Command lines are counted from 1.
#[derive(Clone, Copy, Debug, PartialEq, Eq)]
pub enum ScriptFault {
    /// The line isn't a command, or what it writes isn't followed by a line feed.
    Script(u64),
    /// The input ends before all bytes came that the line writes.
    Truncated(u64),
}

/// Makes the line `ok COMMAND N`, with its number behind it where it has one, or `no COMMAND N WORD`. The answer is the
/// line's length; the buffer behind it stays as it was.
pub fn reply_line(name: &[u8], reply: Reply, buf: &mut [u8; LINE_LEN]) -> usize
    requires whole { length buf.old ≡ LINE_LEN }
    requires short { length name.now ≤ NAME_LEN }
    ensures within { result ≤ LINE_LEN }
    ensures text { take result buf.new ≡ line_of_reply name.now reply }
    ensures rest { drop result buf.new ≡ drop result buf.old }
{
    match reply {
        Reply::Done(verb, number) => {
            let len = append(buf, 0, b"ok ");
            let len = append_command(buf, len, verb, name);
            let len = append_count(buf, len, number);
            append(buf, len, b"\n")
        }
        Reply::No(verb, word) => {
            let len = append(buf, 0, b"no ");
            let len = append_command(buf, len, verb, name);
            let len = append(buf, len, b" ");
            let len = append(buf, len, word_bytes(word));
            append(buf, len, b"\n")
        }
    }
}

/// Makes the line `fault script LINE` or `fault truncated LINE`. The answer is the line's length; the buffer behind it
/// stays as it was.
pub fn script_fault_line(fault: ScriptFault, buf: &mut [u8; LINE_LEN]) -> usize
    requires { length buf.old ≡ LINE_LEN }
    ensures within { result ≤ LINE_LEN }
    ensures text { take result buf.new ≡ line_of_fault fault }
    ensures rest { drop result buf.new ≡ drop result buf.old }
{
    match fault {
        ScriptFault::Script(line) => {
            let len = append(buf, 0, b"fault script ");
            let len = append_number(buf, len, line);
            append(buf, len, b"\n")
        }
        ScriptFault::Truncated(line) => {
            let len = append(buf, 0, b"fault truncated ");
            let len = append_number(buf, len, line);
            append(buf, len, b"\n")
        }
    }
}

/// Puts a command's word, a space and the stream's name behind the first `len` bytes.
fn append_command(buf: &mut [u8; LINE_LEN], len: usize, verb: Verb, name: &[u8]) -> usize
    requires whole { length buf.old ≡ LINE_LEN }
    requires short { length name.now ≤ NAME_LEN }
    requires room { len + 39 ≤ LINE_LEN }
    ensures whole { length buf.new ≡ LINE_LEN }
    ensures grows { len ≤ result }
    ensures within { result ≤ len + 39 }
    ensures text { take result buf.new ≡ take len buf.old ++ (verb_text verb ++ codes " " ++ name.now) }
    ensures rest { (k : ℕ) → result ≤ k → drop k buf.new ≡ drop k buf.old }
{
    let len = append(buf, len, verb_bytes(verb));
    let len = append(buf, len, b" ");
    append(buf, len, name)
}

/// Puts a space and the number behind the first `len` bytes, where there is one.
fn append_count(buf: &mut [u8; LINE_LEN], len: usize, number: Option<u64>) -> usize
    requires whole { length buf.old ≡ LINE_LEN }
    requires room { len + 21 ≤ LINE_LEN }
    ensures whole { length buf.new ≡ LINE_LEN }
    ensures grows { len ≤ result }
    ensures within { result ≤ len + 21 }
    ensures text { take result buf.new ≡ take len buf.old ++ number_text number }
    ensures rest { (k : ℕ) → result ≤ k → drop k buf.new ≡ drop k buf.old }
{
    match number {
        None => len,
        Some(number) => {
            let len = append(buf, len, b" ");
            append_number(buf, len, number)
        }
    }
}

/// The word of a command.
pub(crate) fn verb_bytes(verb: Verb) -> &'static [u8]
    ensures text { result.now ≡ verb_text verb }
    ensures short { length result.now ≤ 6 }
{
    match verb {
        Verb::Open => b"open",
        Verb::Write => b"write",
        Verb::Reset => b"reset",
        Verb::Close => b"close",
        Verb::Save => b"save",
        Verb::Expand => b"expand",
    }
}

/// The word of a refusal.
fn word_bytes(word: Word) -> &'static [u8]
    ensures text { result.now ≡ word_text word }
    ensures short { length result.now ≤ 8 }
{
    match word {
        Word::Exists => b"exists",
        Word::Unknown => b"unknown",
        Word::Full => b"full",
        Word::Length => b"length",
        Word::Absent => b"absent",
        Word::Form => b"form",
        Word::Version => b"version",
        Word::Database => b"database",
        Word::Memory => b"memory",
    }
}
