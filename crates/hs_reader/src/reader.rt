//! A script that is read as it comes.
ghost use Rattle.std.specs.Prelude.{◌≡◌, ◌≢◌, ◌+◌, ◌≤◌, true, false, [], length, drop};
ghost use Rattle.std.specs.Prelude.{IfOk, IfErr, MatchBool, MatchOption, MatchResult};
ghost use Rattle.hs_base.specs.Assertions.{line_feed};
ghost use Rattle.hs_base.specs.Lists.{Each};
ghost use Rattle.hs_reader.specs.Reading.{most_taken, IsFeedAt, Consumes, TakesFeed};
ghost use Rattle.hs_reader.specs.Reading.{TakesPart, ReadsLine, IsLineBegun};
ghost use Rattle.hs_reader.specs.Breaks.{ReadCounts, StopsAt};

use crate::fault::Break;
use crate::line::Line;
use hs_base::MAX_OFFSET;
use hs_outside::{Failed, PIECE_LEN, Source};
use memchr::memchr;
use std::marker::Model;

/// The piece of a script that was read last.
#[derive(Drop)]
pub struct Reader {
    piece: [u8; PIECE_LEN],
    /// The place of the first byte that waits.
    from: usize,
    /// The place behind the last one.
    to: usize,
    /// How many bytes of the script stand before those that wait.
    at: u64,
    /// Whether the end of the input was told.
    ended: bool,
}

impl Model for Reader {
    ghost use Rattle.std.specs.Prelude.{◌≡◌, true, ◌≤◌, ◌+◌, ◌-◌, slice_range};
    ghost use Rattle.hs_reader.specs.Reading.{Ahead};

    ghost Value = { Ahead };

    ghost view = { λ reader. record {
      bytes = slice_range reader.piece reader.from reader.to;
      at = reader.at;
      ended = reader.ended;
    } };

    ghost invariant = { λ reader. (reader.from ≤ reader.to) × (reader.to ≤ 65536) ×
        (reader.ended ≡ true → reader.from ≡ reader.to)
        × (reader.at + (reader.to - reader.from) ≤ 9223372036854841343) };
}

impl Reader {
    /// Nothing was read.
    pub fn new() -> Reader
        ensures { result ≡ record { bytes = []; at = 0; ended = false } }
    {
        Reader {
            piece: [0; PIECE_LEN],
            from: 0,
            to: 0,
            at: 0,
            ended: false,
        }
    }

    /// The bytes that wait.
    pub fn waiting(&self) -> &[u8]
        ensures { result.now ≡ self.now.bytes }
    {
        &self.piece[self.from..self.to]
    }

    /// Goes over some of the bytes that wait.
    pub fn advance(&mut self, count: usize)
        requires { count ≤ length self.old.bytes }
        ensures bytes { self.new.bytes ≡ drop count self.old.bytes }
        ensures place { self.new.at ≡ self.old.at + count }
        ensures ended { self.new.ended ≡ self.old.ended }
    {
        self.from += count;
        self.at += count as u64;
    }

    /// Reads on where nothing waits, and tells whether something waits then. If not, the end of the input was told.
    pub fn fill<I: Source>(&mut self, input: &mut I) -> Result<bool, Break>
        ensures consumes { Consumes (I.left input.old) (I.left input.new) self.old self.new [] }
        ensures waits { IfOk result
            (λ more. MatchBool more ((self.new.bytes ≢ []) × (self.new.ended ≡ false)) (self.new.ended ≡ true)) }
        ensures broken { IfErr result (StopsAt self.new) }
        ensures small { self.new.at + length self.new.bytes ≤ most_taken }
        ensures counts { ReadCounts (I.faults input.old) (I.faults input.new) result }
    {
        if self.from < self.to {
            return Ok(true);
        }
        if self.ended {
            return Ok(false);
        }
        self.read(input)
    }

    /// Reads the next piece, where nothing waits.
    fn read<I: Source>(&mut self, input: &mut I) -> Result<bool, Break>
        requires nothing { self.old.bytes ≡ [] }
        requires open_end { self.old.ended ≡ false }
        ensures consumes { Consumes (I.left input.old) (I.left input.new) self.old self.new [] }
        ensures waits { IfOk result
            (λ more. MatchBool more ((self.new.bytes ≢ []) × (self.new.ended ≡ false)) (self.new.ended ≡ true)) }
        ensures broken { IfErr result (StopsAt self.new) }
        ensures small { self.new.at + length self.new.bytes ≤ most_taken }
        ensures counts { ReadCounts (I.faults input.old) (I.faults input.new) result }
    {
        if self.at >= MAX_OFFSET {
            return Err(Break::Limit);
        }
        self.from = 0;
        self.to = 0;
        match input.read(&mut self.piece) {
            Ok(0) => {
                self.ended = true;
                Ok(false)
            }
            Ok(count) => {
                self.to = count;
                Ok(true)
            }
            Err(Failed) => Err(Break::Read),
        }
    }

    /// Reads the next line, of which the first bytes are kept, and tells whether there is one.
    pub fn read_line<I: Source>(&mut self, input: &mut I, line: &mut Line) -> Result<bool, Break>
        ensures read { MatchResult result
            (ReadsLine (I.left input.old) (I.left input.new) self.old self.new line.new)
            (λ _. IsLineBegun (I.left input.old) (I.left input.new) self.old self.new) }
        ensures small { self.new.at ≤ most_taken }
        ensures broken { IfErr result (StopsAt self.new) }
        ensures counts { ReadCounts (I.faults input.old) (I.faults input.new) result }
    {
        line.clear();
        let mut begun = false;
        while self.fill(input)? {
            if self.take_part(line) {
                return Ok(true);
            }
            begun = true;
        }
        Ok(begun)
    }

    /// Goes over the line feed behind a payload, which may be missing at the end of the input. Tells whether no other
    /// byte stands there.
    pub fn take_feed<I: Source>(&mut self, input: &mut I) -> Result<bool, Break>
        ensures taken { MatchResult result
            (TakesFeed (I.left input.old) (I.left input.new) self.old self.new)
            (λ _. Consumes (I.left input.old) (I.left input.new) self.old self.new []) }
        ensures broken { IfErr result (StopsAt self.new) }
        ensures counts { ReadCounts (I.faults input.old) (I.faults input.new) result }
    {
        if !self.fill(input)? {
            return Ok(true);
        }
        let fed = self.waiting()[0] == b'\n';
        self.advance(1);
        Ok(fed)
    }

    /// Goes over the bytes that wait, up to a line feed and over it, or to their end. Tells whether there is a line
    /// feed.
    fn take_part(&mut self, line: &mut Line) -> bool
        ensures { TakesPart self.old self.new line.old line.new result }
    {
        let bytes = self.waiting();
        match line_end(bytes) {
            Some(at) => {
                line.append(&bytes[..at]);
                self.advance(at + 1);
                true
            }
            None => {
                let count = bytes.len();
                line.append(bytes);
                self.advance(count);
                false
            }
        }
    }
}

/// The place of the first line feed.
fn line_end(bytes: &[u8]) -> Option<usize>
    ensures { MatchOption result
        (Each (λ b. b ≢ line_feed) bytes.now)
        (IsFeedAt bytes.now) }
{
    memchr(b'\n', bytes)
}
