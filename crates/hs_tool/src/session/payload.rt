//! The bytes of a write, as they come.
ghost use Rattle.std.specs.Prelude.{◌≡◌, ◌+◌, ◌<◌, ◌≤◌, take, MatchBool};
ghost use Rattle.hs_base.specs.Offsets.{greatest_offset};
ghost use Rattle.hs_stream.specs.Caches.{IsCacheOf};
ghost use Rattle.hs_stream.specs.Streams.{offset_of, IsStreamOf};
ghost use Rattle.hs_reader.specs.Breaks.{ReadCounts, Counts};
ghost use Rattle.hs_tool.specs.Payloads.{SomeCome, IsPayloadRefused};
ghost use Rattle.hs_tool.specs.Sessions.{IsReady, Keeps, Stays, TakesPayload, WritesPayload, ScansPayload};

use super::streams::Streams;
use crate::piece::write_piece;
use crate::session::Session;
use hs_base::MAX_OFFSET;
use hs_lines::Name;
use hs_outside::{Failed, Sink, Source, Store};
use hs_reader::{Break, Reader};
use hs_stream::Stream;
use hs_text::{Reply, Verb, Word};
use std::sync::ledger::Ledger;

/// What came of a write.
#[derive(Drop)]
pub(crate) struct Payload {
    /// The answer that is due.
    pub(crate) reply: Reply,
    /// Whether all its bytes came.
    pub(crate) whole: bool,
}

impl<S: Store, I: Source, O: Sink, L: Ledger> Session<'_, '_, '_, '_, '_, '_, S, I, O, L> {
    /// Takes so many bytes for the stream of that name, or drops them where it isn't open or would become too long.
    pub(crate) fn take_payload(
        &mut self,
        streams: &mut Streams,
        name: &Name,
        count: u64,
    ) -> Result<Payload, Break>
        requires ready { IsReady self.old streams.old }
        ensures keeps { Keeps self.old self.new streams.new }
        ensures same_files { self.new.store ≡ self.old.store }
        ensures taken { TakesPayload I.left O.written self.old self.new name.now count streams.old streams.new result }
        ensures counts { Counts (I.faults self.old.input.now) (I.faults self.new.input.now)
            (O.faults self.old.out.now) (O.faults self.new.out.now) result }
    {
        match streams.map.get_mut(name.as_slice()) {
            None => refuse_payload(Word::Unknown, count, &mut self.reader, self.input),
            Some(stream) => self.write_payload(stream, name, count),
        }
    }

    /// Writes so many bytes to the stream, or drops them where it would become too long.
    fn write_payload(
        &mut self,
        stream: &mut Stream,
        name: &Name,
        count: u64,
    ) -> Result<Payload, Break>
        requires fits { IsStreamOf self.old.db.now stream.old }
        requires cache { IsCacheOf self.old.db.now self.old.cache.now }
        ensures stays { Stays self.old self.new }
        ensures same_files { self.new.store ≡ self.old.store }
        ensures fits { IsStreamOf self.old.db.now stream.new }
        ensures written { WritesPayload I.left O.written self.old self.new name.now count stream.old stream.new result }
        ensures counts { Counts (I.faults self.old.input.now) (I.faults self.new.input.now)
            (O.faults self.old.out.now) (O.faults self.new.out.now) result }
    {
        if !has_room(stream.offset(self.db), count) {
            return refuse_payload(Word::Length, count, &mut self.reader, self.input);
        }
        match self.scan_payload(stream, name, count) {
            Ok(whole) => Ok(Payload {
                reply: Reply::Done(Verb::Write, Some(count)),
                whole,
            }),
            Err(stop) => Err(stop),
        }
    }

    /// Scans so many bytes as they come, and tells whether all came. The lines of what they report are written, or
    /// wait.
    fn scan_payload(&mut self, stream: &mut Stream, name: &Name, count: u64) -> Result<bool, Break>
        requires fits { IsStreamOf self.old.db.now stream.old }
        requires cache { IsCacheOf self.old.db.now self.old.cache.now }
        requires room { offset_of stream.old + count ≤ greatest_offset }
        ensures stays { Stays self.old self.new }
        ensures same_files { self.new.store ≡ self.old.store }
        ensures fits { IsStreamOf self.old.db.now stream.new }
        ensures scanned { ScansPayload I.left O.written self.old self.new name.now count stream.old stream.new result }
        ensures counts { Counts (I.faults self.old.input.now) (I.faults self.new.input.now)
            (O.faults self.old.out.now) (O.faults self.new.out.now) result }
    {
        let db = self.db;
        let mut left = count;
        while left > 0 {
            match self.reader.fill(self.input) {
                Ok(true) => {}
                Ok(false) => return Ok(false),
                Err(stop) => return Err(stop),
            }
            let bytes = first_of(self.reader.waiting(), left);
            let taken = bytes.len();
            let named = Some(name.copied());
            let scanned = write_piece(
                db,
                &named,
                stream,
                self.cache,
                bytes,
                self.out,
                &mut self.pending,
                self.steps,
            );
            self.reader.advance(taken);
            left -= taken as u64;
            match scanned {
                Ok(()) => {}
                Err(Failed) => return Err(Break::Write),
            }
        }
        Ok(true)
    }
}

/// Drops the bytes of a write that is refused for this reason.
fn refuse_payload<I: Source>(
    word: Word,
    count: u64,
    reader: &mut Reader,
    input: &mut I,
) -> Result<Payload, Break>
    ensures refused { IsPayloadRefused word count (I.left input.old) (I.left input.new) reader.old reader.new result }
    ensures counts { ReadCounts (I.faults input.old) (I.faults input.new) result }
{
    match drop_payload(count, reader, input) {
        Ok(whole) => Ok(Payload {
            reply: Reply::No(Verb::Write, word),
            whole,
        }),
        Err(stop) => Err(stop),
    }
}

/// Whether so many bytes may come at the offset.
fn has_room(offset: u64, count: u64) -> bool
    ensures { MatchBool result (offset + count ≤ greatest_offset) (greatest_offset < offset + count) }
{
    offset <= MAX_OFFSET && count <= MAX_OFFSET - offset
}

/// Drops so many bytes, and tells whether all came.
fn drop_payload<I: Source>(count: u64, reader: &mut Reader, input: &mut I) -> Result<bool, Break>
    ensures come { SomeCome (I.left input.old) (I.left input.new) reader.old reader.new count result }
    ensures counts { ReadCounts (I.faults input.old) (I.faults input.new) result }
{
    let mut left = count;
    while left > 0 {
        if !reader.fill(input)? {
            return Ok(false);
        }
        let taken = first_of(reader.waiting(), left).len();
        reader.advance(taken);
        left -= taken as u64;
    }
    Ok(true)
}

/// The first bytes, so many at most.
fn first_of(bytes: &[u8], most: u64) -> &[u8]
    ensures { result.now ≡ take most bytes.now }
{
    if most >= bytes.len() as u64 {
        bytes
    } else {
        &bytes[..most as usize]
    }
}
