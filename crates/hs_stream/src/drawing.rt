//! The list and the stream that are drawn from a seed.
ghost use Rattle.std.specs.Prelude.{◌≡◌, ℕ, ◌*◌, ◌++◌, map, IfOk, OnOk};
ghost use Rattle.hs_base.specs.Entries.{listed};
ghost use Rattle.hs_stream.specs.Drawing.{after, stepped, letters, expression, letter_count, entry, entries, bytes};
ghost use Rattle.hs_stream.specs.Drawing.{behind_entry, behind_entries, drawn_entries, drawn_stream, before_lengths};

use crate::generator::Generator;
use hs_base::{Entry, ExprId, Ext, Flags};
use std::alloc::{AllocError, Global};

/// How many bytes of the stream are drawn for each entry of the list.
const BYTES_EACH: usize = 64;

/// What is drawn from a seed.
#[derive(Drop)]
pub struct Drawn {
    /// The entries of the list.
    pub entries: Vec<Entry>,
    /// The bytes of the stream.
    pub bytes: Vec<u8>,
    /// What the lengths of pieces are drawn by.
    pub lengths: Generator,
}

impl Drawn {
    /// What is drawn from the seed for so many entries. The error is want of memory.
    ///
    /// # Cost
    ///
    /// It takes the memory of the entries, and 64 bytes of the stream for each.
    ///
    /// # Examples
    ///
    /// ```
    /// let drawn = Drawn::from_seed(alloc, 1, 1000)?;
    /// let database = compile(alloc, &drawn.entries)?;
    /// ```
    pub fn from_seed(alloc: Global, seed: u32, count: u32) -> Result<Drawn, AllocError>
        ensures entries { IfOk result (λ drawn. map listed drawn.entries.items ≡ drawn_entries seed count) }
        ensures bytes { IfOk result (λ drawn. drawn.bytes.items ≡ drawn_stream seed count) }
        ensures lengths { IfOk result (λ drawn. drawn.lengths.number ≡ before_lengths seed count) }
    {
        let mut generator = Generator::new(seed);
        let entries = draw_entries(alloc, &mut generator, count)?;
        let bytes = draw_bytes(alloc, &mut generator, BYTES_EACH * count as usize)?;
        Ok(Drawn {
            entries,
            bytes,
            lengths: generator,
        })
    }
}

/// So many entries, which are numbered from 1.
fn draw_entries(
    alloc: Global,
    generator: &mut Generator,
    count: u32,
) -> Result<Vec<Entry>, AllocError>
    ensures drawn { IfOk result (λ drawn. map listed drawn.items ≡ entries count generator.old.number) }
    ensures next { OnOk result (generator.new.number ≡ behind_entries count generator.old.number) }
{
    let mut drawn = Vec::with_capacity(alloc, count as usize)?;
    for number in 0..count {
        let entry = draw_entry(alloc, generator, number + 1)?;
        drawn.push(entry)?;
    }
    Ok(drawn)
}

/// An entry with that identifier, without flags and parameters.
fn draw_entry(alloc: Global, generator: &mut Generator, id: u32) -> Result<Entry, AllocError>
    ensures drawn { IfOk result (λ drawn. listed drawn ≡ entry id generator.old.number) }
    ensures next { OnOk result (generator.new.number ≡ behind_entry generator.old.number) }
{
    let made = generator.draw(4);
    let text = draw_expression(alloc, generator, made)?;
    Ok(Entry {
        id: ExprId(id),
        flags: Flags(0),
        ext: Ext::NONE,
        text,
    })
}

/// An expression that is made in that way.
fn draw_expression(
    alloc: Global,
    generator: &mut Generator,
    made: u32,
) -> Result<Vec<u8>, AllocError>
    ensures drawn { IfOk result (λ text. text.items ≡ expression made generator.old.number) }
    ensures next { OnOk result (generator.new.number ≡ after (letter_count made) generator.old.number) }
{
    match made {
        0 => draw_word(alloc, generator, b""),
        1 => draw_two_words(alloc, generator, b".*"),
        2 => draw_word(alloc, generator, b"[0-9]+"),
        _ => draw_two_words(alloc, generator, b"[a-z]{3,9}"),
    }
}

/// Three letters behind these bytes.
fn draw_word(alloc: Global, generator: &mut Generator, before: &[u8]) -> Result<Vec<u8>, AllocError>
    ensures drawn { IfOk result (λ text. text.items ≡ before.now ++ letters generator.old.number) }
    ensures next { generator.new.number ≡ after 3 generator.old.number }
{
    let word = generator.letters();
    let mut text = Vec::new(alloc);
    text.extend_from_slice(before)?;
    text.extend_from_slice(&word)?;
    Ok(text)
}

/// Three letters, these bytes, and three letters more.
fn draw_two_words(
    alloc: Global,
    generator: &mut Generator,
    between: &[u8],
) -> Result<Vec<u8>, AllocError>
    ensures drawn { IfOk result (λ text. text.items ≡ letters generator.old.number ++ between.now ++ letters
        (after 3 generator.old.number)) }
    ensures next { generator.new.number ≡ after 6 generator.old.number }
{
    let first = generator.letters();
    let second = generator.letters();
    let mut text = Vec::new(alloc);
    text.extend_from_slice(&first)?;
    text.extend_from_slice(between)?;
    text.extend_from_slice(&second)?;
    Ok(text)
}

/// So many bytes of a stream.
fn draw_bytes(alloc: Global, generator: &mut Generator, count: usize) -> Result<Vec<u8>, AllocError>
    ensures drawn { IfOk result (λ drawn. drawn.items ≡ bytes count generator.old.number) }
    ensures next { OnOk result (generator.new.number ≡ after count generator.old.number) }
{
    let mut drawn = Vec::with_capacity(alloc, count)?;
    for _place in 0..count {
        drawn.push(generator.byte())?;
    }
    Ok(drawn)
}
