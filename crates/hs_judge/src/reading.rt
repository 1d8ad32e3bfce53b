//! What the words of a row stand for: streams, and lines of a pattern file. It is `#[cfg(test)]`.

use crate::cases::Verdict;
use hs_rows::{Text, number_of, text_of};
use std::alloc::{AllocError, Global};
use std::test::Fail;

/// The length of the longest texts that `<<bytes>>` stands for.
const LONGEST: usize = 4;

/// Adds the stream continued by each of the bytes.
fn add_longer(
    alloc: Global,
    alphabet: &[u8],
    stream: &[u8],
    streams: &mut Vec<Text>,
) -> Result<(), AllocError> {
    for byte in alphabet {
        let mut bytes = Vec::from_slice(alloc, stream)?;
        bytes.push(*byte)?;
        streams.push(Text { bytes, cuts: 0 })?;
    }
    Ok(())
}

/// The bytes of the stream of that number, if it is there.
fn stream_at(
    alloc: Global,
    streams: &[Text],
    number: usize,
) -> Result<Option<Vec<u8>>, AllocError> {
    match streams.get(number) {
        Some(stream) => Ok(Some(Vec::from_slice(alloc, &stream.bytes)?)),
        None => Ok(None),
    }
}

/// Adds each text of at most four of the bytes.
fn add_all(alloc: Global, alphabet: &[u8], streams: &mut Vec<Text>) -> Verdict {
    let first = streams.len();
    streams.push(text_of(alloc, b"")?)?;
    for number in first..1_000 {
        let Some(stream) = stream_at(alloc, streams, number)? else {
            break;
        };
        if stream.len() < LONGEST {
            add_longer(alloc, alphabet, &stream, streams)?;
        }
    }
    Ok(())
}

/// The streams among the words.
pub(crate) fn streams_of(alloc: Global, words: &[Vec<u8>]) -> Result<Vec<Text>, Fail> {
    let mut streams = Vec::new(alloc);
    for word in words {
        match word.as_slice() {
            [b'<', b'<', inner @ .., b'>', b'>'] => {
                add_all(alloc, &text_of(alloc, inner)?.bytes, &mut streams)?;
            }
            [b'<', inner @ .., b'>'] => streams.push(text_of(alloc, inner)?)?,
            _ => {}
        }
    }
    Ok(streams)
}

/// Appends the line of an identifier and what stands behind that.
fn write_line(alloc: Global, lines: &mut Vec<u8>, id: u32, parts: [&[u8]; 3]) -> Verdict {
    let shown = format!(in alloc; "{id}")?;
    lines.extend_from_slice(shown.as_bytes())?;
    for part in parts {
        lines.extend_from_slice(part)?;
    }
    lines.push(b'\n')?;
    Ok(())
}

/// What stands before the first such mark of the word, and the rest from there on.
fn halves(word: &[u8], mark: u8) -> Option<(&[u8], &[u8])> {
    let at = word.iter().position(|byte| *byte == mark)?;
    Some((&word[..at], &word[at..]))
}

/// The identifiers that stand before the mark of the word, the first and the last, and what begins with the mark.
fn identifiers(word: &[u8]) -> Option<(u32, u32, &[u8])> {
    let (ids, rest) = halves(word, b':')?;
    match halves(ids, b'-') {
        Some((first, last)) => Some((number_of(first)?, number_of(last.get(1..)?)?, rest)),
        None => {
            let id = number_of(ids)?;
            Some((id, id, rest))
        }
    }
}

/// The lines of a pattern file that the words with identifiers are.
pub(crate) fn lines_of(alloc: Global, words: &[Vec<u8>]) -> Result<Vec<u8>, Fail> {
    let mut lines = Vec::new(alloc);
    for word in words {
        if let Some((first, last, rest)) = identifiers(word) {
            for id in first..=last {
                write_line(alloc, &mut lines, id, [rest, b"", b""])?;
            }
        }
    }
    Ok(lines)
}

/// The lines of the expressions without identifiers: the first one is 100, each other by that step from the one before.
pub(crate) fn numbered(
    alloc: Global,
    words: &[Vec<u8>],
    step: u32,
    flag: &[u8],
) -> Result<Vec<u8>, Fail> {
    let mut lines = Vec::new(alloc);
    let mut id = 100u32;
    for word in words {
        if word.first() == Some(&b'/') {
            write_line(alloc, &mut lines, id, [b":", word, flag])?;
            id = id.wrapping_add(step);
        }
    }
    Ok(lines)
}
