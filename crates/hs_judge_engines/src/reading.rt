//! What the words of a row stand for: texts, and expressions. It is `#[cfg(test)]`.

use crate::verdicts::Verdict;
use hs_base::Entry;
use hs_expr::Expr;
use hs_parse::parse;
use hs_rows::{Text, text_of};
use hs_text::read_list;
use hs_utf8::lower;
use std::alloc::{AllocError, Global};
use std::test::Fail;

/// The length of the longest texts that `<<bytes>>` stands for.
const LONGEST: usize = 4;

/// Adds the text continued by each of the bytes.
fn add_longer(
    alloc: Global,
    alphabet: &[u8],
    text: &[u8],
    texts: &mut Vec<Text>,
) -> Result<(), AllocError> {
    for byte in alphabet {
        let mut bytes = Vec::from_slice(alloc, text)?;
        bytes.push(*byte)?;
        texts.push(Text { bytes, cuts: 0 })?;
    }
    Ok(())
}

/// The bytes of the text of that number, if it is there.
fn text_at(alloc: Global, texts: &[Text], number: usize) -> Result<Option<Vec<u8>>, AllocError> {
    match texts.get(number) {
        Some(text) => Ok(Some(Vec::from_slice(alloc, &text.bytes)?)),
        None => Ok(None),
    }
}

/// Adds each text of at most four of the bytes.
fn add_all(alloc: Global, alphabet: &[u8], texts: &mut Vec<Text>) -> Verdict {
    let first = texts.len();
    texts.push(text_of(alloc, b"")?)?;
    for number in first..1_000 {
        let Some(text) = text_at(alloc, texts, number)? else {
            break;
        };
        if text.len() < LONGEST {
            add_longer(alloc, alphabet, &text, texts)?;
        }
    }
    Ok(())
}

/// The texts among the words.
pub(crate) fn texts_of(alloc: Global, words: &[Vec<u8>]) -> Result<Vec<Text>, Fail> {
    let mut texts = Vec::new(alloc);
    for word in words {
        match word.as_slice() {
            [b'<', b'<', inner @ .., b'>', b'>'] => {
                add_all(alloc, &text_of(alloc, inner)?.bytes, &mut texts)?;
            }
            [b'<', inner @ .., b'>'] => texts.push(text_of(alloc, inner)?)?,
            _ => {}
        }
    }
    Ok(texts)
}

/// The line of a pattern file that has the word, under the identifier 1.
fn line_of(alloc: Global, word: &[u8]) -> Result<Vec<u8>, AllocError> {
    let mut line = Vec::from_slice(alloc, b"1:")?;
    line.extend_from_slice(word)?;
    line.push(b'\n')?;
    Ok(line)
}

/// The expression of an entry, in bytes.
fn lowered(alloc: Global, entry: &Entry) -> Result<Expr, Fail> {
    Ok(lower(alloc, &parse(alloc, &entry.text, entry.flags)?)?)
}

/// The expression of a word, in bytes.
pub(crate) fn expression_of(alloc: Global, word: &[u8]) -> Result<Expr, Fail> {
    let entries = read_list(alloc, &line_of(alloc, word)?)?;
    lowered(alloc, entries.first().ok_or("no expression")?)
}
