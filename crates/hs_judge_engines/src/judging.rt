//! A row through all that is judged. It is `#[cfg(test)]`.

use crate::chains::split_up;
use crate::engines::{Question, ask_each, automaton_of};
use crate::in_blocks::{InBlocks, judge_in_blocks};
use crate::reading::{expression_of, texts_of};
use crate::spans::Spans;
use crate::verdicts::{Verdict, ensure};
use hs_expr::Expr;
use hs_rows::{Row, Text, rows_of};
use std::alloc::Global;
use std::test::Fail;

/// Compares the spans of an expression's chains with those of the expression.
fn judge_split(alloc: Global, spans: &Spans, expr: &Expr) -> Verdict {
    let Some(split) = split_up(alloc, expr)? else {
        return Ok(());
    };
    let by_chains = Spans::of(alloc, &spans.name, &split, &spans.text)?;
    let what = format_args!("by the chains of {}", spans.name);
    ensure(by_chains.lefts == spans.lefts, what)
}

/// Judges an expression that is entered anywhere in the text, with its engines that take blocks.
fn judge_text(alloc: Global, name: &str, expr: &Expr, text: &[u8], engines: &InBlocks) -> Verdict {
    let spans = Spans::of(alloc, name, expr, text)?;
    ask_each(alloc, Question::Spans(&spans))?;
    judge_in_blocks(alloc, engines, &spans)?;
    judge_split(alloc, &spans, expr)
}

/// Judges an expression that is entered anywhere in each of the texts.
pub(crate) fn judge_expression(alloc: Global, name: &str, expr: &Expr, texts: &[Text]) -> Verdict {
    let engines = InBlocks::of(alloc, expr)?;
    for text in texts {
        judge_text(alloc, name, expr, &text.bytes, &engines)?;
    }
    Ok(())
}

/// Judges each expression of the row.
fn judge_each(alloc: Global, words: &[Vec<u8>], texts: &[Text]) -> Verdict {
    for word in words {
        if word.first() == Some(&b'/') {
            let name = std::str::from_utf8(word)?;
            judge_expression(alloc, name, &expression_of(alloc, word)?, texts)?;
        }
    }
    Ok(())
}

/// Judges whether each engine that takes the row's expression ends behind its texts, as it is wanted.
fn judge_leaves(alloc: Global, word: &[u8], texts: &[Text], wanted: bool) -> Verdict {
    let expr = expression_of(alloc, word)?;
    for text in texts {
        ask_each(alloc, Question::Leaving(&expr, text, wanted))?;
    }
    Ok(())
}

/// How many positions the automaton of the word's expression has, or how many bytes its tables.
fn count_of(alloc: Global, word: &[u8], is_of_tables: bool) -> Result<usize, Fail> {
    let expr = expression_of(alloc, word)?;
    let automaton = automaton_of(alloc, &expr)?.ok_or("no automaton")?;
    if is_of_tables {
        Ok(automaton.tables_len())
    } else {
        Ok(automaton.size())
    }
}

/// Judges how many positions the automaton of the word's expression has, or how many bytes its tables.
fn judge_count(alloc: Global, word: &[u8], is_of_tables: bool, wanted: &[u8]) -> Verdict {
    let count = count_of(alloc, word, is_of_tables)?;
    let found = format!(in alloc; " {count}")?;
    let what = format_args!("{count} in place of {wanted:?}, of {word:?}");
    ensure(found.as_bytes() == wanted, what)
}

/// Judges a row over the texts. Rows of lists are none of this judge's.
fn judge_row(alloc: Global, row: &Row, texts: &[Text]) -> Verdict {
    let words = row.words.as_slice();
    let wanted = row.wanted.as_deref().unwrap_or(b"");
    let word = words.get(1).map_or(b"".as_slice(), |word| word.as_slice());
    match words.first().map(|head| head.as_slice()) {
        Some(b"each") => judge_each(alloc, words, texts),
        Some(b"leaves") => judge_leaves(alloc, word, texts, wanted == b" yes".as_slice()),
        Some(b"positions") => judge_count(alloc, word, false, wanted),
        Some(b"tables") => judge_count(alloc, word, true, wanted),
        _ => Ok(()),
    }
}

/// Judges the rows of a table, each over its own texts, or else those of the last row that is texts alone.
pub(crate) fn judge(alloc: Global, table: &[u8]) -> Verdict {
    let mut shared = Vec::new(alloc);
    for row in &rows_of(alloc, table)? {
        let texts = texts_of(alloc, &row.words)?;
        if texts.len() == row.words.len() && row.wanted.is_none() {
            shared = texts;
        } else if texts.is_empty() {
            judge_row(alloc, row, &shared)?;
        } else {
            judge_row(alloc, row, &texts)?;
        }
    }
    Ok(())
}
