//! A row through all that is judged. It is `#[cfg(test)]`.

use crate::cases::{Answer, Case, List, Verdict, ensure, written};
use crate::chains;
use crate::reading::{lines_of, numbered, streams_of};
use crate::running::judge_roles;
use crate::streaming::judge_streams;
use hs_base::{Entry, ExprId, Refusal};
use hs_compile::{CompileFault, compile};
use hs_expr::Expr;
use hs_rows::{Row, Text, rows_of};
use hs_text::{LINE_LEN, read_list, refusal_line};
use hs_utf8::lower;
use std::alloc::Global;
use std::test::Fail;

/// Compares the reports of a list's chains with those of the list.
fn judge_chains(alloc: Global, list: &List) -> Verdict {
    let split = chains::in_chains(alloc, &list.entries)?;
    for case in &list.cases {
        let found = Answer::of(alloc, &split, &case.stream.bytes)?;
        case.same("by chains", &found.told, &case.wanted.told)?;
        case.same("by chains, with the end", &found.last, &case.wanted.last)?;
    }
    Ok(())
}

/// Judges a list by everything that reports; one that is mixed isn't compiled.
fn judge_list(alloc: Global, list: &List, is_mixed: bool) -> Verdict {
    judge_chains(alloc, list)?;
    judge_roles(alloc, list)?;
    if is_mixed {
        return Ok(());
    }
    judge_streams(alloc, list)
}

/// Judges an expression as a list of its own.
fn judge_alone(alloc: Global, word: &[Vec<u8>], streams: &[Text]) -> Verdict {
    let list = List::of(alloc, &numbered(alloc, word, 0, b"V")?, streams)?;
    judge_list(alloc, &list, false)
}

/// Judges each expression of the row alone.
fn judge_each(alloc: Global, words: &[Vec<u8>], streams: &[Text]) -> Verdict {
    for at in 0..words.len() {
        if words[at].first() == Some(&b'/') {
            judge_alone(alloc, &words[at..at + 1], streams)?;
        }
    }
    Ok(())
}

/// Judges the expressions of the row as one list, whose identifiers step by that number, with and without `H`.
fn judge_steps(alloc: Global, words: &[Vec<u8>], step: u32, streams: &[Text]) -> Verdict {
    for flag in [b"".as_slice(), b"H".as_slice()] {
        let list = List::of(alloc, &numbered(alloc, words, step, flag)?, streams)?;
        judge_list(alloc, &list, false)?;
    }
    Ok(())
}

/// The first expression without an identifier, in bytes.
fn expression_of(alloc: Global, words: &[Vec<u8>]) -> Result<Expr, Fail> {
    let list = List::of(alloc, &numbered(alloc, words, 1, b"V")?, &[])?;
    let pattern = list.patterns.first().ok_or("no expression")?;
    Ok(lower(alloc, &pattern.expr)?)
}

/// The entry, the identifier and the reason of a list's refusal, if it is refused.
fn refusal_of(alloc: Global, entries: &[Entry]) -> Option<(u32, ExprId, Refusal)> {
    match compile(alloc, entries) {
        Err(CompileFault::Refused { entry, id, refusal }) => Some((entry, id, refusal)),
        _ => None,
    }
}

/// The line of a refusal, behind a blank.
fn line_of(alloc: Global, entry: u32, id: ExprId, refusal: &Refusal) -> Result<String, Fail> {
    let mut buf = [0; LINE_LEN];
    let len = refusal_line(Some((entry, id)), refusal, &mut buf);
    let line = std::str::from_utf8(&buf[..len])?;
    Ok(format!(in alloc; " {}", line.trim_end())?)
}

/// The line of a list's refusal, behind a blank, or nothing where it isn't refused.
fn refusal_in(alloc: Global, lines: &[u8]) -> Result<String, Fail> {
    match refusal_of(alloc, &read_list(alloc, lines)?) {
        Some((entry, id, refusal)) => line_of(alloc, entry, id, &refusal),
        None => Ok(String::new(alloc)),
    }
}

/// What is found of the row's list or expression, as a row has it.
fn found(alloc: Global, head: &[u8], words: &[Vec<u8>]) -> Result<String, Fail> {
    if head == b"refused".as_slice() {
        return refusal_in(alloc, &lines_of(alloc, words)?);
    }
    chains::written(alloc, &expression_of(alloc, words)?)
}

/// Fails where the text isn't the one that is wanted.
fn same(found: &str, wanted: &[u8], words: &[Vec<u8>]) -> Verdict {
    let what = format_args!("{found} isn't wanted of {words:?}");
    ensure(found.as_bytes() == wanted, what)
}

/// Fails where the list has other reports than those that are wanted.
fn same_reports(alloc: Global, list: &List, wanted: &[u8], words: &[Vec<u8>]) -> Verdict {
    for case in &list.cases {
        same(&written(alloc, case)?, wanted, words)?;
    }
    Ok(())
}

/// Judges a list with identifiers: it has these reports, if some are wanted.
fn judge_written(
    alloc: Global,
    words: &[Vec<u8>],
    is_mixed: bool,
    streams: &[Text],
    wanted: Option<&[u8]>,
) -> Verdict {
    let list = List::of(alloc, &lines_of(alloc, words)?, streams)?;
    if let Some(wanted) = wanted {
        same_reports(alloc, &list, wanted, words)?;
    }
    judge_list(alloc, &list, is_mixed)
}

/// Judges the expressions of the row as one list, whose identifiers rise, and fall.
fn judge_varied(alloc: Global, words: &[Vec<u8>], streams: &[Text]) -> Verdict {
    judge_steps(alloc, words, 1, streams)?;
    judge_steps(alloc, words, u32::MAX, streams)
}

/// What the word in front of a row asks.
enum Kind {
    Each,
    Same,
    Vary,
    Found,
    Written,
    /// What `hs_judge_engines` judges.
    OfEngines,
}

impl Kind {
    /// What that word asks.
    fn of(head: &[u8]) -> Kind {
        match head {
            b"each" => Kind::Each,
            b"same" => Kind::Same,
            b"vary" => Kind::Vary,
            b"refused" | b"split" => Kind::Found,
            b"leaves" | b"positions" | b"tables" => Kind::OfEngines,
            _ => Kind::Written,
        }
    }
}

/// Judges a row over the streams.
fn judge_row(alloc: Global, row: &Row, streams: &[Text]) -> Verdict {
    let words = row.words.as_slice();
    let head = words.first().ok_or("a row without words")?.as_slice();
    let wanted = row.wanted.as_deref();
    match Kind::of(head) {
        Kind::Each => judge_each(alloc, words, streams),
        Kind::Same => judge_steps(alloc, words, 0, streams),
        Kind::Vary => judge_varied(alloc, words, streams),
        Kind::Found => same(&found(alloc, head, words)?, wanted.unwrap_or(b""), words),
        Kind::Written => judge_written(alloc, words, head == b"mixed".as_slice(), streams, wanted),
        Kind::OfEngines => Ok(()),
    }
}

/// Judges the rows of a table, each over its own streams, or else those of the last row that is streams alone.
pub(crate) fn judge(alloc: Global, table: &[u8]) -> Verdict {
    let mut shared = Vec::new(alloc);
    for row in &rows_of(alloc, table)? {
        let streams = streams_of(alloc, &row.words)?;
        if streams.len() == row.words.len() && row.wanted.is_none() {
            shared = streams;
        } else if streams.is_empty() {
            judge_row(alloc, row, &shared)?;
        } else {
            judge_row(alloc, row, &streams)?;
        }
    }
    Ok(())
}
