//! What the definitions say of a list over streams, as `hs_plain` computes it. It is `#[cfg(test)]`.

use crate::scanning::is_cut;
use hs_base::{Entry, Flags, Report};
use hs_parse::parse;
use hs_plain::{Pattern, match_reports, reports};
use hs_rows::Text;
use hs_text::read_list;
use std::alloc::{AllocError, Global};
use std::fmt::Display;
use std::test::Fail;

/// How a judgement ends: in nothing, or in what differs.
pub(crate) type Verdict = Result<(), Fail>;

/// Fails with the text where that doesn't hold.
pub(crate) fn ensure<D: Display + Drop>(holds: bool, text: D) -> Verdict {
    if holds { Ok(()) } else { Err(Fail::new(text)) }
}

/// The reports of a stream: those that its bytes decide, those that its end decides, and how many are decided by each
/// number of its bytes.
#[derive(Drop)]
pub(crate) struct Answer {
    pub(crate) told: Vec<Report>,
    pub(crate) last: Vec<Report>,
    pub(crate) counts: Vec<usize>,
}

impl Answer {
    /// The reports of the stream as the definitions have them.
    pub(crate) fn of(alloc: Global, patterns: &[Pattern], stream: &[u8]) -> Result<Answer, Fail> {
        let found = match_reports(alloc, patterns, stream)?;
        Ok(Answer {
            told: found.told,
            last: found.last,
            counts: counts_of(alloc, patterns, stream)?,
        })
    }
}

/// How many reports the bytes decide.
fn count_of(alloc: Global, patterns: &[Pattern], bytes: &[u8]) -> Result<usize, AllocError> {
    Ok(reports(alloc, patterns, bytes, false)?.len())
}

/// How many reports each beginning of the stream decides.
fn counts_of(alloc: Global, patterns: &[Pattern], bytes: &[u8]) -> Result<Vec<usize>, AllocError> {
    let mut counts = Vec::new(alloc);
    for len in 0..=bytes.len() {
        counts.push(count_of(alloc, patterns, &bytes[..len])?)?;
    }
    Ok(counts)
}

/// A list over one stream.
#[derive(Drop)]
pub(crate) struct Case {
    /// What a failure is told by.
    pub(crate) name: String,
    /// The bytes, and where the row cuts them.
    pub(crate) stream: Text,
    /// What the definitions say.
    pub(crate) wanted: Answer,
}

impl Case {
    /// The bytes from the one offset to the other.
    pub(crate) fn piece(&self, start: usize, end: usize) -> Result<&[u8], Fail> {
        Ok(self.stream.bytes.get(start..end).ok_or("no such piece")?)
    }

    /// The reports that the first so many bytes decide.
    pub(crate) fn told_behind(&self, len: usize) -> Result<&[Report], Fail> {
        let count = self.wanted.counts.get(len).ok_or("no such offset")?;
        Ok(self.wanted.told.get(..*count).ok_or("no such reports")?)
    }

    /// Fails where the reports aren't those that are wanted.
    pub(crate) fn same(&self, what: &str, found: &[Report], wanted: &[Report]) -> Verdict {
        let (name, is_same) = (self.name.as_str(), found == wanted);
        let text = format_args!("{what}: {found:?} in place of {wanted:?}, of {name}");
        ensure(is_same, text)
    }
}

/// A list, and its cases.
#[derive(Drop)]
pub(crate) struct List {
    pub(crate) entries: Vec<Entry>,
    pub(crate) patterns: Vec<Pattern>,
    pub(crate) cases: Vec<Case>,
}

/// The pattern of an entry, over code points where its expression is: what scans is over bytes.
fn pattern_of(alloc: Global, entry: &Entry) -> Result<Pattern, Fail> {
    Ok(Pattern {
        id: entry.id,
        single: entry.flags.contains(Flags::SINGLEMATCH),
        least: entry.ext.min_offset,
        greatest: entry.ext.max_offset,
        expr: parse(alloc, &entry.text, entry.flags)?,
    })
}

/// The patterns of a list.
pub(crate) fn patterns_of(alloc: Global, entries: &[Entry]) -> Result<Vec<Pattern>, Fail> {
    let mut patterns = Vec::new(alloc);
    for entry in entries {
        patterns.push(pattern_of(alloc, entry)?)?;
    }
    Ok(patterns)
}

impl Case {
    /// The list of these lines over the stream.
    fn of(alloc: Global, lines: &str, patterns: &[Pattern], stream: &Text) -> Result<Case, Fail> {
        let bytes = Vec::from_slice(alloc, &stream.bytes)?;
        let name = format!(in alloc; "{bytes:?} by {lines}")?;
        let wanted = Answer::of(alloc, patterns, &bytes)?;
        let cuts = stream.cuts;
        Ok(Case {
            name,
            stream: Text { bytes, cuts },
            wanted,
        })
    }
}

impl List {
    /// The list that the lines of a pattern file are, over the streams.
    pub(crate) fn of(alloc: Global, lines: &[u8], streams: &[Text]) -> Result<List, Fail> {
        let entries = read_list(alloc, lines)?;
        let patterns = patterns_of(alloc, &entries)?;
        let text = std::str::from_utf8(lines)?;
        let mut cases = Vec::new(alloc);
        for stream in streams {
            cases.push(Case::of(alloc, text, &patterns, stream)?)?;
        }
        Ok(List {
            entries,
            patterns,
            cases,
        })
    }
}

/// Appends the reports.
fn write_reports(text: &mut String, reports: &[Report]) -> Verdict {
    for report in reports {
        let (id, end) = (report.id.0, report.to);
        write!(text, " {id}@{end}")?;
    }
    Ok(())
}

/// Appends the reports that the byte before that offset decides, and its cut.
fn write_told(text: &mut String, case: &Case, shown: usize, len: usize) -> Result<usize, Fail> {
    let told = case.told_behind(len)?;
    write_reports(text, told.get(shown..).ok_or("no such reports")?)?;
    if is_cut(case.stream.cuts, len) {
        text.push_str(" ~")?;
    }
    Ok(told.len())
}

/// The reports that are wanted, as a row has them.
pub(crate) fn written(alloc: Global, case: &Case) -> Result<String, Fail> {
    let mut text = String::new(alloc);
    let wanted = &case.wanted;
    let mut shown = 0;
    for len in 0..wanted.counts.len() {
        shown = write_told(&mut text, case, shown, len)?;
    }
    if !wanted.last.is_empty() {
        text.push_str(" |")?;
        write_reports(&mut text, &wanted.last)?;
    }
    Ok(text)
}
