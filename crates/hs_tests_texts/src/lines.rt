//! The lines that are written, as their tables say them: each table is a list of values and the text of their lines.
//! It is `#[cfg(test)]`.
use hs_base::{Construct, ExprId, Refusal, Report};
use hs_text::{
    LINE_LEN, NAME_LEN, accepted_line, compiled_line, end_line, form_line, info_lines,
    refusal_line, report_line, size_lines,
};
use std::test::Fail;

/// The greatest number of 32 bits.
const MOST_32: u32 = u32::MAX;
/// The greatest number of 64 bits.
const MOST_64: u64 = u64::MAX;

/// Each refusal, with small values.
const REFUSALS: [Refusal; 16] = [
    Refusal::Syntax(1),
    Refusal::UnknownEscape(0),
    Refusal::Unsupported(Construct::Backreference, 3),
    Refusal::UnsupportedFlag(256),
    Refusal::UnsupportedParameter(16),
    Refusal::MatchesEmpty,
    Refusal::EmbeddedEnd,
    Refusal::RepeatLimit(32_768),
    Refusal::PositionLimit(514),
    Refusal::LengthLimit,
    Refusal::DepthLimit,
    Refusal::CountLimit,
    Refusal::StateLimit(16_778_308),
    Refusal::MixedSingle(ExprId(12)),
    Refusal::OffsetOrder,
    Refusal::ListLine(2),
];

/// What stands in their lines, behind `refused`, the entry and the identifier.
const REFUSED: &str = "\
1 Syntax 1|2 UnknownEscape 0|3 Unsupported backreference 3|4 UnsupportedFlag 256|5 UnsupportedParameter 16|\
6 MatchesEmpty|7 EmbeddedEnd|8 RepeatLimit 32768|9 PositionLimit 514|10 LengthLimit|11 DepthLimit|12 CountLimit|\
13 StateLimit 16778308|14 MixedSingle 12|15 OffsetOrder|16 ListLine 2";

/// Each construct.
const CONSTRUCTS: [Construct; 17] = [
    Construct::Backreference,
    Construct::Property,
    Construct::NewlineSequence,
    Construct::AnyByte,
    Construct::Keep,
    Construct::NotNewline,
    Construct::Grapheme,
    Construct::MatchStart,
    Construct::Possessive,
    Construct::Collating,
    Construct::Verb,
    Construct::Lookaround,
    Construct::Atomic,
    Construct::Conditional,
    Construct::Callout,
    Construct::Recursion,
    Construct::Option,
];

/// Their names.
const NAMES: &str = "\
backreference|property|newline_sequence|any_byte|keep|not_newline|grapheme|match_start|possessive|collating|verb|\
lookaround|atomic|conditional|callout|recursion|option";

/// Refusals of no entry and of the last one, with the greatest values.
const WIDEST: [(Option<(u32, ExprId)>, Refusal); 6] = [
    (None, Refusal::ListLine(2)),
    (None, Refusal::ListLine(MOST_64)),
    (
        LAST,
        Refusal::Unsupported(Construct::NewlineSequence, MOST_32),
    ),
    (LAST, Refusal::UnsupportedParameter(MOST_32)),
    (LAST, Refusal::StateLimit(MOST_64)),
    (LAST, Refusal::MixedSingle(ExprId(MOST_32))),
];

const LAST: Option<(u32, ExprId)> = Some((MOST_32, ExprId(MOST_32)));

const WIDEST_REFUSED: &[u8] = b"\
refused - - 16 ListLine 2
refused - - 16 ListLine 18446744073709551615
refused 4294967295 4294967295 3 Unsupported newline_sequence 4294967295
refused 4294967295 4294967295 5 UnsupportedParameter 4294967295
refused 4294967295 4294967295 13 StateLimit 18446744073709551615
refused 4294967295 4294967295 14 MixedSingle 4294967295
";

/// Puts the line of a refusal behind the text.
fn add_refusal(
    text: &mut Vec<u8>,
    entry: Option<(u32, ExprId)>,
    refusal: &Refusal,
) -> Result<(), Fail> {
    let mut buf = [255; LINE_LEN];
    let len = refusal_line(entry, refusal, &mut buf);
    text.extend_from_slice(&buf[..len])?;
    Ok(())
}

#[test]
fn tells_each_refusal(rt: HostRuntime) -> Result<(), Fail> {
    let (mut text, mut wanted) = (Vec::new(rt.alloc()), Vec::new(rt.alloc()));
    for (refusal, row) in REFUSALS.iter().zip(REFUSED.split('|')) {
        add_refusal(&mut text, Some((1, ExprId(11))), refusal)?;
        let line = format!(in rt.alloc(); "refused 1 11 {row}\n")?;
        wanted.extend_from_slice(line.as_bytes())?;
    }
    assert!(rt; text == wanted);
    Ok(())
}

#[test]
fn tells_each_construct(rt: HostRuntime) -> Result<(), Fail> {
    let (mut text, mut wanted) = (Vec::new(rt.alloc()), Vec::new(rt.alloc()));
    for (construct, name) in CONSTRUCTS.iter().zip(NAMES.split('|')) {
        let refusal = Refusal::Unsupported(*construct, 7);
        add_refusal(&mut text, Some((2, ExprId(10))), &refusal)?;
        let line = format!(in rt.alloc(); "refused 2 10 3 Unsupported {name} 7\n")?;
        wanted.extend_from_slice(line.as_bytes())?;
    }
    assert!(rt; text == wanted);
    Ok(())
}

#[test]
fn tells_refusals_with_the_greatest_values(rt: HostRuntime) -> Result<(), Fail> {
    let mut text = Vec::new(rt.alloc());
    for (entry, refusal) in WIDEST {
        add_refusal(&mut text, entry, &refusal)?;
    }
    assert!(rt; text.as_slice() == WIDEST_REFUSED);
    Ok(())
}

/// Lines of reports and of other answers, which tell what they are made of.
const LINES: &str = "1 9|2 0|s 7 1002|t 16 3|4294967295 18446744073709551615|\
abcdefghijklmnopqrstuvwxyz_.-012 4294967295 18446744073709551615|end 0|end 12|end 18446744073709551615|\
accepted 3|compiled 1 38|fault database 18446744073709551615";

/// A number of a line.
fn number_of(word: &str) -> u64 {
    word.parse::<u64>().unwrap_or(0)
}

/// The report of two numbers.
fn report_of(id: &str, to: &str) -> Report {
    Report {
        id: ExprId(id.parse::<u32>().unwrap_or(0)),
        to: number_of(to),
    }
}

/// Makes the line of what a line tells.
fn make_line(line: &str, buf: &mut [u8; LINE_LEN]) -> usize {
    let (first, behind) = line.split_once(' ').unwrap_or((line, ""));
    let (second, third) = behind.split_once(' ').unwrap_or((behind, ""));
    let name = first.as_bytes();
    match first {
        "end" => end_line(number_of(second), buf),
        "accepted" => accepted_line(3, buf),
        "compiled" => compiled_line(1, 38, buf),
        "fault" => form_line(number_of(third), buf),
        _ if third.is_empty() => report_line(None, report_of(first, second), buf),
        _ if name.len() <= NAME_LEN => report_line(Some(name), report_of(second, third), buf),
        _ => 0,
    }
}

#[test]
fn makes_each_line_again(rt: HostRuntime) -> Result<(), Fail> {
    assert!(rt; "abcdefghijklmnopqrstuvwxyz_.-012".len() == NAME_LEN);
    for line in LINES.split('|') {
        let mut buf = [0; LINE_LEN];
        let len = make_line(line, &mut buf);
        let wanted = format!(in rt.alloc(); "{line}\n")?;
        assert!(rt; buf.get(..len) == Some(wanted.as_bytes()), "{line}");
    }
    let mut info = [0; LINE_LEN];
    let len = info_lines(2, 1, &mut info);
    let lines = b"version 1\nexpressions 2\nidentifiers 1\n".as_slice();
    assert!(rt; info.get(..len) == Some(lines));
    let len = size_lines(74, 116, &mut info);
    assert!(rt; info.get(..len) == Some(b"region 74\nstate 116\n".as_slice()));
    Ok(())
}
