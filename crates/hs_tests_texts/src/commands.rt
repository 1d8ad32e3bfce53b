//! The lines of a script, and the lines that answer them, as their tables say them. It is `#[cfg(test)]`.
use hs_text::{
    Command, LINE_LEN, Reply, ScriptFault, Verb, Word, command, reply_line, script_fault_line,
};
use std::test::Fail;

/// Lines that are commands.
const TAKEN: &str = "open s|write u.1 40|write s 0|write s 9223372036854775807|reset -_A9z|\
close 12345678901234567890123456789012|save s f|expand -.u _x-.9|save s 0|\
expand 12345678901234567890123456789012 Z234567890123456789012345678901234567890123456789012345678901234";

/// Lines that are none.
const REFUSED: &str =
    "write s 9223372036854775808|write s 100000000000000000000|write s 00|write s 01|write s -1|\
write s|write s |write s 1 |close 123456789012345678901234567890123|open |open s 0|open s\r|opn s|Open s| open s|\
save s|save s |save  f|save s -f|save s .f|save s f |expand s f g|\
expand s f/g|save 123456789012345678901234567890123 f|\
expand s 12345678901234567890123456789012345678901234567890123456789012345";

/// The command that words tell.
fn told(line: &str) -> Command<'_> {
    let (verb, behind) = line.split_once(' ').unwrap_or((line, ""));
    let (name, count) = behind.split_once(' ').unwrap_or((behind, ""));
    match verb {
        "open" => Command::Open(name.as_bytes()),
        "reset" => Command::Reset(name.as_bytes()),
        "close" => Command::Close(name.as_bytes()),
        "save" => Command::Save(name.as_bytes(), count.as_bytes()),
        "expand" => Command::Expand(name.as_bytes(), count.as_bytes()),
        _ => Command::Write(name.as_bytes(), count.parse::<u64>().unwrap_or(0)),
    }
}

#[test]
fn reads_each_command(rt: HostRuntime) {
    for line in TAKEN.split('|') {
        assert!(rt; command(line.as_bytes()) == Some(told(line)), "{line}");
    }
    for line in REFUSED.split('|') {
        assert!(rt; command(line.as_bytes()).is_none(), "{line}");
    }
}

/// Replies to calls on the stream `u.1`.
const REPLIES: [Reply; 15] = [
    Reply::Done(Verb::Open, None),
    Reply::Done(Verb::Write, Some(9_223_372_036_854_775_807)),
    Reply::Done(Verb::Reset, None),
    Reply::Done(Verb::Close, None),
    Reply::No(Verb::Open, Word::Exists),
    Reply::No(Verb::Open, Word::Full),
    Reply::No(Verb::Open, Word::Memory),
    Reply::No(Verb::Write, Word::Length),
    Reply::No(Verb::Close, Word::Unknown),
    Reply::Done(Verb::Save, Some(116)),
    Reply::Done(Verb::Expand, None),
    Reply::No(Verb::Expand, Word::Absent),
    Reply::No(Verb::Expand, Word::Form),
    Reply::No(Verb::Expand, Word::Version),
    Reply::No(Verb::Expand, Word::Database),
];

/// Their lines.
const REPLY_LINES: &[u8] =
    b"ok open u.1\nok write u.1 9223372036854775807\nok reset u.1\nok close u.1\n\
no open u.1 exists\nno open u.1 full\nno open u.1 memory\nno write u.1 length\nno close u.1 unknown\n\
ok save u.1 116\nok expand u.1\nno expand u.1 absent\nno expand u.1 form\nno expand u.1 version\n\
no expand u.1 database\n";

#[test]
fn makes_each_reply(rt: HostRuntime) -> Result<(), Fail> {
    let mut text = Vec::new(rt.alloc());
    for reply in REPLIES {
        let mut buf = [0; LINE_LEN];
        let len = reply_line(b"u.1", reply, &mut buf);
        text.extend_from_slice(&buf[..len])?;
    }
    assert!(rt; text.as_slice() == REPLY_LINES);
    Ok(())
}

#[test]
fn tells_where_a_script_ends(rt: HostRuntime) -> Result<(), Fail> {
    let table: [(ScriptFault, &[u8]); 2] = [
        (ScriptFault::Script(1), b"fault script 1\n"),
        (ScriptFault::Truncated(2), b"fault truncated 2\n"),
    ];
    for (fault, line) in table {
        let mut buf = [0; LINE_LEN];
        let len = script_fault_line(fault, &mut buf);
        assert!(rt; buf.get(..len) == Some(line));
    }
    Ok(())
}
