//! Pattern files, whole and with a bad line, as their tables say them. It is `#[cfg(test)]`.
use hs_base::{Entry, Ext};
use hs_text::{ListFault, read_list};
use std::alloc::{AllocError, Global};
use std::process::Abort;
use std::test::Fail;

/// Files and their entries: a tilde behind a file, a bar behind its entries, and an ampersand behind each of them: its
/// identifier, flags, the bits and offsets of parameters where there are some, a colon and the expression.
const LISTS: &[u8] = b"\
1:/foo.*bar/~1,0:foo.*bar&|1:/foo/\n~1,0:foo&|1:/foo/\r\n~1,0:foo&|1:/foo/\r~1,0:foo&|1://~1,0:&|0:/a/~0,0:a&|\
4294967295:/a/~4294967295,0:a&|0001:/a/~1,0:a&|0000000000:/a/~0,0:a&|1:/a/b/~1,0:a/b&|1:///~1,0:/&|\
1:/a/i/~1,0:a/i&|1:/a/i/i~1,1:a/i&|1:/a:/b/~1,0:a:/b&|1:/a{3}/~1,0:a{3}&|1:/a{/s{max_offset=3}~1,2,2,0,3:a{&|\
1:/#/~1,0:#&|1:/a /~1,0:a &|1:/\x00\xff\x80/~1,0:\x00\xff\x80&|1:/a\rb/~1,0:a\rb&|1:/a/\r2:/b/\n~1,0:a/\r2:/b&|\
1:/a/ismHV8WPLCQ~1,2047:a&|1:/a/QCLPW8VHmsi~1,2047:a&|1:/a/iiii~1,1:a&|1:/a/sis~1,3:a&|25:/a/L~25,256:a&|\
6:/foo.*bar/{min_offset=10,max_offset=15}~6,0,3,10,15:foo.*bar&|6:/a/{max_offset=15,min_offset=10}~6,0,3,10,15:a&|\
1:/a/{min_offset=007}~1,0,1,7,18446744073709551615:a&|1:/a/{min_offset=0}~1,0,1,0,18446744073709551615:a&|\
1:/a/{min_length=5}~1,0,4,0,18446744073709551615:a&|1:/a/{edit_distance=1}~1,0,8,0,18446744073709551615:a&|\
1:/a/8{hamming_distance=1}~1,32,16,0,18446744073709551615:a&|\
1:/a/i{hamming_distance=1,edit_distance=2,min_length=3,max_offset=4,min_offset=5}~1,1,31,5,4:a&|\
1:/a/{max_offset=18446744073709551615}~1,0,2,0,18446744073709551615:a&|\
1:/a/{min_offset=00000000000000000001}~1,0,1,1,18446744073709551615:a&|\
1:/a/b/m{min_length=3}\r\n~1,4,4,0,18446744073709551615:a/b&|~|\n~|\r~|\r\n~|#~|#\xff\x00\r\n\n\n~|#1:/a/~|\
1:/a/\n2:/b/~1,0:a&2,0:b&|2:/a/\n1:/b/\n~2,0:a&1,0:b&|1:/a/\n\n#\n\r\n1:/a/\r\n7:/b/i\r~1,0:a&1,0:a&7,1:b&|\
\n#x\n5:/a/\n\n\n~5,0:a&|1:/a/\n2:/#b/\n#3:/c/\n4:/d/~1,0:a&2,0:#b&4,0:d&|";

/// Files that are no lists, a tilde, the number of their first bad line, and a bar.
const BAD_LINES: &[u8] = b"\
#x\nx:/a/~2|a~1| ~1| #~1| 1:/a/~1|:/a/~1|+1:/a/~1|1/a/~1|1:a/~1|1:/a~1|1:/~1|1:~1|1~1|1: /a/~1|1 :/a/~1|\
4294967296:/a/~1|9999999999:/a/~1|00000000001:/a/~1|1:/a/x~1|1:/a/I~1|1:/a/9~1|1:/a/i ~1|1:/a/\r\r~1|\r\r~1|\r#~1|\
1:/a/\x00~1|1:/a/\xff~1|1:/a/{}~1|1:/a/{~1|1:/a/}~1|1:/a/{min_offset=1~1|1:/a/{min_offset=1}i~1|\
1:/a/{min_offset=1}}~1|1:/a/{{min_offset=1}~1|1:/a/{min_offset=1}{max_offset=2}~1|1:/a/{min_offset}~1|\
1:/a/{min_offset=}~1|1:/a/{=1}~1|1:/a/{min_offset=1,}~1|1:/a/{,min_offset=1}~1|\
1:/a/{min_offset=1,,max_offset=2}~1|1:/a/{min_offset=1, max_offset=2}~1|1:/a/{min_offset=1,min_offset=1}~1|\
1:/a/{min_length=1,max_offset=2,min_length=1}~1|1:/a/{minoffset=1}~1|1:/a/{Min_offset=1}~1|1:/a/{min_offset=-1}~1|\
1:/a/{min_offset=1/2}~1|1:/a/{max_offset=18446744073709551616}~1|1:/a/{max_offset=99999999999999999999}~1|\
1:/a/{max_offset=000000000000000000001}~1|1:/a/\nb~2|1:/a/\n\n#\n\r\nb\nc~5|\n\nx\n1:/a/~3|1:/a/\r\n2:/b\n3:/c/~2|\
1:/a\n/~1|";

/// Appends an entry, as it stands in a table.
fn write_entry(alloc: Global, out: &mut Vec<u8>, entry: &Entry) -> Result<(), AllocError> {
    let head = format!(in alloc; "{},{}", entry.id.0, entry.flags.0)?;
    out.extend_from_slice(head.as_bytes())?;
    if entry.ext != Ext::NONE {
        let ext = &entry.ext;
        let given = format!(in alloc; ",{},{},{}", ext.bits, ext.min_offset, ext.max_offset)?;
        out.extend_from_slice(given.as_bytes())?;
    }
    out.push(b':')?;
    out.extend_from_slice(&entry.text)?;
    out.push(b'&')?;
    Ok(())
}

/// What a file is read as: its entries, or the number of its first bad line.
fn read(alloc: Global, file: &[u8]) -> Result<Vec<u8>, AllocError> {
    let mut out = Vec::new(alloc);
    match read_list(alloc, file) {
        Ok(entries) => for entry in &entries {
            write_entry(alloc, &mut out, entry)?;
        },
        Err(ListFault::Line(number)) => {
            let number = format!(in alloc; "{number}")?;
            out.extend_from_slice(number.as_bytes())?;
        }
        Err(ListFault::Memory) => out.extend_from_slice(b"memory")?,
    }
    Ok(out)
}

/// Checks the files of a table.
fn check_table(rt: &impl Abort, alloc: Global, table: &[u8]) -> Result<(), Fail> {
    for row in table.split(|byte| *byte == b'|') {
        let mut parts = row.split(|byte| *byte == b'~');
        let file = parts.next().unwrap_or(b"");
        let found = read(alloc, file)?;
        assert!(rt;
            found.as_slice() == parts.next().unwrap_or(b""),
            "{file:?} gives {found:?}"
        );
    }
    Ok(())
}

#[test]
fn reads_lists_and_refuses_bad_lines(rt: HostRuntime) -> Result<(), Fail> {
    check_table(&rt, rt.alloc(), LISTS)?;
    check_table(&rt, rt.alloc(), BAD_LINES)
}

#[test]
fn reads_many_lines(rt: HostRuntime) -> Result<(), Fail> {
    let mut file = Vec::new(rt.alloc());
    for _ in 0..50_000 {
        file.extend_from_slice(b"123:/some words/i{min_offset=4}\r\n")?;
    }
    let entries = read_list(rt.alloc(), &file)?;
    assert_eq!(rt; entries.len(), 50_000);
    file.extend_from_slice(b"!")?;
    let refused = matches!(read_list(rt.alloc(), &file), Err(ListFault::Line(50_001)));
    assert!(rt; refused);
    Ok(())
}
