//! The notation, on one small table. It is `#[cfg(test)]`.
use hs_rows::{Row, number_of, rows_of, text_of, words_of};
use std::test::Fail;

/// Three rows, one of them of two lines.
const TABLE: &[u8] = br"
# not read
a <b c>d> e
 f =
g = 1  <h>
= i
";

#[test]
fn a_table_is_cut_into_rows_and_words(rt: HostRuntime) -> Result<(), Fail> {
    let alloc = rt.alloc();
    let rows = rows_of(alloc, TABLE)?;
    let mut shown = String::new(alloc);
    for Row { words, wanted } in &rows {
        for word in words {
            write!(shown, "{}|", word.len())?;
        }
        let wanted = wanted.as_ref().ok_or("nothing is wanted")?;
        write!(shown, "={};", words_of(alloc, wanted)?.len())?;
    }
    assert_eq!(rt; shown.as_str(), "1|7|1|1|=0;1|=2;=1;");
    Ok(())
}

#[test]
fn a_text_has_bytes_and_cuts(rt: HostRuntime) -> Result<(), Fail> {
    let alloc = rt.alloc();
    let text = text_of(alloc, b"a~%FF;%(3)b\n %(2)%00~%(0)c")?;
    assert!(rt; text.bytes.as_slice() == b"a\xFF\nbbb\x00\x00".as_slice());
    assert!(rt; text.cuts == 0b1000_0001);
    assert!(rt; number_of(b"4294967295") == Some(4_294_967_295));
    assert!(rt; number_of(b"4294967296").is_none());
    assert!(rt; number_of(b"").is_none() && number_of(b"1x").is_none());
    Ok(())
}
