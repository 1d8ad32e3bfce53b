//! What the commands answer of a list.
ghost use Rattle.std.specs.Prelude.{◌≡◌, ◌≤◌, length, take, drop};
ghost use Rattle.hs_text.specs.declared.line_buffer.TheConstants.{LINE_LEN};
ghost use Rattle.hs_text.specs.AnswerLines.{accepted_line as line_of_accepted, compiled_line as line_of_compiled};
ghost use Rattle.hs_text.specs.AnswerLines.{info_lines as lines_of_info, size_lines as lines_of_sizes};
ghost use Rattle.hs_text.specs.AnswerLines.{form_line as line_of_form};

use crate::line_buffer::{LINE_LEN, append, append_number};

/// Makes the line `accepted COUNT` of a list of so many entries. The answer is the line's length; the buffer behind it
/// stays as it was.
pub fn accepted_line(count: u64, buf: &mut [u8; LINE_LEN]) -> usize
    requires { length buf.old ≡ LINE_LEN }
    ensures within { result ≤ LINE_LEN }
    ensures text { take result buf.new ≡ line_of_accepted count }
    ensures rest { drop result buf.new ≡ drop result buf.old }
{
    let len = append(buf, 0, b"accepted ");
    let len = append_number(buf, len, count);
    append(buf, len, b"\n")
}

/// Makes the line `compiled COUNT BYTES` of a database file of so many entries and bytes. The answer is the line's
/// length; the buffer behind it stays as it was.
pub fn compiled_line(count: u64, bytes: u64, buf: &mut [u8; LINE_LEN]) -> usize
    requires { length buf.old ≡ LINE_LEN }
    ensures within { result ≤ LINE_LEN }
    ensures text { take result buf.new ≡ line_of_compiled count bytes }
    ensures rest { drop result buf.new ≡ drop result buf.old }
{
    let len = append(buf, 0, b"compiled ");
    let len = append_number(buf, len, count);
    let len = append(buf, len, b" ");
    let len = append_number(buf, len, bytes);
    append(buf, len, b"\n")
}

/// Makes the lines `version 1`, `expressions N` and `identifiers K` of a database. The answer is the length of all
/// three; the buffer behind them stays as it was.
pub fn info_lines(expressions: u64, identifiers: u64, buf: &mut [u8; LINE_LEN]) -> usize
    requires { length buf.old ≡ LINE_LEN }
    ensures within { result ≤ LINE_LEN }
    ensures text { take result buf.new ≡ lines_of_info expressions identifiers }
    ensures rest { drop result buf.new ≡ drop result buf.old }
{
    let len = append(buf, 0, b"version 1\nexpressions ");
    let len = append_number(buf, len, expressions);
    let len = append(buf, len, b"\nidentifiers ");
    let len = append_number(buf, len, identifiers);
    append(buf, len, b"\n")
}

/// Makes the lines `region R` and `state S`: the lengths in bytes of the region of a stream over a database, and of its
/// state file. The answer is the length of both; the buffer behind them stays as it was.
pub fn size_lines(region: u64, state: u64, buf: &mut [u8; LINE_LEN]) -> usize
    requires { length buf.old ≡ LINE_LEN }
    ensures within { result ≤ LINE_LEN }
    ensures text { take result buf.new ≡ lines_of_sizes region state }
    ensures rest { drop result buf.new ≡ drop result buf.old }
{
    let len = append(buf, 0, b"region ");
    let len = append_number(buf, len, region);
    let len = append(buf, len, b"\nstate ");
    let len = append_number(buf, len, state);
    append(buf, len, b"\n")
}

/// Makes the line `fault database AT` of bytes that aren't a database file from that place on. The answer is the line's
/// length; the buffer behind it stays as it was.
pub fn form_line(at: u64, buf: &mut [u8; LINE_LEN]) -> usize
    requires { length buf.old ≡ LINE_LEN }
    ensures within { result ≤ LINE_LEN }
    ensures text { take result buf.new ≡ line_of_form at }
    ensures rest { drop result buf.new ≡ drop result buf.old }
{
    let len = append(buf, 0, b"fault database ");
    let len = append_number(buf, len, at);
    append(buf, len, b"\n")
}
