//! The lines of a stream that is scanned: its reports, and its length.
ghost use Rattle.std.specs.Prelude.{◌≡◌, ℕ, ◌+◌, ◌≤◌, ◌++◌, Option, None, Some, IfSome, length, take, drop, codes};
ghost use Rattle.std.specs.Option.{option_copied};
ghost use Rattle.hs_base.specs.MatchText.{report_line as unnamed_line, end_line as line_of_end};
ghost use Rattle.hs_base.specs.ReportView.{pair_of};
ghost use Rattle.hs_text.specs.ReportLines.{report_line as line_of_report};
ghost use Rattle.hs_text.specs.declared.line_buffer.TheConstants.{LINE_LEN};
ghost use Rattle.hs_text.specs.declared.report_lines.TheConstants.{NAME_LEN};

use crate::line_buffer::{LINE_LEN, append, append_number, append_short_number};
use hs_base::Report;

/// The greatest length in bytes of the name of a stream.
pub const NAME_LEN: usize = 32;

/// Makes the line of a report: `N ID TO` for the stream of the name `N`, `ID TO` for one without a name. The answer is
/// the line's length; the buffer behind it stays as it was.
pub fn report_line(stream: Option<&[u8]>, report: Report, buf: &mut [u8; LINE_LEN]) -> usize
    requires whole { length buf.old ≡ LINE_LEN }
    requires short { IfSome stream (λ name. length name.now ≤ NAME_LEN) }
    ensures within { result ≤ LINE_LEN }
    ensures text { take result buf.new ≡ line_of_report (option_copied stream.entry) report }
    ensures rest { drop result buf.new ≡ drop result buf.old }
{
    let len = match stream {
        Some(name) => {
            let len = append(buf, 0, name);
            append(buf, len, b" ")
        }
        None => 0,
    };
    append_pair(buf, len, report)
}

/// Puts `ID TO` and the line's end behind the first `len` bytes.
fn append_pair(buf: &mut [u8; LINE_LEN], len: usize, report: Report) -> usize
    requires whole { length buf.old ≡ LINE_LEN }
    requires room { len + 32 ≤ LINE_LEN }
    ensures grows { len ≤ result }
    ensures within { result ≤ len + 32 }
    ensures text { take result buf.new ≡ take len buf.old ++ unnamed_line (pair_of report) }
    ensures rest { (k : ℕ) → result ≤ k → drop k buf.new ≡ drop k buf.old }
{
    let len = append_short_number(buf, len, report.id.0);
    let len = append(buf, len, b" ");
    let len = append_number(buf, len, report.to);
    append(buf, len, b"\n")
}

/// Makes the line `end LENGTH` of a stream of so many bytes. The answer is the line's length; the buffer behind it
/// stays as it was.
pub fn end_line(total: u64, buf: &mut [u8; LINE_LEN]) -> usize
    requires { length buf.old ≡ LINE_LEN }
    ensures within { result ≤ LINE_LEN }
    ensures text { take result buf.new ≡ line_of_end total }
    ensures rest { drop result buf.new ≡ drop result buf.old }
{
    let len = append(buf, 0, b"end ");
    let len = append_number(buf, len, total);
    append(buf, len, b"\n")
}
