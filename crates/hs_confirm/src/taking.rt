//! Whether a literal ends at a place, byte by byte.

ghost use Rattle.std.specs.Prelude.{◌≡◌, ◌<◌, ◌≤◌, ◌+◌, ◌++◌, length, map};
ghost use Rattle.hs_base.specs.LiteralView.{literal_byte};
ghost use Rattle.hs_confirm.specs.Taking.{takes_all, ends_there};

use hs_base::LitByte;

/// Whether each place of the literal takes the byte that stands there.
fn takes_all(literal: &[LitByte], bytes: &[u8]) -> bool
    requires { length literal.now ≡ length bytes.now }
    ensures { result ≡ takes_all (map literal_byte literal.now) bytes.now }
{
    for at in 0..literal.len() {
        if !literal[at].contains(bytes[at]) {
            return false;
        }
    }
    true
}

/// Whether the literal ends in `bytes` at `at`; it begins in `history`, which stands before.
#[cold]
#[inline(never)]
fn ends_early(literal: &[LitByte], history: &[u8], bytes: &[u8], at: usize) -> bool
    requires within { at ≤ length bytes.now }
    requires early { at < length literal.now }
    ensures { result ≡ ends_there (map literal_byte literal.now) (history.now ++ bytes.now) (length history.now + at) }
{
    let early = literal.len() - at;
    if early > history.len() {
        return false;
    }
    takes_all(&literal[early..], &bytes[..at])
        && takes_all(&literal[..early], &history[history.len() - early..])
}

/// Whether the literal ends in `bytes` at `at`, behind its last byte; it may begin in `history`, which stands before.
pub(crate) fn ends_there(literal: &[LitByte], history: &[u8], bytes: &[u8], at: usize) -> bool
    requires { at ≤ length bytes.now }
    ensures { result ≡ ends_there (map literal_byte literal.now) (history.now ++ bytes.now) (length history.now + at) }
{
    if literal.len() <= at {
        takes_all(literal, &bytes[at - literal.len()..at])
    } else {
        ends_early(literal, history, bytes, at)
    }
}
