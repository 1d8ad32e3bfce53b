//! Bytes cut in two at a separator.
ghost use Rattle.std.specs.Prelude.{◌≡◌, ◌≢◌, List, ◌∷◌, ◌++◌, MatchOption};
ghost use Rattle.hs_base.specs.Lists.{Each};

use memchr::{memchr, memrchr};

/// What stands before and behind the first separator.
pub fn cut_at_first(bytes: &[u8], separator: u8) -> Option<(&[u8], &[u8])>
    ensures { MatchOption result
        (Each (λ b. b ≢ separator) bytes.now)
        (λ parts. Each (λ b. b ≢ separator) parts.0.now × (bytes.now ≡ parts.0.now ++ separator ∷ parts.1.now)) }
{
    match memchr(separator, bytes) {
        None => None,
        Some(at) => Some((&bytes[..at], &bytes[at + 1..])),
    }
}

/// What stands before and behind the last separator.
pub fn cut_at_last(bytes: &[u8], separator: u8) -> Option<(&[u8], &[u8])>
    ensures { MatchOption result
        (Each (λ b. b ≢ separator) bytes.now)
        (λ parts. Each (λ b. b ≢ separator) parts.1.now × (bytes.now ≡ parts.0.now ++ separator ∷ parts.1.now)) }
{
    match memrchr(separator, bytes) {
        None => None,
        Some(at) => Some((&bytes[..at], &bytes[at + 1..])),
    }
}
