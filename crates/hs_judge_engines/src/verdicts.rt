//! How a judgement ends. It is `#[cfg(test)]`.

use std::fmt::Display;
use std::test::Fail;

/// How a judgement ends: in nothing, or in what differs.
pub(crate) type Verdict = Result<(), Fail>;

/// Fails with the text where that doesn't hold.
pub(crate) fn ensure<D: Display + Drop>(holds: bool, text: D) -> Verdict {
    if holds { Ok(()) } else { Err(Fail::new(text)) }
}
