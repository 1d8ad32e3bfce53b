//! Refusals as sentences. It is `#[cfg(test)]`.
use hs_base::{Construct, ExprId, Refusal};
use std::alloc::AllocError;

const SENTENCES: [(Refusal, &str); 4] = [
    (
        Refusal::Syntax(7),
        "no form of the pattern syntax stands at byte 7",
    ),
    (
        Refusal::Unsupported(Construct::Property, 3),
        "a Unicode property at byte 3 isn't supported",
    ),
    (
        Refusal::MixedSingle(ExprId(12)),
        "entries of identifier 12 differ in whether it is reported at most once",
    ),
    (Refusal::CountLimit, "the list has too many entries"),
];

#[test]
fn refusals_are_told_as_sentences(rt: HostRuntime) -> Result<(), AllocError> {
    for (refusal, sentence) in SENTENCES {
        let told = format!(in rt.alloc(); "{refusal}")?;
        assert_eq!(rt; told.as_str(), sentence);
    }
    Ok(())
}
