//! What no list can say: bits without a letter or a name, and a very long sequence. It is `#[cfg(test)]`.
use hs_base::{Assertion, ByteSet, Ext, Flags, Refusal};
use hs_expr::Expr;
use hs_support::{check, flags_fault};
use std::test::Fail;

#[test]
fn refuses_bits_without_a_name(rt: HostRuntime) -> Result<(), Fail> {
    let byte = Expr::Class(ByteSet::of(b'a'));
    let table = [
        (0, 0, Ok(())),
        (32_768, 0, Err(Refusal::UnsupportedFlag(32_768))),
        (0, 128, Err(Refusal::UnsupportedParameter(128))),
    ];
    for (flags, bits, wanted) in table {
        let ext = Ext {
            bits,
            min_offset: 9,
            max_offset: 9,
        };
        assert_eq!(rt; check(&byte, Flags(flags), ext), wanted);
        assert_eq!(rt; flags_fault(Flags(flags), ext), wanted.err());
    }
    Ok(())
}

#[test]
fn takes_a_long_sequence(rt: HostRuntime) -> Result<(), Fail> {
    let mut items = Vec::new(rt.alloc());
    for _item in 0..16_000u32 {
        items.push(Expr::Assert(Assertion::StreamEnd))?;
    }
    items.push(Expr::Class(ByteSet::of(b'a')))?;
    let expr = Expr::Cat(items);
    let found = check(&expr, Flags::NONE, Ext::NONE);
    assert_eq!(rt; found, Err(Refusal::EmbeddedEnd));
    Ok(())
}
