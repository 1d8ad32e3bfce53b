//! Rows of an automaton, and one that is built. It is `#[cfg(test)]`.
use hs_base::{ByteSet, Mask, Next, Prev};
use hs_engine::{Automaton, FollowRows};
use hs_expr::Expr;
use hs_glushkov::build;
use std::alloc::AllocError;
use std::test::Fail;

#[test]
fn each_context_has_its_rows(rt: HostRuntime) -> Result<(), Fail> {
    let mut rows = FollowRows::new(rt.alloc(), 12, true)?;
    rows.insert(4, 1, 11);
    let table = [
        (Prev::Word, Next::Newline, 1, true),
        (Prev::Word, Next::Newline, 2, false),
        (Prev::Word, Next::Word, 1, false),
        (Prev::Newline, Next::Newline, 1, false),
    ];
    for (prev, class, position, wanted) in table {
        let row = rows.row(prev, class, position);
        assert_eq!(rt; row, [0, if wanted { 8 } else { 0 }].as_slice());
    }
    Ok(())
}

#[test]
fn rows_take_384_kib_at_most(rt: HostRuntime) -> Result<(), Fail> {
    let alloc = rt.alloc();
    assert_eq!(rt; FollowRows::new(alloc, 512, true)?.len(), 384 << 10);
    assert_eq!(rt; FollowRows::new(alloc, 512, false)?.len(), 32 << 10);
    Ok(())
}

/// Whether the automaton is the one of `a`.
fn is_of_one_byte(automaton: &Automaton) -> bool {
    (automaton.sets() == [ByteSet::of(b'a')].as_slice())
        & (automaton.accepts() == [Mask::all()].as_slice())
        & (automaton.null() == Mask::empty())
        & !automaton.has_assertion()
}

#[test]
fn one_byte_is_one_position(rt: HostRuntime) -> Result<(), AllocError> {
    let automaton = build(rt.alloc(), &Expr::Class(ByteSet::of(b'a')))?;
    assert!(rt; is_of_one_byte(&automaton));
    Ok(())
}
