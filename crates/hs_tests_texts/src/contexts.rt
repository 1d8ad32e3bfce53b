//! What stands before a place and behind it. It is `#[cfg(test)]`.
use hs_base::{Assertion, Mask, Next, NextSet, Prev};

#[test]
fn bytes_have_classes(rt: HostRuntime) {
    assert_eq!(rt; Prev::behind(b'_'), Prev::Word);
    assert_eq!(rt; Prev::behind(b'\n'), Prev::Newline);
    assert_eq!(rt; Prev::behind(0xE4), Prev::Other);
    assert_eq!(rt; Next::class_of(b'7'), Next::Word);
    assert_eq!(rt; Next::class_of(b'\n'), Next::Newline);
    assert_eq!(rt; Next::class_of(b' '), Next::Other);
    assert_eq!(rt; (Prev::Other.number(), Next::Unknown.number()), (3, 5));
}

// The examples of the PCRE pattern syntax, "Simple assertions" and "Circumflex and dollar".
#[test]
fn assertions_hold_as_documented(rt: HostRuntime) {
    let table = [
        (Assertion::StreamStart, Prev::Start, Next::Word, true),
        (Assertion::StreamStart, Prev::Newline, Next::Word, false),
        (Assertion::LineStart, Prev::Newline, Next::Word, true),
        (Assertion::LineStart, Prev::Newline, Next::End, false),
        (Assertion::LineStart, Prev::Start, Next::End, true),
        (Assertion::LineEnd, Prev::Word, Next::Newline, true),
        (Assertion::LineEnd, Prev::Word, Next::Unknown, false),
        (
            Assertion::EndOrFinalNewline,
            Prev::Word,
            Next::FinalNewline,
            true,
        ),
        (
            Assertion::EndOrFinalNewline,
            Prev::Word,
            Next::Newline,
            false,
        ),
        (Assertion::StreamEnd, Prev::Newline, Next::End, true),
        (Assertion::StreamEnd, Prev::Word, Next::FinalNewline, false),
        (Assertion::WordBoundary, Prev::Start, Next::Word, true),
        (Assertion::WordBoundary, Prev::Word, Next::End, true),
        (Assertion::WordBoundary, Prev::Word, Next::Unknown, false),
        (Assertion::NotWordBoundary, Prev::Other, Next::Newline, true),
        (
            Assertion::NotWordBoundary,
            Prev::Other,
            Next::Unknown,
            false,
        ),
    ];
    for (assertion, prev, next, holds) in table {
        assert_eq!(rt; Mask::of(assertion).contains(prev, next), holds);
    }
}

#[test]
fn sets_of_bytes_to_come_have_their_members(rt: HostRuntime) {
    let ends = NextSet::of(Next::End).union(NextSet::of(Next::FinalNewline));
    assert!(rt; ends.contains(Next::End) && !ends.contains(Next::Word));
    assert!(rt; ends.intersection(NextSet::of(Next::End)) == NextSet::of(Next::End));
    assert!(rt; Mask::of(Assertion::EndOrFinalNewline).row(Prev::Other) == ends);
    assert!(rt; Mask::all().row(Prev::Start) == NextSet::all());
    assert!(rt; Mask::empty().row(Prev::Word) == NextSet::empty());
}

#[test]
fn sets_of_contexts_have_their_members(rt: HostRuntime) {
    let boundary = Mask::of(Assertion::WordBoundary);
    let inside = Mask::of(Assertion::NotWordBoundary);
    assert!(rt; boundary.intersection(inside) == Mask::empty());
    let both = boundary.union(inside);
    assert!(rt; both.contains(Prev::Word, Next::Word));
    assert!(rt; !both.contains(Prev::Word, Next::Unknown));
}
