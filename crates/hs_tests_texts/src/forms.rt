//! Forms, pieces and classes, a row for each kind. It is `#[cfg(test)]`.
use hs_base::{Assertion, Construct, Flags};
use hs_syntax::{Form, Mode, Named, Piece, Wrong, form_at, piece_at};

/// The options without a flag.
fn plain() -> Mode {
    Mode::of(Flags::NONE)
}

/// The options with i.
fn caseless() -> Mode {
    Mode::of(Flags::CASELESS)
}

/// The options with x.
fn extended() -> Mode {
    let mut mode = plain();
    mode.extended = true;
    mode
}

/// The options within a quote.
fn quoted() -> Mode {
    let mut mode = plain();
    mode.quoted = true;
    mode
}

#[test]
fn begins_as_the_flags_say(rt: HostRuntime) {
    for bits in 0..8u16 {
        let mode = Mode::of(Flags(bits + 8));
        assert!(rt; mode.caseless == (bits & 1 == 1));
        assert!(rt; mode.dotall == (bits & 2 == 2));
        assert!(rt; mode.multiline == (bits & 4 == 4));
        assert!(rt; !mode.extended && !mode.quoted && !mode.utf8);
    }
}

#[test]
fn reads_forms(rt: HostRuntime) {
    let rows: [(&[u8], Form); 14] = [
        (b"", Form::End),
        (b"\\Qa", Form::Skipped(quoted(), 2)),
        (b"(?#a)b", Form::Skipped(plain(), 5)),
        (b"(?x)a", Form::Setting(extended(), 4)),
        (b"(?x:a", Form::Opening(extended(), 4)),
        (b"(a", Form::Opening(plain(), 1)),
        (b")", Form::Closing),
        (b"|", Form::Bar),
        (b".", Form::Any),
        (b"\\x{41}a", Form::Character(0x41, 6)),
        (b"\\Da", Form::Class(Named::Digit, true, 2)),
        (b"[a", Form::Bracket),
        (b"{2,3}+a", Form::Quantifier(2, Some(3), true, 6)),
        (b"\\y", Form::Refused(Wrong::UnknownEscape)),
    ];
    for (text, form) in rows {
        assert!(rt; form_at(plain(), text) == form, "{text:?}");
    }
}

#[test]
fn reads_under_options(rt: HostRuntime) {
    let lines = Mode::of(Flags::MULTILINE);
    assert!(rt; form_at(lines, b"$") == Form::Assert(Assertion::LineEnd, 1));
    assert!(rt; form_at(plain(), b"$") == Form::Assert(Assertion::EndOrFinalNewline, 1));
    assert!(rt; form_at(extended(), b" a") == Form::Skipped(extended(), 1));
    assert!(rt; form_at(extended(), b"#a\nb") == Form::Skipped(extended(), 3));
    assert!(rt; form_at(quoted(), b"\\Ea") == Form::Skipped(plain(), 2));
    assert!(rt; form_at(quoted(), b"(a") == Form::Character(0x28, 1));
}

#[test]
fn reads_pieces(rt: HostRuntime) {
    let rows: [(&[u8], Piece); 8] = [
        (b"", Piece::End),
        (b"]", Piece::Close),
        (b"\\b", Piece::Character(8, 2)),
        (b"\\s", Piece::Class(Named::Space, false, 2)),
        (b"[:^digit:]", Piece::Class(Named::Digit, true, 10)),
        (b"[:upper:]", Piece::Class(Named::Letter, false, 9)),
        (b"[:foo:]", Piece::Refused(Wrong::Syntax)),
        (
            b"[=a=]",
            Piece::Refused(Wrong::Unsupported(Construct::Collating)),
        ),
    ];
    for (text, piece) in rows {
        assert!(rt; piece_at(caseless(), false, text) == piece, "{text:?}");
    }
    assert!(rt; piece_at(caseless(), true, b"]") == Piece::Character(0x5D, 1));
}

/// How many bytes a class has.
fn size_of(class: Named) -> usize {
    (0..=255u8).filter(|byte| class.contains(*byte)).count()
}

#[test]
fn counts_the_bytes_of_classes(rt: HostRuntime) {
    let rows = [
        (Named::Digit, 10),
        (Named::Word, 63),
        (Named::Space, 6),
        (Named::HorizontalSpace, 3),
        (Named::VerticalSpace, 5),
        (Named::Letter, 52),
        (Named::SmallLetter, 26),
        (Named::LargeLetter, 26),
        (Named::LetterOrDigit, 62),
        (Named::HexadecimalDigit, 22),
        (Named::Blank, 2),
        (Named::Control, 33),
        (Named::Ascii, 128),
        (Named::Graphic, 94),
        (Named::Printed, 95),
        (Named::Punctuation, 32),
    ];
    for (class, count) in rows {
        assert!(rt; size_of(class) == count, "{class:?}");
    }
}
