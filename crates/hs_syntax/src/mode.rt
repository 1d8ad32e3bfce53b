//! The options in force, and the letters that change them.
ghost use Rattle.std.specs.Prelude.{◌≡◌, ◌≤◌, length, drop};
ghost use Rattle.hs_syntax.specs.Settings.{mode_of, with_quote, is_option, set_option, set_options};

use hs_base::Flags;

/// The options in force at a place of an expression, and whether it is quoted.
#[derive(Clone, Copy, Debug, PartialEq, Eq)]
pub struct Mode {
    /// `i`: letters match in both cases.
    pub caseless: bool,
    /// `s`: a dot matches every byte.
    pub dotall: bool,
    /// `m`: `^` and `$` match at lines too.
    pub multiline: bool,
    /// `x`: blanks and comments to the end of a line are skipped.
    pub extended: bool,
    /// Between `\Q` and `\E`.
    pub quoted: bool,
    /// A character is a code point in UTF-8, and not a byte.
    pub utf8: bool,
}

/// Options that were changed, and the place behind the letters that did it.
#[derive(Clone, Copy)]
pub(crate) struct Change {
    /// The options.
    pub(crate) mode: Mode,
    /// The place.
    pub(crate) end: usize,
}

impl Mode {
    /// How an expression with the flags begins.
    #[tactic(auto, unfolding(crate::specs::Settings::mode_of))]
    pub fn of(flags: Flags) -> Mode
        ensures { result ≡ mode_of flags }
    {
        Mode {
            caseless: flags.contains(Flags::CASELESS),
            dotall: flags.contains(Flags::DOTALL),
            multiline: flags.contains(Flags::MULTILINE),
            extended: false,
            quoted: false,
            utf8: flags.contains(Flags::UTF8),
        }
    }

    /// The same options, within a quote or outside of it.
    pub(crate) fn with_quote(mut self, quoted: bool) -> Mode
        ensures { result ≡ with_quote quoted self }
    {
        self.quoted = quoted;
        self
    }

    /// The options with that of a letter set or unset.
    #[tactic(auto, unfolding(crate::specs::Settings::set_option))]
    fn with_option(mut self, letter: u8, on: bool) -> Mode
        ensures { result ≡ set_option letter on self }
    {
        match letter {
            b'i' => self.caseless = on,
            b'm' => self.multiline = on,
            b's' => self.dotall = on,
            _ => self.extended = on,
        }
        self
    }
}

/// Whether the byte is the letter of an option.
fn is_option(byte: u8) -> bool
    ensures { result ≡ is_option byte }
{
    matches!(byte, b'i' | b'm' | b's' | b'x')
}

/// Sets or unsets the options of the letters that stand from a place on.
pub(crate) fn set_options(on: bool, mode: Mode, at: usize, bytes: &[u8]) -> Change
    requires within { at ≤ length bytes.now }
    ensures is { result ≡ set_options on mode at (drop at bytes.now) }
    ensures rises { at ≤ result.end }
    ensures within { result.end ≤ length bytes.now }
{
    let mut mode = mode;
    let mut end = at;
    let mut rest = &bytes[at..];
    while let [byte, behind @ ..] = rest {
        if !is_option(*byte) {
            break;
        }
        mode = mode.with_option(*byte, on);
        end += 1;
        rest = behind;
    }
    Change { mode, end }
}
