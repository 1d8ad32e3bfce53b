//! How long the encoding of a code point is, and up to which code point the encodings have that length.
ghost use Rattle.std.specs.Prelude.{◌<◌, ◌≤◌, MatchOption};
ghost use Rattle.hs_utf8.specs.Digits.{HasLength};

/// The code points up to a last one have encodings of one length.
#[derive(Clone, Copy)]
pub(crate) struct Length {
    /// The last code point whose encoding has this length.
    pub(crate) last: u32,
    /// The number of bytes behind the first.
    pub(crate) tail: u32,
}

impl Length {
    /// That of a code point above ASCII. A surrogate has none.
    pub(crate) fn of(code_point: u32) -> Option<Length>
        requires low { 0x80 ≤ code_point }
        requires high { code_point ≤ 0x10FFFF }
        ensures { MatchOption result
            ((0xD800 ≤ code_point) × (code_point ≤ 0xDFFF))
            (λ length. HasLength code_point length.last length.tail) }
    {
        match code_point {
            0..=0x7FF => Some(Length {
                last: 0x7FF,
                tail: 1,
            }),
            0x800..=0xD7FF => Some(Length {
                last: 0xD7FF,
                tail: 2,
            }),
            0xD800..=0xDFFF => None,
            0xE000..=0xFFFF => Some(Length {
                last: 0xFFFF,
                tail: 2,
            }),
            _ => Some(Length {
                last: 0x10_FFFF,
                tail: 3,
            }),
        }
    }
}
