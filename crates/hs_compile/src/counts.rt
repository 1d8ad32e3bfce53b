//! What the region of a list is made of.

ghost use Rattle.std.specs.Prelude.{◌≡◌, ◌++◌, ◌∷◌, [], ◌+◌, ◌^◌, ◌<◌, List, Some, None, IfSome, length};
ghost use Rattle.hs_base.specs.Patterns.{Pattern};
ghost use Rattle.hs_base.specs.Regions.{fields_at, row_size};
ghost use Rattle.hs_compile.specs.Counting.{AreNamed, IsKnownName};

use hs_layout::HISTORY_SIZE;

/// The bytes of the offset.
const OFFSET_SIZE: u64 = 8;

/// What decides the length of a list's region.
#[derive(Clone, Copy, Debug)]
pub struct Counts {
    /// How many identifiers the list has.
    pub identifiers: u64,
    /// How many of them are single.
    pub singles: u64,
    /// How many bytes the fields of all pieces take.
    pub fields: u64,
}

impl Counts {
    /// Of a list without entries.
    pub fn none() -> Counts
        ensures named { AreNamed [] result }
        ensures fields { result.fields ≡ 0 }
    {
        Counts {
            identifiers: 0,
            singles: 0,
            fields: 0,
        }
    }

    /// With one entry more, which asks for a single report or doesn't. Of its identifier it is known whether it is
    /// single so far, if it has entries.
    pub fn with_name(self, known: Option<bool>, single: bool) -> Counts
        ensures named { (P : List Pattern) (x : Pattern) → length P < 2 ^ 32 → AreNamed P self →
            IsKnownName P x.id known → x.single ≡ single → AreNamed (P ++ x ∷ []) result }
        ensures fields { result.fields ≡ self.fields }
    {
        match known {
            None => self.with_new(single),
            Some(kept) => self.with_known(kept, single),
        }
    }

    /// With an identifier more.
    fn with_new(self, single: bool) -> Counts
        ensures named { (P : List Pattern) (x : Pattern) → length P < 2 ^ 32 → AreNamed P self →
            IsKnownName P x.id None → x.single ≡ single → AreNamed (P ++ x ∷ []) result }
        ensures fields { result.fields ≡ self.fields }
    {
        Counts {
            identifiers: self.identifiers.saturating_add(1),
            singles: self.singles.saturating_add(u64::from(single)),
            fields: self.fields,
        }
    }

    /// With an entry more of an identifier that is single so far, or isn't.
    fn with_known(self, kept: bool, single: bool) -> Counts
        ensures named { (P : List Pattern) (x : Pattern) → length P < 2 ^ 32 → AreNamed P self →
            IsKnownName P x.id (Some kept) → x.single ≡ single → AreNamed (P ++ x ∷ []) result }
        ensures fields { result.fields ≡ self.fields }
    {
        Counts {
            identifiers: self.identifiers,
            singles: self.singles.saturating_sub(u64::from(kept & !single)),
            fields: self.fields,
        }
    }

    /// With fields more of so many bytes. None where a `u64` can't tell how many all of them take.
    pub fn with_fields(self, size: u64) -> Option<Counts>
        ensures { IfSome result (λ counts. (counts.identifiers ≡ self.identifiers) × (counts.singles ≡ self.singles)
            × (counts.fields ≡ self.fields + size)) }
    {
        let Some(fields) = self.fields.checked_add(size) else {
            return None;
        };
        Some(Counts {
            identifiers: self.identifiers,
            singles: self.singles,
            fields,
        })
    }

    /// The length of the region in bytes. None where a `u64` can't tell it.
    pub fn size(self) -> Option<u64>
        ensures { IfSome result (λ size. self.singles < 2 ^ 32 → self.identifiers < 2 ^ 32 →
            size ≡ fields_at self.singles self.identifiers + self.fields) }
    {
        let identifiers = bytes_for(self.identifiers);
        let header = OFFSET_SIZE
            + HISTORY_SIZE as u64
            + bytes_for(self.singles)
            + identifiers
            + identifiers;
        header.checked_add(self.fields)
    }
}

/// How many bytes a row of so many bits has.
fn bytes_for(bits: u64) -> u64
    ensures is { bits < 2 ^ 32 → result ≡ row_size bits }
    ensures few { result < 2 ^ 61 }
{
    bits.saturating_add(7) / 8
}
