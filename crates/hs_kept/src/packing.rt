//! What is kept of a region, and back: the number of a state for a set of positions.

ghost use Rattle.std.specs.Prelude.{◌≡◌, ◌^◌, ◌≤◌, length};
ghost use Rattle.hs_kept.specs.Rests.{AreRests, rests-prop};
ghost use Rattle.hs_kept.specs.StateFields.{AreFieldsApart, apart-prop, IsFirstFrom, end_of};

use crate::field_bytes::{pack_field, prev_behind, unpack_field};
use crate::rests::{Rest, are_alike, copy_between, is_zero_between, rest_number, write_zeros};
use hs_base::Prev;
use hs_states::StateSets;
use std::alloc::{AllocError, Global};

/// How many fields are taken at once where they are at rest.
const GROUP_FIELDS: usize = 16;

/// Up to how many bytes are kept where rows of rest are made, which take four times as much memory.
const MAX_REST_LEN: usize = 1 << 20;

/// How many bytes may be kept for each field that has a number, where rows of rest are made: rows are compared whole,
/// and where fields lie farther apart they are sooner taken one by one.
const MOST_LEN_A_FIELD: usize = 64;

/// The bytes of the header that tell what stands before.
const HEADER_LEN: usize = 72;

/// The field of a first piece with few states.
#[derive(Debug, Drop)]
pub struct StateField {
    /// Where the set of the state begins in a region.
    pub at: usize,
    /// Where the number of the state stands in what is kept.
    pub place: usize,
    /// The sets by their numbers.
    pub sets: StateSets,
}

/// How regions are kept: the set of a state by its number, and all else as it is.
#[derive(Debug, Drop)]
pub struct Packing {
    /// The fields with a number, rising.
    fields: Vec<StateField>,
    /// How many bytes a region has.
    region_size: usize,
    /// How many of these are kept.
    size: usize,
    /// What is kept of regions of zeros, where it is at most 1 MiB: a row for each `Prev`, if it serves.
    rests: Vec<Rest>,
    ghost apart: { AreFieldsApart fields.items 0 0 region_size size } by { apart-prop fields.items _ _ _ _ },
    ghost header: { 72 ≤ region_size },
    ghost region_small: { region_size ≤ 2 ^ 24 },
    ghost small: { size ≤ 2 ^ 24 },
    ghost rested: { AreRests fields.items size rests.items } by { rests-prop fields.items size rests.items },
}

impl Packing {
    ghost use Rattle.std.specs.Prelude.{◌<◌, IfOk, IfSome, vec_len};
    ghost use Rattle.hs_kept.specs.Groups.{IsPackedTo, IsUnpackedTo};
    ghost use Rattle.hs_kept.specs.Packing.{AreNumbers, IsPackedOf, packed_size, unpacked, unpacked_size};
    ghost use Rattle.hs_kept.specs.Rests.{IsRestOf};

    /// The packing by these fields, of regions of one size to bytes of the other.
    pub(crate) fn new(
        alloc: Global,
        fields: Vec<StateField>,
        region_size: usize,
        size: usize,
    ) -> Packing
        requires apart { AreFieldsApart fields.items 0 0 region_size size }
        requires header { 72 ≤ region_size }
        requires region_small { region_size ≤ 2 ^ 24 }
        requires small { size ≤ 2 ^ 24 }
        ensures fields { result.fields ≡ fields }
        ensures region_size { unpacked_size result ≡ region_size }
        ensures size { packed_size result ≡ size }
    {
        Packing {
            fields,
            region_size,
            size,
            rests: Vec::new(alloc),
        }
    }

    /// The same packing with the rows of rest, where they aren't too long and fields don't lie too far apart.
    pub(crate) fn with_rests(self, alloc: Global) -> Result<Packing, AllocError>
        ensures fields { IfOk result (λ made. made.fields ≡ self.fields) }
        ensures region_size { IfOk result (λ made. unpacked_size made ≡ unpacked_size self) }
        ensures size { IfOk result (λ made. packed_size made ≡ packed_size self) }
    {
        let most = self.fields.len().saturating_mul(MOST_LEN_A_FIELD);
        if self.size > MAX_REST_LEN.min(most) {
            return Ok(self);
        }
        let rests = self.rests_of(alloc)?;
        Ok(Packing {
            fields: self.fields,
            region_size: self.region_size,
            size: self.size,
            rests,
        })
    }

    /// The rows of rest.
    fn rests_of(&self, alloc: Global) -> Result<Vec<Rest>, AllocError>
        ensures { IfOk result (λ rests. AreRests self.now.fields.items self.now.size rests.items) }
    {
        let mut rests = Vec::new(alloc);
        self.push_rest(alloc, Prev::Start, &mut rests)?;
        self.push_rest(alloc, Prev::Word, &mut rests)?;
        self.push_rest(alloc, Prev::Newline, &mut rests)?;
        self.push_rest(alloc, Prev::Other, &mut rests)?;
        Ok(rests)
    }

    /// Puts the row of rest for what stands before behind the others, if it serves.
    fn push_rest(&self, alloc: Global, prev: Prev, rests: &mut Vec<Rest>) -> Result<(), AllocError>
        requires { AreRests self.now.fields.items self.now.size rests.old.items }
        ensures { IfOk result (λ done. AreRests self.now.fields.items self.now.size rests.new.items) }
    {
        if let Some(bytes) = self.rest_bytes(alloc, prev)? {
            rests.push(Rest { prev, bytes })?;
        }
        Ok(())
    }

    /// What is kept of a region of zeros behind which that stands; None where a set isn't that of no position.
    fn rest_bytes(&self, alloc: Global, prev: Prev) -> Result<Option<Vec<u8>>, AllocError>
        ensures { IfOk result (λ found. IfSome found (λ row.
            IsRestOf self.now.fields.items self.now.size prev row.items)) }
    {
        let mut row = vec![in alloc; 0u8; self.size]?;
        for number in 0..self.fields.len() {
            let field = &self.fields[number];
            let Some(rested) = rest_number(&field.sets, prev) else {
                return Ok(None);
            };
            row[field.place] = rested;
        }
        Ok(Some(row))
    }

    /// The row of rest for what stands before.
    fn rest(&self, prev: Prev) -> Option<&Rest>
        ensures prev { IfSome result (λ rest. rest.now.prev ≡ prev) }
        ensures rests { IfSome result (λ rest.
            IsRestOf self.now.fields.items self.now.size rest.now.prev rest.now.bytes.items) }
    {
        for rest in &self.rests {
            if rest.prev == prev {
                return Some(rest);
            }
        }
        None
    }

    /// How many bytes are kept.
    pub fn size(&self) -> usize
        ensures size { result ≡ packed_size self.now }
        ensures small { result ≤ 2 ^ 24 }
    {
        self.size
    }

    /// How many bytes a region has.
    pub fn region_size(&self) -> usize
        ensures size { result ≡ unpacked_size self.now }
        ensures small { result ≤ 2 ^ 24 }
    {
        self.region_size
    }

    /// Makes the region of what is kept.
    pub fn unpack(&self, kept: &[u8], region: &mut [u8])
        requires kept { length kept.now ≡ packed_size self.now }
        requires region { length region.old ≡ unpacked_size self.now }
        requires numbers { AreNumbers self.now kept.now }
        ensures { region.new ≡ unpacked self.now kept.now }
    {
        let rest = self.rest_behind(kept);
        let mut at = 0;
        let mut place = 0;
        let mut first = 0;
        while first < self.fields.len() {
            let end = (first + GROUP_FIELDS).min(self.fields.len());
            let (next_at, next_place) = self.unpack_group(
                first,
                end,
                rest,
                kept,
                region,
                (at, place),
            );
            at = next_at;
            place = next_place;
            first = end;
        }
        region[at..].copy_from_slice(&kept[place..]);
    }

    /// The row of rest for what stands before the next byte of the stream, by the header.
    fn rest_behind(&self, kept: &[u8]) -> Option<&Rest>
        ensures { IfSome result (λ rest.
            IsRestOf self.now.fields.items self.now.size rest.now.prev rest.now.bytes.items) }
    {
        if kept.len() < HEADER_LEN {
            return None;
        }
        self.rest(prev_behind(kept))
    }

    /// Makes the part of a region up to the end of a group of fields, those from `first` to before `end`, and says
    /// where the next group begins, in a region and in what is kept; this one begins at `begin`. Where it is kept as in
    /// the row of rest, it makes zeros.
    fn unpack_group(
        &self,
        first: usize,
        end: usize,
        rest: Option<&Rest>,
        kept: &[u8],
        region: &mut [u8],
        begin: (usize, usize),
    ) -> (usize, usize)
        requires some { first < end }
        requires within { end ≤ vec_len self.now.fields }
        requires rests { IfSome rest (λ row.
            IsRestOf self.now.fields.items self.now.size row.now.prev row.now.bytes.items) }
        requires kept { length kept.now ≡ packed_size self.now }
        requires so_far { IsUnpackedTo self.now kept.now first begin.0 begin.1 region.old }
        ensures { IsUnpackedTo self.now kept.now end result.0 result.1 region.new }
    {
        let (at, place) = begin;
        let last = &self.fields[end - 1];
        let next_at = last.end();
        let next_place = last.place + 1;
        if let Some(row) = rest {
            if are_alike(kept, &row.bytes, place, next_place) {
                write_zeros(region, at, next_at);
                return (next_at, next_place);
            }
        }
        self.unpack_fields(first, end, kept, region, at, place)
    }

    /// The same, field by field.
    fn unpack_fields(
        &self,
        first: usize,
        end: usize,
        kept: &[u8],
        region: &mut [u8],
        at: usize,
        place: usize,
    ) -> (usize, usize)
        requires some { first < end }
        requires within { end ≤ vec_len self.now.fields }
        requires kept { length kept.now ≡ packed_size self.now }
        requires so_far { IsUnpackedTo self.now kept.now first at place region.old }
        ensures { IsUnpackedTo self.now kept.now end result.0 result.1 region.new }
    {
        let mut next_at = at;
        let mut next_place = place;
        for number in first..end {
            let field = &self.fields[number];
            unpack_field(field, kept, region, next_at, next_place);
            next_at = field.end();
            next_place = field.place + 1;
        }
        (next_at, next_place)
    }

    /// Makes of a region what is kept of it. A set that is that of no state, which only a region leads to that no
    /// stream has, is kept as the first one. Its time is that of the copies, of one test of a row for each group of
    /// fields at rest, and of one look-up for each other field.
    pub fn pack(&self, region: &[u8], kept: &mut [u8])
        requires region { length region.now ≡ unpacked_size self.now }
        requires kept { length kept.old ≡ packed_size self.now }
        ensures { IsPackedOf self.now region.now kept.new }
    {
        let prev = prev_behind(region);
        let rest = self.rest(prev);
        let mut at = 0;
        let mut place = 0;
        let mut first = 0;
        while first < self.fields.len() {
            let end = (first + GROUP_FIELDS).min(self.fields.len());
            let (next_at, next_place) = self.pack_group(
                first,
                end,
                rest,
                region,
                prev,
                kept,
                (at, place),
            );
            at = next_at;
            place = next_place;
            first = end;
        }
        kept[place..].copy_from_slice(&region[at..]);
    }

    /// Makes the part of what is kept up to the last number of a group of fields, those from `first` to before `end`,
    /// and says where the next group begins, in a region and in what is kept; this one begins at `begin`. Where it is
    /// zeros, it copies the row of rest.
    fn pack_group(
        &self,
        first: usize,
        end: usize,
        rest: Option<&Rest>,
        region: &[u8],
        prev: Prev,
        kept: &mut [u8],
        begin: (usize, usize),
    ) -> (usize, usize)
        requires some { first < end }
        requires within { end ≤ vec_len self.now.fields }
        requires prev { IfSome rest (λ row. row.now.prev ≡ prev) }
        requires rests { IfSome rest (λ row.
            IsRestOf self.now.fields.items self.now.size row.now.prev row.now.bytes.items) }
        requires region { length region.now ≡ unpacked_size self.now }
        requires so_far { IsPackedTo self.now region.now prev first begin.0 begin.1 kept.old }
        ensures { IsPackedTo self.now region.now prev end result.0 result.1 kept.new }
    {
        let (at, place) = begin;
        let last = &self.fields[end - 1];
        let next_at = last.end();
        let next_place = last.place + 1;
        if let Some(row) = rest {
            if is_zero_between(region, at, next_at) {
                copy_between(&row.bytes, kept, place, next_place);
                return (next_at, next_place);
            }
        }
        self.pack_fields(first, end, region, prev, kept, at, place)
    }

    /// The same, field by field.
    fn pack_fields(
        &self,
        first: usize,
        end: usize,
        region: &[u8],
        prev: Prev,
        kept: &mut [u8],
        at: usize,
        place: usize,
    ) -> (usize, usize)
        requires some { first < end }
        requires within { end ≤ vec_len self.now.fields }
        requires region { length region.now ≡ unpacked_size self.now }
        requires so_far { IsPackedTo self.now region.now prev first at place kept.old }
        ensures { IsPackedTo self.now region.now prev end result.0 result.1 kept.new }
    {
        let mut next_at = at;
        let mut next_place = place;
        for number in first..end {
            let field = &self.fields[number];
            pack_field(field, region, prev, kept, next_at, next_place);
            next_at = field.end();
            next_place = field.place + 1;
        }
        (next_at, next_place)
    }
}

impl Packing {
    ghost use Rattle.std.specs.Prelude.{◌⊎◌, ◌<◌, ℕ, ◌+◌, ◌-◌, false, List, IfSome, MatchOption, None, Some};
    ghost use Rattle.std.specs.Prelude.{◌↔◌, IsTrue, slice_get, slice_range, vec_len};
    ghost use Rattle.hs_base.specs.Lists.{Each};
    ghost use Rattle.hs_kept.specs.Packing.{AreNumbers, IsPackedOf, packed_size, unpacked, unpacked_size};
    ghost use Rattle.hs_kept.specs.Parts.{AreNumbersBefore, IsNumberFault, IsPartIn, place_of};

    /// The number of the first field that begins at byte `at` of a region or behind it; or how many there are.
    fn first_from(&self, at: usize) -> usize
        ensures { IsFirstFrom self.now.fields.items at result }
    {
        let mut low = 0;
        let mut high = self.fields.len();
        while low < high {
            let middle = low + (high - low) / 2;
            if self.fields[middle].at < at {
                low = middle + 1;
            } else {
                high = middle;
            }
        }
        low
    }

    /// Where what begins at byte `at` of a region stands in what is kept: a number for a set, and else the same byte.
    pub fn place(&self, at: usize) -> usize
        requires { at ≤ unpacked_size self.now }
        ensures { result ≡ place_of self.now at }
    {
        self.place_at(self.first_from(at), at)
    }

    /// The same, where `number` is that of the first field from there on.
    fn place_at(&self, number: usize, at: usize) -> usize
        requires within { at ≤ unpacked_size self.now }
        requires found { IsFirstFrom self.now.fields.items at number }
        ensures { result ≡ place_of self.now at }
    {
        if number == 0 {
            return at;
        }
        let before = &self.fields[number - 1];
        before.place + 1 + at.saturating_sub(before.end())
    }

    /// The field of that number, the first one from byte `start` of a region on, if the bytes from there to before the
    /// other one are those of its set.
    fn own_field(&self, number: usize, start: usize, end: usize) -> Option<&StateField>
        requires part { IsPartIn self.now start end }
        requires found { IsFirstFrom self.now.fields.items start number }
        ensures own { IfSome result (λ f. (slice_get self.now.fields.items number ≡ Some f.now)
            × (start ≡ f.now.at) × (end ≡ end_of f.now) × (f.now.place < packed_size self.now)) }
        ensures between { result ≡ None → (start ≤ end) × (end ≤ unpacked_size self.now)
            × Each (λ f. (end_of f ≤ start) ⊎ (end ≤ f.at)) self.now.fields.items }
        ensures within { result ≡ None → place_of self.now start + (end - start) ≤ packed_size self.now }
    {
        if number == self.fields.len() {
            return None;
        }
        let field = &self.fields[number];
        if field.at < end { Some(field) } else { None }
    }

    /// The bytes from `start` to before `end` of the region that is made of what is kept, without making it: those of
    /// one set, or such as lie between fields. Fields behind `start` may have numbers of no state.
    pub fn part<'a>(&'a self, kept: &'a [u8], start: usize, end: usize) -> &'a [u8]
        requires kept { length kept.now ≡ packed_size self.now }
        requires part { IsPartIn self.now start end }
        requires numbers { AreNumbersBefore self.now kept.now (start + 1) }
        ensures bytes { result.now ≡ slice_range (unpacked self.now kept.now) start end }
        ensures len { length result.now ≡ end - start }
    {
        let number = self.first_from(start);
        match self.own_field(number, start, end) {
            Some(field) => field.sets.set(kept[field.place]),
            None => {
                let place = self.place_at(number, start);
                &kept[place..place + (end - start)]
            }
        }
    }

    /// Where the first field with a number that is that of no state begins in a region, and where this number stands;
    /// None where there is none.
    pub fn number_fault(&self, kept: &[u8]) -> Option<(usize, usize)>
        requires kept { length kept.now ≡ packed_size self.now }
        ensures found { MatchOption result (AreNumbers self.now kept.now)
            (λ p. IsNumberFault self.now kept.now p.0 p.1) }
        ensures well { AreNumbers self.now kept.now → result ≡ None }
    {
        for field in &self.fields {
            if kept[field.place] as usize >= field.sets.count() {
                return Some((field.at, field.place));
            }
        }
        None
    }

    /// Whether there is a field with a number. Without one a region is kept as it is.
    pub fn has_states(&self) -> bool
        ensures states { IsTrue result ↔ (0 < vec_len self.now.fields) }
        ensures sizes { result ≡ false → packed_size self.now ≡ unpacked_size self.now }
        ensures unpacks { result ≡ false → (kept : List ℕ) → unpacked self.now kept ≡ kept }
        ensures packs { result ≡ false → (region : List ℕ) → length region ≡ unpacked_size self.now →
            IsPackedOf self.now region region }
    {
        self.fields.len() > 0
    }
}

impl StateField {
    /// Where the set ends in a region.
    pub fn end(&self) -> usize
        requires small { self.now.at ≤ 2 ^ 24 }
        ensures { result ≡ end_of self.now }
    {
        self.at + self.sets.width()
    }
}
