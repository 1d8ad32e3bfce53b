//! The bytes of one field, in a region and in what is kept of it.

ghost use Rattle.std.specs.Prelude.{◌≡◌, ◌^◌, ◌<◌, ◌≤◌, ◌+◌, ◌-◌, ◌++◌, length, slice_index, slice_range, take};
ghost use Rattle.hs_base.specs.Regions.{region_offset};
ghost use Rattle.hs_states.specs.StateSets.{set_bytes, set_width, state_count};
ghost use Rattle.hs_kept.specs.Packing.{IsNumberFor, prev_in};
ghost use Rattle.hs_kept.specs.StateFields.{IsNextField, end_of};

use crate::packing::StateField;
use hs_base::Prev;
use hs_states::StateSets;

/// Where the last byte of a stream stands in a region: at the end of the history.
const LAST_AT: usize = 71;

/// Makes the part of a region up to the end of a field, behind what is made already.
pub(crate) fn unpack_field(
    field: &StateField,
    kept: &[u8],
    region: &mut [u8],
    at: usize,
    place: usize,
)
    requires small { length region.old ≤ 2 ^ 24 }
    requires next { IsNextField field.now at place (length region.old) (length kept.now) }
    requires number { slice_index kept.now field.now.place < state_count field.now.sets }
    ensures len { length region.new ≡ length region.old }
    ensures made { take (end_of field.now) region.new ≡ take at region.old
        ++ (slice_range kept.now place field.now.place
        ++ set_bytes field.now.sets (slice_index kept.now field.now.place)) }
{
    copy_gap(kept, place, field.place, region, at);
    region[field.at..field.end()].copy_from_slice(field.sets.set(kept[field.place]));
}

/// Makes the part of what is kept up to the number of a field, behind what is made already. The number of the field
/// before is asked first: where many expressions begin alike, their fields have the same one.
pub(crate) fn pack_field(
    field: &StateField,
    region: &[u8],
    prev: Prev,
    kept: &mut [u8],
    at: usize,
    place: usize,
)
    requires small { length region.now ≤ 2 ^ 24 }
    requires next { IsNextField field.now at place (length region.now) (length kept.old) }
    ensures len { length kept.new ≡ length kept.old }
    ensures before { take place kept.new ≡ take place kept.old }
    ensures gap { slice_range region.now at field.now.at ≡ slice_range kept.new place field.now.place }
    ensures number { IsNumberFor field.now.sets (slice_range region.now field.now.at (end_of field.now)) prev
        (slice_index kept.new field.now.place) }
{
    let guess = if place == 0 { 0 } else { kept[place - 1] };
    let number = number_for(&field.sets, &region[field.at..field.end()], prev, guess);
    copy_gap(region, at, field.at, kept, place);
    kept[field.place] = number;
}

/// Copies the bytes between two fields, if there are any: where there are none, a call would cost as much as one for
/// some.
fn copy_gap(from: &[u8], start: usize, end: usize, to: &mut [u8], at: usize)
    requires order { start ≤ end }
    requires within { end ≤ length from.now }
    requires room { at + (end - start) ≤ length to.old }
    ensures len { length to.new ≡ length to.old }
    ensures before { take at to.new ≡ take at to.old }
    ensures gap { slice_range to.new at (at + (end - start)) ≡ slice_range from.now start end }
    ensures made { take (at + (end - start)) to.new ≡ take at to.old ++ slice_range from.now start end }
{
    if start < end {
        to[at..at + (end - start)].copy_from_slice(&from[start..end]);
    }
}

/// The number of the state with this set and with what stands before, or 0 where there is none. That of the guess is
/// asked first.
pub(crate) fn number_for(sets: &StateSets, set: &[u8], prev: Prev, guess: u8) -> u8
    requires { length set.now ≡ set_width sets.now }
    ensures { IsNumberFor sets.now set.now prev result }
{
    match sets.number_near(guess, set, prev) {
        Some(number) => number,
        None => 0,
    }
}

/// What stands before the next byte of the stream that a region is of.
pub(crate) fn prev_behind(region: &[u8]) -> Prev
    requires { 72 ≤ length region.now }
    ensures { result ≡ prev_in region.now }
{
    if offset_in(region) == 0 {
        Prev::Start
    } else {
        Prev::behind(region[LAST_AT])
    }
}

/// The number in the first eight bytes, the low one first.
fn offset_in(region: &[u8]) -> u64
    requires { 8 ≤ length region.now }
    ensures { result ≡ region_offset region.now }
{
    u64::from_le_bytes([
        region[0], region[1], region[2], region[3], region[4], region[5], region[6], region[7],
    ])
}
