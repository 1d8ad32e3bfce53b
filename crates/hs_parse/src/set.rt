//! Tests of a character, and sets of the bytes that pass one.
ghost use Rattle.std.specs.Prelude.{◌≡◌, ℕ, ◌+◌, ◌<◌, ◌==◌, ◌&&◌, ◌||◌, nat_lt, if◌then◌else◌};
ghost use Rattle.hs_base.specs.ByteSets.{has, members};
ghost use Rattle.hs_parse.specs.Classes.{other_case, is_within, is_of_class, passes, bytes_of};
ghost use Rattle.hs_parse.specs.Tokens.{any_byte};

use crate::named_set::named_set;
use hs_base::ByteSet;
use hs_syntax::Named;

/// Which bytes a `.`, a character, a range or a class has; in UTF-8, which code points.
#[derive(Clone, Copy)]
pub(crate) enum Test {
    /// All, or where the truth value doesn't say so all but the line feed.
    Any(bool),
    /// From the first to the last, which may be the same; where the truth value says so, in both cases.
    Range(bool, u32, u32),
    /// Those of the class, or those that it hasn't.
    Class(Named, bool),
}

/// The same letter in the other case; another byte is itself.
#[tactic(auto, unfolding(crate::specs::Classes::other_case))]
fn other_case(byte: u8) -> u8
    ensures { result ≡ other_case byte }
{
    match byte {
        b'A'..=b'Z' => byte + 32,
        b'a'..=b'z' => byte - 32,
        _ => byte,
    }
}

/// Adds the bytes that pass the test. No byte is asked whether it passes: most ranges are short, and named classes are
/// constants or a few ranges.
pub(crate) fn insert_where(set: &mut ByteSet, test: Test)
    ensures { (b : ℕ) → b < 256 → has set.new b ≡ (passes test b || has set.old b) }
{
    match test {
        Test::Any(dotall) => *set = any_byte(dotall).union(set),
        Test::Range(caseless, first, last) => insert_range(set, caseless, first, last),
        Test::Class(class, negated) => *set = class_set(class, negated).union(set),
    }
}

/// Adds the bytes of a range, where the truth value says so in both cases.
pub(crate) fn insert_range(set: &mut ByteSet, caseless: bool, first: u32, last: u32)
    ensures { (b : ℕ) → b < 256 → has set.new b ≡ (is_within caseless first last b || has set.old b) }
{
    for code in first..behind(last) {
        insert_letter(set, caseless, code as u8);
    }
}

/// Where the bytes of a range end that has this last code.
fn behind(last: u32) -> u32
    ensures { result ≡ (if nat_lt last 256 then last + 1 else 256) }
{
    if last < 256 { last + 1 } else { 256 }
}

/// Adds a byte, where the truth value says so in both cases.
fn insert_letter(set: &mut ByteSet, caseless: bool, byte: u8)
    ensures { (b : ℕ) → b < 256 →
        has set.new b ≡ (((b == byte) || (caseless && (other_case b == byte))) || has set.old b) }
{
    set.insert(byte);
    if caseless {
        set.insert(other_case(byte));
    }
}

/// The bytes of the class, or those that it hasn't.
fn class_set(class: Named, negated: bool) -> ByteSet
    ensures { (b : ℕ) → b < 256 → has result b ≡ is_of_class class negated b }
{
    if negated {
        named_set(class).complement()
    } else {
        named_set(class)
    }
}

/// The bytes that pass the test.
pub(crate) fn set_where(test: Test) -> ByteSet
    ensures { members result ≡ bytes_of test }
{
    let mut set = ByteSet::EMPTY;
    insert_where(&mut set, test);
    set
}

/// What `.` takes.
pub(crate) fn any_byte(dotall: bool) -> ByteSet
    ensures { members result ≡ any_byte dotall }
{
    if dotall {
        ByteSet::ALL
    } else {
        ByteSet::NOT_NEWLINE
    }
}
