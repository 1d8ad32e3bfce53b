//! The least place of a byte of a set, beside a plain search. It is `#[cfg(test)]`.
use hs_accel::next_in;
use hs_base::ByteSet;

/// A set of these bytes.
fn set_of(members: &[u8]) -> ByteSet {
    let mut set = ByteSet::EMPTY;
    for byte in members {
        set.insert(*byte);
    }
    set
}

/// Sets of 0, 1, 2, 3, 4, 100 and 256 bytes, the hundred as far apart as they can be, each with a byte that is a member
/// where one is.
fn sets() -> [(ByteSet, u8); 7] {
    let mut hundred = ByteSet::EMPTY;
    for half in 0u8..100 {
        hundred.insert(half * 2);
    }
    [
        (ByteSet::EMPTY, 7),
        (set_of(&[7]), 7),
        (set_of(&[200, 8]), 200),
        (set_of(&[255, 6, 0]), 255),
        (set_of(&[7, 255, 8, 0]), 8),
        (hundred, 198),
        (ByteSet::ALL, 7),
    ]
}

/// The place as one loop finds it.
fn expected(set: &ByteSet, bytes: &[u8], from: usize) -> Option<usize> {
    for (at, byte) in bytes.iter().enumerate() {
        if at >= from && set.contains(*byte) {
            return Some(at);
        }
    }
    None
}

/// A text with a member at five places, and 201 at all others.
fn text_with(member: u8) -> [u8; 264] {
    let mut text = [201; 264];
    for place in [3, 68, 131, 199, 263] {
        text[place] = member;
    }
    text
}

/// Whether each answer for these bytes is the expected one.
fn agrees(set: &ByteSet, bytes: &[u8]) -> bool {
    for from in [0, 1, 4, 63, 64, 69, 132, 200, usize::MAX] {
        if next_in(set, bytes, from) != expected(set, bytes, from) {
            return false;
        }
    }
    true
}

#[test]
fn finds_the_least_place_at_each_length_and_alignment(rt: HostRuntime) {
    for (set, member) in sets() {
        let text = text_with(member);
        for start in 0..64 {
            for length in 0..201 {
                assert!(rt;
                    agrees(&set, &text[start..start + length]),
                    "{length} bytes from {start}, {member}"
                );
            }
        }
    }
}

#[test]
fn finds_nothing_behind_the_end(rt: HostRuntime) {
    assert_eq!(rt; next_in(&ByteSet::ALL, b"", 0), None);
    assert_eq!(rt; next_in(&ByteSet::ALL, b"ab", 2), None);
    assert_eq!(rt; next_in(&ByteSet::ALL, b"ab", 1), Some(1));
}
