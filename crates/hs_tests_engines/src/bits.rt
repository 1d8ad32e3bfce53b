//! Bits in rows of bytes and of words. It is `#[cfg(test)]`.
use hs_bits::{
    clear_bits, contains_bit, insert_bit, is_unset, is_zero, lowest_bit, next_bit_in,
    next_bit_in_either, unite_bytes, without_lowest_bit, word_at, word_count_for, write_word_bit,
};

/// A word, its lowest bit, and the word without it.
#[test]
fn takes_the_bits_of_a_word_in_turn(rt: HostRuntime) {
    let table = [
        (1u64, 0, 0u64),
        (0b1010_0100, 2, 0b1010_0000),
        (1 << 63 | 1 << 40, 40, 1 << 63),
        (1 << 63, 63, 0),
    ];
    for (word, place, rest) in table {
        assert_eq!(rt; lowest_bit(word), place);
        assert_eq!(rt; without_lowest_bit(word), rest);
    }
}

#[test]
fn the_lowest_bit_of_a_byte_comes_first(rt: HostRuntime) {
    let mut bytes = [0u8; 3];
    insert_bit(&mut bytes, 0);
    insert_bit(&mut bytes, 11);
    assert_eq!(rt; bytes, [0x01, 0x08, 0x00]);
    assert!(rt; contains_bit(&bytes, 11) && !contains_bit(&bytes, 3) && !is_zero(&bytes));
    clear_bits(&mut bytes);
    assert!(rt; is_zero(&bytes));
}

/// Each bit of either row, up to the last.
#[test]
fn finds_each_bit_at_the_edges_of_words(rt: HostRuntime) {
    let words = [1u64 << 63, 0, 4];
    let row = [1u64, 1 | 1 << 63, 3];
    let table = [
        (0, 0),
        (1, 63),
        (63, 63),
        (64, 64),
        (65, 127),
        (127, 127),
        (128, 128),
        (129, 129),
        (130, 130),
    ];
    for (from, wanted) in table {
        assert_eq!(rt; next_bit_in_either(&words, &row, from, 131), Some(wanted));
    }
    assert_eq!(rt; next_bit_in_either(&words, &row, 130, 130), None);
    assert_eq!(rt; next_bit_in_either(&words, &row, 131, 131), None);
    assert_eq!(rt; next_bit_in(&words, 64, 131), Some(130));
    assert_eq!(rt; next_bit_in(&row, 65, 127), None);
}

#[test]
fn the_lowest_bit_of_a_word_comes_first(rt: HostRuntime) {
    let mut words = [0u64; 3];
    for bit in [0, 63, 64, 130] {
        write_word_bit(&mut words, bit, true);
    }
    write_word_bit(&mut words, 63, false);
    write_word_bit(&mut words, 129, false);
    assert_eq!(rt; words, [1, 1, 4]);
    assert!(rt; !is_unset(&words) && is_unset(&[0, 0]));
}

#[test]
fn the_low_byte_of_a_word_comes_first(rt: HostRuntime) {
    let bytes = [0x01u8, 0x02, 0, 0, 0, 0, 0, 0x80, 0x04, 0x08];
    assert_eq!(rt; word_at(&bytes, 0), 0x8000_0000_0000_0201);
    assert_eq!(rt; word_at(&bytes, 2), 0x0804_8000_0000_0000);
    let mut words = [0x10u64, 0];
    unite_bytes(&mut words, &bytes);
    assert_eq!(rt; words, [0x8000_0000_0000_0211, 0x0804]);
}

#[test]
fn words_hold_a_bit_for_each(rt: HostRuntime) {
    for (count, wanted) in [(0, 0), (1, 1), (64, 1), (65, 2), (65_536, 1024)] {
        assert_eq!(rt; word_count_for(count), wanted);
    }
}
