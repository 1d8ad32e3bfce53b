//! Bits in rows of bytes and of words: single ones, ranges, the lowest and the next one, and whole rows at once;
//! numbers that are marked; a hash of bytes; and the places of a block of up to 64 bytes as the bits of a word: where
//! members of a set stand, and in which contexts.
#![tactic(auto)]

mod bytes;
mod contexts;
mod hashing;
mod lowest;
mod marks;
mod masks;
mod members;
mod next;
mod places;
mod ranges;
mod rows;
mod runs;
mod words;
mod zeros;

pub use bytes::{
    BYTE_BITS, clear_bits, clear_live, contains_bit, insert_bit, is_zero, unite_bits, write_bit,
};
pub use contexts::Contexts;
pub use hashing::hash_of;
pub use lowest::{lowest_bit, without_lowest_bit};
pub use marks::MarkSet;
pub use masks::{contexts_of, in_all_contexts};
pub use members::member_places;
pub use next::{next_bit_in, next_bit_in_either};
pub use places::{
    contains_place, count_places, low_places, next_place, one_later, only_if, place_count,
    with_place,
};
pub use ranges::{has_bit_in, has_bit_round};
pub use rows::{load, place_in};
pub use runs::{row_word, spread};
pub use words::{
    WORD_BITS, WORD_BYTES, are_apart, clear_words, contains_word_bit, insert_word_bit, is_unset,
    keep_words, put_word_bit, shift_in, store, unite_bytes, unite_words, word_at, word_count_for,
    write_word_bit,
};
pub use zeros::{SPAN_BYTES, is_zero_span};
