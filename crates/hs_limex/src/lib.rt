//! The engine of position automata: `Limex` moves by words of bits.
#![tactic(auto)]

mod body;
mod clearing;
mod contexts;
mod far_filling;
mod filling;
mod leading;
mod limex;
mod region_words;
mod single;
mod small;
mod small_filling;
mod tables;
mod word_rows;

pub use clearing::is_clear_from;
pub use limex::Limex;
