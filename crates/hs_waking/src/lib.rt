//! Where matches may begin in a chunk: a row of sets, of the first byte of a match, of the second and so on, keeps an
//! engine asleep over a chunk in which it fits nowhere behind what may stand before a match, and elsewhere the engine
//! needs to be entered only where it fits. Several rows do so together, where none of them fits and where one does.
//! `behind_of` tells of an automaton what may stand before a match, and `rows_of` gives its row, or one for each
//! position with which a match may begin. `fit_places` tells where a row fits, 64 places at a time, `fits` whether it
//! does somewhere, and `fits_plain` is its slow twin; `Starts` keeps the places of many rows. `laws` says what rows are
//! good for.
#![tactic(auto)]

mod befores;
mod beginning;
mod chunk_places;
mod class_words;
mod fit_stack;
mod fitting;
pub mod laws;
mod levels;
mod low_places;
mod plain;
mod prev_set;
mod row_table;
mod rows;
mod starts;
#[cfg(test)]
mod tests;
mod wake_row;

pub use befores::behind_of;
pub use beginning::{Beginning, BeginningRows, Beginnings};
pub use chunk_places::{ALL_PLACES, NO_PLACES, Places, is_none};
pub use class_words::{ClassWords, MAX_CHUNK};
pub use fit_stack::FitStack;
pub use fitting::{fit_places, fits};
pub use plain::fits_plain;
pub use prev_set::PrevSet;
pub use row_table::RowTable;
pub use rows::{MAX_ROW, MAX_ROWS, rows_of};
pub use starts::Starts;
pub use wake_row::WakeRow;
