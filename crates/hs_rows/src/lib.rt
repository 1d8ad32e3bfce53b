//! Rows of tests as text: a table of them is one constant, which is cut where it is read, and costs a proof nothing.
//! Only tests read them. `rows` and `list_rows` are those of whole runs of the program,
//! `stream_rows` those of lists over streams.
//!
//! - A row is a line, with each further line that begins with a blank. Lines that begin with `#` aren't read.
//! - What is wanted stands behind an `=` with which a word begins.
//! - Words stand apart by blanks. A word that begins with `<` goes on to a `>` that ends it.
//! - In a text `;` is a line feed, `%` and two digits of 16 are one byte, `%(100)` is a hundred times the byte
//!   behind, and `~` is a cut into pieces. It may go on behind the blank of the next line.
#![tactic(auto)]

mod cutting;
pub mod list_rows;
pub mod rows;
pub mod stream_rows;
mod text;

pub use cutting::{Row, rows_of, words_of};
pub use text::{Text, number_of, text_of};
