//! Tables of byte strings in order, and the three tables of words.
//!
//! Source: rows of a key and a value, written in the code. Result: a `Table`, by which a key is looked up.
//! Rule: the reserved words of the Definition, sections 2.1 and 3.1, and those of the OCaml manual.
//! Main contract: `Table::find` is the look-up in the list of rows.
//! Knows nothing of: tokens, names, memory.
#![tactic(auto)]

mod row;
mod table;
mod words;

pub use row::Row;
pub use table::Table;
pub use words::{oc_words, sml_words, symbols};
