//! The rules of the OCaml subset: what a text is, and which values OCaml gives.
//!
//! Source: bytes, and plain trees of oc_ast. Result: definitions, and the rows of the predefined values.
//! Rule: the OCaml manual, sections 11.1 to 11.11, and its standard library, as far as the subset goes.
//! Main contract: `value_row` numbers the predefined values; `Reads` of specs/ says that bytes are a tree's text.
//! Knows nothing of: how a text is laid out or made.
#![tactic(auto)]

mod values;

pub use values::value_row;
