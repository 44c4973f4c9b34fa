//! That bytes are the text of one tree of the OCaml subset at most.
//!
//! Source: bytes. Result: a law over `Reads` of oc_rules.
//! Rule: the grammar of oc_rules, read by a decoder that exists in proofs alone.
//! Main contract: `one_text`.
//! Knows nothing of: layout, types, what a text does.
#![tactic(auto)]

mod law;

pub use law::one_text;
