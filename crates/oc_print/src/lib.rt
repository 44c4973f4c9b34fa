//! Lays out a tree of the OCaml subset as bytes.
//!
//! Source: a `Text` of oc_ast that the grammar and its rules allow. Result: its bytes.
//! Rule: the OCaml manual, chapter 11, for the tokens; the layout is this project's own.
//! Main contract: `print`: the bytes are `Layout` of the tree.
//! Knows nothing of: types, scopes, what a text does.
#![tactic(auto)]

mod expressions;
mod literal;
mod names;
mod patterns;
mod pen;
mod signatures;
mod text;
mod types;

pub use text::print;
