//! The names of Standard ML as OCaml writes them.
//!
//! Source: one part of an identifier and its kind. Result: a name of OCaml.
//! Rule: the Definition, section 2.4, for what comes in; the OCaml manual, on names, for what goes out.
//! Main contract: `mangle`: one spelling for each name, and unlike names keep unlike spellings.
//! Knows nothing of: scopes, paths, what a name stands for.
#![tactic(auto)]

mod names;
mod tables;

pub use names::{NameKind, mangle};
