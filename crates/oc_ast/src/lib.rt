//! The trees of the OCaml subset that is written.
//!
//! Source: nothing. Result: one enum for each nonterminal of the subset's grammar.
//! Rule: the OCaml manual, part II, as far as the subset goes; each variant has its text beside it.
//! Main contract: `plain_text` of `specs/View.antt` is a tree without pointers, of which definitions speak.
//! Knows nothing of: how a tree is laid out, typed or run.
#![tactic(auto)]

mod expression;
mod literal;
mod pattern;
mod rest;
mod signature;
mod types;

pub use expression::{Atom, Full, Item, MExp, RBind, Simple, Text};
pub use literal::OcLit;
pub use pattern::{APat, Pat};
pub use rest::Rest;
pub use signature::{MSig, SItem};
pub use types::{ATy, OTy, TDef};
