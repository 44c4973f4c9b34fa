//! Tests of the parsers of patterns, of expressions, of declarations and of signatures, kept apart so that their crates
//! are proved once.
//!
//! Source: texts of Standard ML, each in two halves. Result: that the call stops where the second half begins, with a tree or with
//! the code of a refusal; to which side rows group, and the directives in force behind a declaration.
//! Rule: the expected values are from the grammar, by hand.
//! Main contract: `joined` is the halves, one behind the other; `stands_at` tells whether the tokens left begin at a byte.
//! Knows nothing of: what a source means.
#![tactic(auto)]

#[cfg(test)]
mod answers;
#[cfg(test)]
mod declarations;
#[cfg(test)]
mod expressions;
#[cfg(test)]
mod parts;
#[cfg(test)]
mod patterns;
#[cfg(test)]
mod signatures;
mod source;

pub use source::{joined, stands_at};
