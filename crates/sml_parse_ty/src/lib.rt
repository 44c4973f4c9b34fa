//! Parses types.
//!
//! Source: the tokens of a source from a place on. Result: the type that begins there, as far as the tokens go on with it.
//! Rule: the Definition, figure 3, with tuple types; the height of a tree is limited.
//! Main contract: `parse_ty`: Ok exactly where the tokens before the first with which no type goes on are a type; else the
//! refusal of that token, with the code that says why.
//! Knows nothing of: patterns, expressions, declarations, what a type means.
#![tactic(auto)]

mod inside;
mod parse;
mod tree;

pub use parse::{parse_ty, ty};

#[cfg(test)]
mod tests;
