//! Tests of the lexer: sources with their tokens, or with the code and the place where they are refused.
//!
//! Source: none. Result: none but two makers of sources; the crate holds tests, so that the lexer is not proved twice.
//! Rule: the Definition, chapter 2, and by hand from this project's ranges and escapes.
//! Main contract: `damaged`, `around`: the sources made are the ones that the tests mean.
//! Knows nothing of: grammar.
#![tactic(auto)]

#[cfg(test)]
mod cases;
#[cfg(test)]
mod damage;
#[cfg(test)]
mod escapes;
#[cfg(test)]
mod lengths;
#[cfg(test)]
mod shown;
mod sources;

pub use sources::{around, damaged};
