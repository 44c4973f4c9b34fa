//! Tests of the front: the lexer, the parser of whole sources and the restrictions, one behind the other.
//!
//! Source: texts of Standard ML, most of them in two halves. Result: that a text is accepted, or the code of its refusal and the
//! byte at which it stands.
//! Rule: the expected values are from the grammar and the restrictions of the Definition, by hand.
//! Main contract: `joined`, `repeated` and `nested` are the texts that they say.
//! Knows nothing of: what a source means.
#![tactic(auto)]

#[cfg(test)]
mod answers;
#[cfg(test)]
mod large;
#[cfg(test)]
mod module_productions;
#[cfg(test)]
mod prefixes;
#[cfg(test)]
mod productions;
#[cfg(test)]
mod restricted;
mod source;
#[cfg(test)]
mod sources;

pub use source::{joined, nested, repeated};
