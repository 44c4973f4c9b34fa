//! Reads a source as tokens, each with its place.
//!
//! Source: the bytes of one Standard ML source. Result: a row of `Token`, the last of which is `End`.
//! Rule: the Definition, chapter 2, in this project's ranges and escapes.
//! Main contract: `lex`: Ok exactly where the bytes are tokens, and else the first place where none is.
//! Knows nothing of: grammar, fixities, scopes.
#![tactic(auto)]

mod class;
mod comment;
mod literal;
mod name;
mod number;
mod places;
mod scanner;
mod source;
mod step;
mod token;

pub use source::lex;
pub use token::{Kind, Token, Tokens};
