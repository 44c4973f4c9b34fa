//! Parses structures, functors and whole sources.
//!
//! Source: the tokens of a source, and the fixities in force before it. Result: the program that they are, and the fixities in
//! force behind it.
//! Rule: the Definition, figures 6 to 8, 18 and 19 and section 2.6; two tokens of view behind `and`; the height of a tree is at
//! most 1,000.
//! Main contract: `parse`: Ok exactly where the tokens are a program, and then the one that they are; else the refusal of the
//! first token with which no program goes on, with the code that says why, or of the first phrase that is not supported.
//! Knows nothing of: what a program means, how tokens are found in a text.
#![tactic(auto)]

mod ascription;
mod bindings;
mod declaration;
mod decs;
mod first;
mod functors;
mod growing;
mod inside;
mod late;
mod program;
mod source;
mod structure;
mod top;
mod tree;
mod turn;

pub use inside::{base, strdec};
pub use source::parse;
