//! Parses expressions, matches and core declarations.
//!
//! Source: the tokens of a source from a place on, and the directives in force. Result: the expression or the declaration that
//! begins there, as far as the tokens go on with it, and the directives in force behind it.
//! Rule: the Definition, figures 4, 15 and 17 and section 2.6, with parentheses and rows kept as written; the height of a tree
//! is limited.
//! Main contract: `exp` and `dec` give what the readers of the grammar give on the list of tokens, unless memory runs out; an
//! expression leaves the directives as they were, a declaration adds its own.
//! Knows nothing of: structures, signatures, what an expression means.
#![tactic(auto)]

mod atom;
mod bindings;
mod clause;
mod declaration;
mod decs;
mod far;
mod first;
mod fun_tree;
mod inside;
mod matches;
mod operators;
mod row;
mod suffix;
mod tall;
mod tree;

pub use inside::{dec, exp};
pub use tall::{Ends, Reach, Tall};
