//! Exact readers: how phrases are read from the left, and what is promised of the tree and of a refusal.
//!
//! Source: a list of tokens of any kind. Result: readers made from one another, each with the language that it reads.
//! Rule: a tree of limited height is read with one token of view; infix rows group as in the Definition, section 2.6.
//! Main contract: a reader that is made by these combinators reads its language exactly: one tree for a list of tokens, and
//! refusals at the first token with which nothing goes on, with the code that says why.
//! Knows nothing of: which tokens there are, which grammar is read, how trees are laid out.
#![tactic(auto)]

mod code;
mod fault;
mod floor;

pub use code::Code;
pub use fault::{ReadError, at_end, refusal};
pub use floor::{Fixity, Floor, judge};
