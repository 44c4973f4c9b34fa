//! The grammar of Standard ML on lists of tokens: which trees derive which tokens, and how they are read.
//!
//! Source: the Definition, figures 3 to 8 and 15 to 19. Result: for each nonterminal the relation between its trees, with
//! their heights, and the tokens that they derive; and the reader of it.
//! Rule: one token of view; the fixities in force are a parameter.
//! Main contract: laws without code, of types and of patterns.
//! Knows nothing of: expressions, declarations, structures, memory, how tokens are made from bytes.
#![tactic(auto)]

mod laws;

pub use laws::{one_pattern, one_type, patterns_exactly, types_exactly, types_front};
