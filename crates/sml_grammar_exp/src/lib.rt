//! The grammar of the expressions and core declarations of Standard ML on lists of tokens.
//!
//! Source: the Definition, figures 4, 15 and 17. Result: for each nonterminal the relation between its trees, with their
//! heights and how they end, and the tokens that they derive; and the reader of it.
//! Rule: one token of view, two behind `val` and `fun`; the directives in force are a parameter, and a scope leaves those
//! of its end.
//! Main contract: laws without code, of expressions and of declarations.
//! Knows nothing of: structures, signatures, memory, how tokens are made from bytes.
#![tactic(auto)]

mod laws;

pub use laws::{
    declarations_exactly, declarations_front, expressions_exactly, expressions_front,
    one_declaration, one_expression,
};
