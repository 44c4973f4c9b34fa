//! The grammar of signatures of Standard ML on lists of tokens: which trees derive which tokens, and how they are read.
//!
//! Source: the Definition, figures 5 to 7 and 19. Result: for signature expressions and specifications the relation between
//! their trees, with their heights, and the tokens that they derive; and the reader of it.
//! Rule: one token of view, and behind `and` a second one; fixities play no part.
//! Main contract: laws without code, of signature expressions and specifications.
//! Knows nothing of: expressions, structures, what a signature means, memory, how tokens are made from bytes.
#![tactic(auto)]

mod laws;

pub use laws::{one_row, one_signature, rows_exactly, signatures_exactly, signatures_front};
