//! Parses patterns.
//!
//! Source: the tokens of a source from a place on. Result: the pattern that begins there, as far as the tokens go on with it.
//! Rule: the Definition, figure 3 and section 2.6, with parentheses and rows kept as written; the height of a tree is limited.
//! Main contract: `parse_pat`: Ok exactly where the tokens before the first with which no pattern goes on are a pattern that
//! this token may follow; else the refusal of that token, with the code that says why.
//! Knows nothing of: expressions, declarations, how fixities change, what a pattern means.
#![tactic(auto)]

mod atom;
mod field;
mod first;
mod inside;
mod parse;
mod row;
mod tree;

pub use first::{begins_at, begins_name};
pub use inside::{at_pat, pat};
pub use parse::parse_pat;
pub use row::name;
