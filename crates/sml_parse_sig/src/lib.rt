//! Parses signature expressions and specifications.
//!
//! Source: the tokens of a source from a place on. Result: the signature or the specifications that begin there, as far as the
//! tokens go on with them.
//! Rule: the Definition, figures 6, 7 and 19; two tokens of view behind `and`; the height of a tree is limited.
//! Main contract: each call gives what the reader of the grammar gives on the list of tokens, unless memory runs out.
//! Knows nothing of: structures, fixities, what a signature means.
#![tactic(auto)]

mod data;
mod desc;
mod first;
mod include;
mod inside;
mod kept;
mod name;
mod parts;
mod real;
mod rows;
mod tree;

pub use first::goes_on;
pub use inside::{Named, enclosed, head, sig_exp, signatures};
pub use name::{is_strid, strid};
pub use real::{Real, Suffix, further_type, suffix, where_type};
pub use tree::{ends_with_where, needed, suffixed};
