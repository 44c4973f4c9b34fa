//! Tokens as the parser looks at them: whether the next one is of a kind, and what it shows.
//!
//! Source: the tokens that are left. Result: a test, or what the first token shows and the tokens behind it.
//! Rule: the words, the classes of identifiers and the labels of the grammar.
//! Main contract: each call gives what the reader of the grammar gives on the list of tokens, unless memory runs out.
//! Knows nothing of: trees, phrases of more than one token, how operators group.
#![tactic(auto)]

mod class;
mod height;
mod name;
mod refused;
mod set;
mod vid;
mod word;

pub use class::{
    ALPHA, DIGIT, LITERAL, LONG_ALPHA, LONG_STAR, LONG_SYMBOL, NUMBER, STAR, SYMBOL, ZERO,
};
pub use height::above;
pub use name::{
    behind_times, is_label, is_long_tycon, is_times, is_tyvar, long_tycon, record_label,
    type_variable,
};
pub use refused::fault;
pub use set::{is_among, is_in};
pub use vid::{
    constant, fixity_of, infix_vid, is_constant, is_long_vid, is_other_label, long_vid,
    next_fixity, op_long_vid, other_label, vid_or_label,
};
pub use word::{behind, is_next, place_of};
