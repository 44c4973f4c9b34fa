//! Parses the parts of declarations that hold no expressions.
//!
//! Source: the tokens of a source from a place on. Result: bindings of types, datatypes and exceptions, directives, `open`, and
//! the fronts of clauses.
//! Rule: the Definition, figures 4, 15 and 17; two tokens of view before type variables; the height of a tree is limited.
//! Main contract: each call gives what the reader of the grammar gives on the list of tokens, unless memory runs out.
//! Knows nothing of: expressions, which directives are in force, what a declaration means.
#![tactic(auto)]

mod constructor;
mod copying;
mod datbind;
mod directives;
mod exbind;
mod first;
mod head;
mod name;
mod option;
mod pats;
mod type_bind;
mod vars;

pub use copying::datatype;
pub use datbind::{Datatypes, abstract_types};
pub use directives::{directive, opens, plain_directive};
pub use exbind::exceptions;
pub use first::{begins_head, begins_vars, begins_vid, goes_in_con, goes_on};
pub use head::{Head, clause_front};
pub use name::{
    any_vid, is_any_vid, is_long_strid, is_tycon, long_strid, next_operator, operator, tycon,
};
pub use option::{first_place, higher, listed};
pub use type_bind::{tybind, types};
pub use vars::{under_by, under_one, under_two, variables};
