//! The typing of the OCaml subset: which phrases have which types, and what items bind.
//!
//! Source: the trees of `oc_ast`. Result: laws on their typing, as contracts.
//! Rule: the OCaml manual, chapter 11: let polymorphism with guessed types, of non-expansive right sides alone.
//! Main contract: `more_is_typed`: what types where names are bound types where more are bound.
//! Knows nothing of: how a text runs, how it is written, Standard ML.
#![tactic(auto)]

mod examples;
mod laws;

pub use examples::{
    cells_are_compared, copy_is_the_same, equations_end, exceptions_type, let_is_general,
    local_type_stays, names_are_bound_once, others_have_one_type, written_scheme_is_general,
};
pub use laws::{
    behind_is_found, more_is_typed, more_stands_behind, one_after_another, path_behind_is_found,
    stamps_only_rise, text_only_grows,
};
