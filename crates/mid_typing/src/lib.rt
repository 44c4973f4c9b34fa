//! The typing of the typed trees between elaboration and printing.
//!
//! Source: the units of `mid_ast`. Result: laws on their typing, as contracts.
//! Rule: the Definition, chapters 4 and 5, on trees whose types, binders, paths and dictionaries are written out.
//! Main contract: `more_is_typed`: what types where names are bound types where more are bound.
//! Knows nothing of: how types are found, how anything is evaluated or written.
#![tactic(auto)]

mod examples;
mod laws;
mod refused;

pub use examples::{
    cells_have_one_type, constructors_are_matched, equality_has_dictionaries, exceptions_type,
    let_is_general, paths_are_read, units_follow,
};
pub use laws::{
    behind_is_found, general_is_not_expansive, more_is_typed, more_stands_behind,
    number_and_path_agree, one_after_another, type_names_only_rise, typed_is_type,
};
pub use refused::{
    functions_have_no_equality, others_have_one_type, profile_refuses, types_are_written_rightly,
};
