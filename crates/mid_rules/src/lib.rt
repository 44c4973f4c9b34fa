//! The meaning of the typed trees between elaboration and printing.
//!
//! Source: the units of `mid_ast`. Result: the trees of `runs` that they stand for, and laws on them as contracts.
//! Rule: the Definition, chapters 6 and 7, on trees whose paths, binders and dictionaries are written out.
//! Main contract: `agrees_through`: what matches the meaning of units agrees with the runs with which it agrees.
//! Knows nothing of: types, but what a constructor and an equality are; how a text runs.
#![tactic(auto)]

mod examples;
mod laws;
mod rows;

pub use examples::{
    bindings_are_together, dictionaries_test, division_means, exceptions_mean, failures_raise,
    functions_mean, references_mean,
};
pub use laws::{agrees_through, goes_on, one_after_another, still_by_form};
pub use rows::{checked_negations, checked_quotients, checked_sums, comparisons, simple_rows};
