//! The runs of a text of the OCaml subset, in any order, and its meaning.
//!
//! Source: the trees of `oc_ast`. Result: the trees of `runs` that they stand for, and laws on them as contracts.
//! Rule: the OCaml manual, chapter 11, with the order of parts left open.
//! Main contract: `any_order`: a text of which each row has one active part at most runs, in any order, as it means.
//! Knows nothing of: how a text is typed or written, Standard ML.
#![tactic(auto)]

mod examples;
mod laws;

pub use examples::{
    arguments_in_order, division_asks_first, dropped_arm_sticks, endless_loop,
    exceptions_are_made_anew, loop_runs, match_is_raised, overflow_is_raised, references_are_cells,
    structures_hold_names, two_prints_differ,
};
pub use laws::{
    any_order, ends_in_each_order, generalised_is_still, goes_on, one_after_another,
    raises_in_each_order,
};
