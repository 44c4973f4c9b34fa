//! A typed text of the OCaml subset never comes where there is no rule.
//!
//! Source: the typing of texts of `oc_typing`, and the trees of runs that texts stand for, of `oc_steps`. Result: laws
//! that the trees are typed as `run_types` has it, as contracts.
//! Rule: type soundness: a type of a text is a type of its evaluation, at each choice of types for its variables.
//! Main contract: `typed_any_order`: a typed and secure text runs, in any order of its arguments, as it means.
//! Knows nothing of: how a text is written, Standard ML.
#![tactic(auto)]

mod examples;
mod laws;

pub use examples::{nested_arms_take_shapes, sample_runs, typed_may_go_wrong};
pub use laws::{
    typed_any_order, typed_behind, typed_expression, typed_never_wrong, typed_row, types_are_meant,
};
