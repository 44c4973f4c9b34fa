//! Tests of unification: pairs of types with the type that they become, or that clash.
//!
//! Source: none. Result: types for the tests; else this crate holds tests alone, so that unification is not proved twice.
//! Rule: the Definition, section 4.2, and by hand.
//! Main contract: of each function of `types`, which type it makes; `is_over`: over which nodes a type is.
//! Knows nothing of: how a store is kept.
#![tactic(auto)]

#[cfg(test)]
mod joins;
pub mod two_nodes;
pub mod types;
