//! Environments with an index, in which a name is found at once.
//!
//! Source: nodes of environments. Result: a `Scope`: a node, and a tree that leads from each name to its newest binding.
//! Rule: the Definition, section 4.3: environments, one over another, long identifiers.
//! Main contract: `extended`: the scope with another environment over it; `scope_val` and its like: its look-ups.
//! Knows nothing of: expressions, who binds what, when a scope ends.
#![tactic(auto)]

mod add;
mod binding;
mod extend;
mod insert;
mod look_up;
mod number;
mod scope;
#[cfg(test)]
mod tests;
mod tree;

pub use extend::{empty_scope, extended};
pub use look_up::{scope_str, scope_ty, scope_val};
pub use scope::Scope;
pub use tree::{Binding, Tree};
