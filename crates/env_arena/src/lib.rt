//! Environments as trees in an arena.
//!
//! Source: an `Env`, which owns its parts. Result: an `EnvNode` that stands for it, of numbers, slices and references.
//! Rule: the Definition, section 4.2 and 4.3: environments, one over another, long identifiers.
//! Main contract: `put` and `plain`: a node stands for the environment that it spells.
//! Knows nothing of: expressions, signatures' matching, who binds what.
#![tactic(auto)]

mod find;
mod flat;
mod join;
mod look_up;
mod names;
mod node;
mod plain_env;
mod plain_types;
mod put_env;
mod put_types;
mod row;
#[cfg(test)]
mod tests;

pub use join::joined;
pub use look_up::{lookup, lookup_str, lookup_ty, str_along, tycon_along, val_along};
pub use node::{EnvNode, FieldNode, SigNode, StrNode, TyNode, TypeNode, ValNode};
pub use plain_env::plain;
pub use put_env::put;
