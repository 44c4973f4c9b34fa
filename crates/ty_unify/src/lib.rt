//! Joins types by unification, with kinds of variables, labels of records and names of types.
//!
//! Source: nodes of a store, each a type of which a part may be unknown. Result: the store with two of them equal.
//! Rule: the Definition, section 4.2: types are equal where a substitution makes them so; an equality variable
//! stands for types that admit equality.
//! Main contract: `Store::unify`: Ok keeps exactly the solutions in which the two nodes are equal, and there are such;
//! Clash comes exactly where there is none.
//! Knows nothing of: environments, schemes, phrases, how overloading is settled.
#![tactic(auto)]

mod attempt;
mod build;
mod cell;
mod join;
mod late;
mod node;
mod read;
mod solve;
mod store;
mod walk;

pub use late::Late;
pub use node::{Node, UnifyFault};
pub use store::Store;
