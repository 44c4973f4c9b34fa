//! Fixities, and how rows of atoms and operators group by them.
//!
//! Source: rows of `Part`. Result: a `Group`, the one tree that the infix rules give.
//! Rule: the Definition, section 2.6; operators that bind equally tight and not to one side may not be neighbours.
//! Main contract: `resolve` gives the one grouping of a row, and refuses at the first part with which none goes on.
//! Knows nothing of: tokens, scopes, what an operator means.
#![tactic(auto)]

mod fixities;
mod grouping;
mod row;

pub use fixities::{Fixities, Side};
pub use grouping::resolve;
pub use row::{Group, Part};

#[cfg(test)]
mod tests;
