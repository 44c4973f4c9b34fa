//! Decides which types admit equality, and which datatypes of a row do.
//!
//! Source: types and rows of datatypes. Result: an answer, and the type names that admit equality.
//! Rule: the Definition, section 4.4 (types that admit equality) and 4.9 (a row of datatypes admits equality as far as
//! it may).
//! Main contract: `equality_set`: the greatest set of the row's names such that each constructor's argument admits
//! equality, the parameters and the set being supposed to.
//! Knows nothing of: unification, environments, the functions that compare values.
#![tactic(auto)]

mod equality;
mod premises;
mod row;

pub use equality::admits;
pub use row::equality_set;

#[cfg(test)]
mod tests;
