//! The fixity directives in force, with scopes that can be left.
//!
//! Source: the directives of a source, one after another. Result: the fixities that they leave, at each point.
//! Rule: the Definition, section 2.6: a directive holds to the end of the `let`, `local` or structure in which it stands;
//! one behind the `in` of a `local` holds as if it stood in the place of the `local`.
//! Main contract: `Scope` is its row of directives, from those of the start on: `note` adds one, `leave` takes off those of a
//! scope, `leave_local` those before an `in`, and `fixities` are what the row says.
//! Knows nothing of: tokens, trees, which directives there are.
#![tactic(auto)]

mod change;
mod scope;

pub use scope::Scope;

#[cfg(test)]
mod tests;
