//! What form alone forbids in a source.
//!
//! Source: a `Program`. Result: nothing, or the refusal of the first phrase that breaks a rule.
//! Rule: the Definition, sections 2.9, 3.5 and 4.6, as codes 13 to 17 say.
//! Main contract: `restrict` is Ok exactly where nothing breaks a rule, and else answers `Breaks` of `specs/Programs.antt`.
//! Knows nothing of: fixities, environments, types of expressions.
#![tactic(auto)]

mod function;
mod inner;
mod phrase;
mod program;
mod sig;
mod uses;

pub use program::restrict;
