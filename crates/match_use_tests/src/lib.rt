//! Tests of the usefulness of rules: small matches of all forms, with what is known of them by hand.
//!
//! Source: none. Result: patterns for the tests; else this crate holds tests alone, so that usefulness is not proved twice.
//! Rule: the Definition, section 4.11, restrictions 2 and 3, and by hand.
//! Main contract: of each function of `pattern`, which pattern it makes.
//! Knows nothing of: how a match is looked at.
#![tactic(auto)]

#[cfg(test)]
mod matches;
pub mod pattern;
#[cfg(test)]
mod written;
