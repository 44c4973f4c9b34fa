//! The table of derived forms, and tests.
//!
//! Source: none. Result: none; this crate holds laws and tests alone, so that derived forms are not proved twice.
//! Rule: the Definition, appendix A.
//! Main contract: each function of `phrases` and `modules` has rows of the table: a form and what stands beside it there are
//! one tree without derived forms.
//! Knows nothing of: how a tree is walked.
#![tactic(auto)]

#[cfg(test)]
mod answers;
pub mod modules;
pub mod phrases;
