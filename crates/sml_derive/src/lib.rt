//! Takes derived forms out of sources.
//!
//! Source: a `Program`. Result: its `BareProgram`, in which rows stand in the place of long chains.
//! Rule: the Definition, appendix A. What is taken over keeps its place; what is new has the place of the form.
//! Main contract: `derive` gives `Derived` of `specs/Programs.antt`, or there is no memory.
//! Knows nothing of: which sources are lawful, types, scopes.
#![tactic(auto)]

mod functors;
mod phrases;
mod program;
mod rows;
mod sig;
mod spec;
mod structures;

pub use program::derive;
