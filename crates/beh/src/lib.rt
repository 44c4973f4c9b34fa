//! Behaviours, and what it is for a meaning and the runs of a text to agree.
//!
//! Source: what was seen of a run. Result: whether one behaviour goes on from another.
//! Rule: a behaviour is an output with an end: ended, raised, or more to come.
//! Main contract: `extends`: true exactly where the longer behaviour goes on from the shorter one.
//! Knows nothing of: trees, values, memory, how a step is made.
#![tactic(auto)]

mod behaviour;
mod laws;

pub use behaviour::{Behaviour, Ending, Text, extends};
pub use laws::{Machine, goes_on, over, over_names, same, shifted, through};
