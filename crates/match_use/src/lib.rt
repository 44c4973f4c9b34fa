//! Which rules of a match are reached, and whether the match is exhaustive.
//!
//! Source: the rules of a match, their patterns being of one type. Result: for each rule whether a value reaches it, and
//! whether some rule takes every value.
//! Rule: the Definition, section 4.11, restrictions 2 and 3, over shapes of values; a match that splits too often is
//! left as it is.
//! Main contract: `usefulness`: exact where the count of splits is at most 100,000, and it says whether it is.
//! Knows nothing of: types beyond what a constructor's pattern tells, expressions, warnings.
#![tactic(auto)]

mod agree;
mod column;
mod constructor;
mod head;
mod kept;
mod key;
mod matches;
mod reduce;
mod row;
mod split;
mod typed;
mod walk;

pub use matches::{UseAnswer, usefulness};
pub use typed::are_of_one_type;
pub use walk::SPLITS;
