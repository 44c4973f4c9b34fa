//! What the derived forms of expressions, functions and datatypes stand for.
//!
//! Source: the parts of a form, which have no derived forms any more. Result: the `Bare` tree that the form stands for.
//! Rule: the Definition, appendix A, figures 15 to 17. What is new stands at the place of the form.
//! Main contract: each function gives the tree that `specs/` has for its form.
//! Knows nothing of: how a tree is walked, structures, which sources are lawful.
#![tactic(auto)]

mod arguments;
mod choices;
mod clause;
mod datatypes;
mod functions;
mod loops;
mod phrases;
mod rows;

pub use choices::{both, case_of, choice, either, pick};
pub use clause::BareClause;
pub use datatypes::{derive_datas, derive_hidden};
pub use functions::function;
pub use loops::repeat;
pub use phrases::{atom, sequence, unit};
pub use rows::{number_exps, one, two};
