//! Takes derived forms out of expressions and declarations.
//!
//! Source: `AtExp`, `Exp`, `Rule`, `Dec`, `Clause`. Result: their `Bare` trees.
//! Rule: the Definition, appendix A, figures 15 and 17, one level after the other from the innermost out.
//! Main contract: `derive_exp` and `derive_dec` give the trees that `specs/Declarations.antt` folds from their arguments.
//! Knows nothing of: structures, which sources are lawful.
#![tactic(auto)]

mod clauses;
mod exp;
mod phrases;

pub use exp::{derive_dec, derive_exp};
