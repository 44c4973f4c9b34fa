//! The grammar of Standard ML sees the directives in force only as the fixities that they leave.
//!
//! Source: two lists of directives that leave the same fixities. Result: the same programs, and the same fixities behind each.
//! Rule: the Definition, section 2.6: an infix directive gives an identifier its status, whatever it had before.
//! Main contract: `programs_by_fixities` and `left_by_fixities`, laws without code.
//! Knows nothing of: how fixities are kept, memory, how tokens are read.
#![tactic(auto)]

mod laws;

pub use laws::{left_by_fixities, programs_by_fixities, refused_by_fixities};
