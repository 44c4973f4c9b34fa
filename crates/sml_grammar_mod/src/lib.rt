//! The grammar of structures, functors and whole programs of Standard ML on lists of tokens: which trees derive which tokens,
//! and how they are read.
//!
//! Source: the Definition, figures 6, 8 and 19. Result: for structure expressions, declarations at structure level and
//! programs the relation between their trees, with their heights, and the tokens that they derive; and the readers of it.
//! Rule: one token of view, and behind `and` a second one; what follows a directive stands under the fixities that it leaves.
//! Main contract: laws without code, of programs, structure expressions and declarations.
//! Knows nothing of: what a structure means, memory, how tokens are made from bytes.
#![tactic(auto)]

mod laws;

pub use laws::{
    declarations_exactly, declarations_front, one_declaration, one_program, one_structure,
    programs_exactly, sources_exactly, structures_exactly, structures_front,
};
