//! A session: sources one after another, each with the text of its unit.
//!
//! Source: names and bytes of sources, in order. Result: the written units, or where a source is refused.
//! Rule: the Definition, chapters 2, 4, 6 and 8, for the forms that are built; the OCaml manual, the language chapter.
//! Main contract: `Session::add`: refused exactly where the source fails, and else the texts so far are faithful to the
//! sources so far: they read, type, keep the interface and agree, in any order of arguments.
//! Knows nothing of: files, words of a command line.
#![tactic(auto)]

mod base;
mod session;
mod source;
mod unit;

pub use session::{Session, Unit};
