//! Names, paths, places, rows, literals and refusals: the words that every layer speaks.
//!
//! Source: nothing; this crate stands lowest. Result: the types that trees and errors are made of.
//! Rule: codes and their texts are this project's own; places count bytes and line feeds, from 1.
//! Main contract: each collection is the list of its items, and each code has its number and its text.
//! Knows nothing of: grammars, types, files.
#![tactic(auto)]

mod boxed;
mod code;
mod fault;
mod list;
mod lit;
mod name;
mod path;
mod place;

pub use boxed::Boxed;
pub use code::{Code, code_number, code_text};
pub use fault::{Fault, NoMemory, Refusal};
pub use list::List;
pub use lit::Lit;
pub use name::Name;
pub use path::Path;
pub use place::Place;
