//! Reads the items of a program, of the forms that are built.
//!
//! Source: a program without derived forms. Result: its items, or the first top-level declaration that is not built.
//! Rule: the Definition, figures 1 to 4, for `val _ = e` and `val x = e`, e being a literal or `print` of a string, and for
//! directives.
//! Main contract: `built_items`: the items where each top-level declaration is built, else the place of the first that is not.
//! Knows nothing of: tokens, fixities, meanings, the written text.
#![tactic(auto)]

mod basis;
mod forms;
mod item;
mod literals;
mod names;
mod reader;

pub use item::{SourceItem, Target, Value};
pub use reader::built_items;
