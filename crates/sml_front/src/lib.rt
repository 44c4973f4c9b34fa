//! Reads the bytes of a source as a program without derived forms.
//!
//! Source: the bytes of one Standard ML source, and the fixities in force before it. Result: its program without derived forms, and
//! the fixities in force behind it.
//! Rule: the Definition, chapters 2 and 3 and appendices A and B, in the order: tokens, grammar, phrases that are not supported,
//! what form alone forbids.
//! Main contract: `read_source`: Ok exactly where the bytes are tokens, the tokens a supported program, and the program breaks no
//! rule of form; else the refusal of the first of these steps that fails, at its place.
//! Knows nothing of: environments, types, what a program means.
#![tactic(auto)]

mod source;

pub use source::read_source;
