use crate::Kind;
use tl_text::Code;

/// What stands at a place of a source: its end, so many bytes that are no token, a token of so many bytes, or a failure
/// so many bytes further on.
#[derive(Debug, Drop)]
pub enum Step {
    Done,
    Skip(usize),
    Take(Kind, usize),
    Fail(usize, Code),
}

/// With what a place begins, which says how to read on.
#[derive(Clone, Copy, Debug)]
pub enum Start {
    End,
    White,
    Comment,
    Text,
    Char,
    Run,
}
