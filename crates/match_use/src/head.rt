ghost use Rattle.std.specs.Prelude.{◌≡◌, true};
ghost use Rattle.sml_static.specs.Exhaustive.{HeadLiteral, has_others};
ghost use Rattle.match_use.specs.Heads.{stands};
ghost use Rattle.match_use.specs.Keys.{shared_head};

use crate::key::Key;
use tl_text::{Lit, Name};

/// What a column is split by: a literal, a constructor with how many its datatype has, or another than those there. Two
/// are equal where they are alike, whatever count they have.
#[derive(Clone, Copy)]
#[derive_where(PartialEq, Eq, Hash)]
pub enum Head<'a> {
    Int(i64),
    Word(u32),
    Char(u8),
    Text(&'a Name),
    Key(Key<'a>, #[derive_where(skip)] u32),
    Another,
}

/// The head for a literal.
pub fn literal_head<'a>(literal: &'a Lit) -> Head<'a>
    ensures head { shared_head result ≡ HeadLiteral literal.now }
    ensures standing { stands (shared_head result) ≡ true }
{
    match literal {
        Lit::Int(value) => Head::Int(*value),
        Lit::Word(value) => Head::Word(*value),
        Lit::Char(code) => Head::Char(*code),
        Lit::Text(text) => Head::Text(text),
    }
}

/// Whether the type of a column whose first head is this has others than that many heads.
pub fn others_than(first: Head<'_>, count: usize) -> bool
    ensures { result ≡ has_others (shared_head first.entry) count }
{
    match first {
        Head::Char(_) => count < 256,
        Head::Key(Key::Of(_, _), of) => count < of as usize,
        _ => true,
    }
}
