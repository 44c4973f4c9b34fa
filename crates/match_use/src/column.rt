ghost use Rattle.std.specs.Prelude.{◌≡◌};
ghost use Rattle.match_use.specs.Columns.{column_of, begin_of};

use crate::key::{Key, key_at};
use sml_static::{Label, MidPat};
use tl_text::Lit;

/// What stands in one column of a row: anything, a pattern, or what is left of a tuple or a record.
#[derive(Clone, Copy)]
pub enum Column<'a> {
    Any,
    One(&'a MidPat),
    Parts(&'a [MidPat]),
    Fields(&'a [(Label, MidPat)]),
}

/// What a column begins with, the names of layers taken away.
#[derive(Clone, Copy)]
pub enum Begin<'a> {
    /// Anything.
    Wild,
    /// A tuple: its first part, and the tuple of the others.
    Parts(Column<'a>, Column<'a>),
    /// A reference, by its content.
    Cell(Column<'a>),
    /// A literal.
    Literal(&'a Lit),
    /// A constructor, how many its datatype has, and its argument.
    Made(Key<'a>, u32, Column<'a>),
}

/// What the column begins with.
pub fn beginning<'a>(column: Column<'a>) -> Begin<'a>
    ensures { begin_of result ≡ column_of column.entry }
{
    match column {
        Column::Any => Begin::Wild,
        Column::One(pat) => pat_beginning(pat),
        Column::Parts(pats) => parts_beginning(pats),
        Column::Fields(fields) => fields_beginning(fields),
    }
}

fn parts_beginning<'a>(pats: &'a [MidPat]) -> Begin<'a>
    ensures { begin_of result ≡ column_of (Column.Parts pats.entry) }
{
    match pats {
        [] => Begin::Wild,
        [first, others @ ..] => Begin::Parts(Column::One(first), Column::Parts(others)),
    }
}

fn fields_beginning<'a>(fields: &'a [(Label, MidPat)]) -> Begin<'a>
    ensures { begin_of result ≡ column_of (Column.Fields fields.entry) }
{
    match fields {
        [] => Begin::Wild,
        [first, others @ ..] => Begin::Parts(Column::One(&first.1), Column::Fields(others)),
    }
}

fn pat_beginning<'a>(pat: &'a MidPat) -> Begin<'a>
    ensures { begin_of result ≡ column_of (Column.One pat.entry) }
{
    match pat {
        MidPat::Any(_) => Begin::Wild,
        MidPat::Lit(literal) => Begin::Literal(literal),
        MidPat::Var(_, _, _) => Begin::Wild,
        MidPat::Con(path, ty, count, argument) => {
            let argument = match argument {
                None => Column::Any,
                Some(inner) => Column::One(inner.get()),
            };
            Begin::Made(key_at(path, ty, *count), *count, argument)
        }
        MidPat::Tuple(pats) => parts_beginning(pats.items()),
        MidPat::Layer(_, _, inner) => pat_beginning(inner.get()),
        MidPat::Cell(inner) => Begin::Cell(Column::One(inner.get())),
        MidPat::Flex(fields, _) => fields_beginning(fields.items()),
    }
}
