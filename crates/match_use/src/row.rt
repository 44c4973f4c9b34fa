ghost use Rattle.std.specs.Prelude.{◌≡◌};
ghost use Rattle.match_use.specs.Lines.{Line, line_of};

use crate::column::Column;

/// The columns of a row, the first one outermost.
#[derive(Clone, Copy)]
pub enum Columns<'a> {
    End,
    More(Column<'a>, &'a Columns<'a>),
}

/// A row of the matrix: a rule, and what is still to be asked of a value for it.
#[derive(Clone, Copy)]
pub struct Row<'a> {
    pub rule: usize,
    pub columns: Columns<'a>,
}
