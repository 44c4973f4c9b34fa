ghost use Rattle.std.specs.Prelude.{◌≡◌, ◌∷◌, map, IfOk, IsTrue, MatchOption};
ghost use Rattle.match_use.specs.Columns.{column_of};
ghost use Rattle.match_use.specs.Lines.{line_of, lines_of, columns_of, plain, all_agree};
ghost use Rattle.match_use.specs.Steps.{first_step, dropped_line, parts_line, cell_line};
ghost use Rattle.match_use.specs.Reduced.{IsReduced, IsReady, Opened};

use crate::column::{Begin, Column, beginning};
use crate::row::{Columns, Row};
use bumpalo::Bump;
use std::alloc::Global;
use tl_text::NoMemory;

/// How the first column of a matrix is taken apart.
#[derive(Clone, Copy)]
pub enum Step {
    /// There is no column, or it has literals or constructors.
    Ready,
    /// It has variables and wildcards alone.
    Drop,
    /// It has tuples.
    OpenParts,
    /// It has references.
    OpenCell,
}

/// The matrix with its first columns dropped or opened, until it has no row, no column, or a column to be split.
pub fn reduced<'a>(
    alloc: Global,
    arena: &'a Bump,
    rows: Vec<Row<'a>>,
) -> Result<Vec<Row<'a>>, NoMemory>
    requires { IsTrue (all_agree (plain (lines_of rows.items))) }
    ensures same { IfOk result (λ v. IsReduced (lines_of rows.entry.items) (lines_of v.items)) }
    ensures ready { IfOk result (λ v. IsReady (lines_of v.items)) }
{
    let mut rows = rows;
    while let Some(next) = opened_once(alloc, arena, &rows)? {
        rows = next;
    }
    Ok(rows)
}

// The matrix with its first column dropped or opened, and None where that is not to be done.
fn opened_once<'a>(
    alloc: Global,
    arena: &'a Bump,
    rows: &[Row<'a>],
) -> Result<Option<Vec<Row<'a>>>, NoMemory>
    requires { IsTrue (all_agree (plain (lines_of rows.now))) }
    ensures { IfOk result (λ o. MatchOption o (IsReady (lines_of rows.now)) (λ v. Opened (lines_of rows.now) (lines_of v.items))) }
{
    if rows.is_empty() {
        return Ok(None);
    }
    match next_step(rows) {
        Step::Ready => Ok(None),
        Step::Drop => Ok(Some(dropped(alloc, rows)?)),
        Step::OpenParts => Ok(Some(parts_opened(alloc, arena, rows)?)),
        Step::OpenCell => Ok(Some(cells_opened(alloc, rows)?)),
    }
}

// How the first column is taken apart: the first row that does not begin with a wildcard tells.
fn next_step(rows: &[Row<'_>]) -> Step
    ensures { result ≡ first_step (plain (lines_of rows.now)) }
{
    for row in rows {
        match row.columns {
            Columns::End => return Step::Ready,
            Columns::More(column, _) => match beginning(column) {
                Begin::Wild => {}
                Begin::Parts(_, _) => return Step::OpenParts,
                Begin::Cell(_) => return Step::OpenCell,
                Begin::Literal(_) => return Step::Ready,
                Begin::Made(_, _, _) => return Step::Ready,
            },
        }
    }
    Step::Drop
}

fn dropped<'a>(alloc: Global, rows: &[Row<'a>]) -> Result<Vec<Row<'a>>, NoMemory>
    ensures { IfOk result (λ v. lines_of v.items ≡ map dropped_line (lines_of rows.now)) }
{
    let mut done = Vec::new(alloc);
    for row in rows {
        done.push(without_first(*row))?;
    }
    Ok(done)
}

// The row without its first column.
fn without_first<'a>(row: Row<'a>) -> Row<'a>
    ensures { line_of result ≡ dropped_line (line_of row.entry) }
{
    match row.columns {
        Columns::End => row,
        Columns::More(_, others) => Row {
            rule: row.rule,
            columns: *others,
        },
    }
}

fn parts_opened<'a>(
    alloc: Global,
    arena: &'a Bump,
    rows: &[Row<'a>],
) -> Result<Vec<Row<'a>>, NoMemory>
    ensures { IfOk result (λ v. lines_of v.items ≡ map parts_line (lines_of rows.now)) }
{
    let mut done = Vec::new(alloc);
    for row in rows {
        done.push(with_parts(arena, *row)?)?;
    }
    Ok(done)
}

// The row with the tuple in its first column opened into its first part and the tuple of the others.
fn with_parts<'a>(arena: &'a Bump, row: Row<'a>) -> Result<Row<'a>, NoMemory>
    ensures { IfOk result (λ r. line_of r ≡ parts_line (line_of row.entry)) }
{
    let Columns::More(column, others) = row.columns else {
        return Ok(row);
    };
    match beginning(column) {
        Begin::Parts(first, tail) => put_before(
            arena,
            row.rule,
            first,
            Columns::More(tail, others),
        ),
        Begin::Wild => put_before(arena, row.rule, Column::Any, row.columns),
        _ => Ok(row),
    }
}

// The row of these columns with one more before them.
fn put_before<'a>(
    arena: &'a Bump,
    rule: usize,
    first: Column<'a>,
    others: Columns<'a>,
) -> Result<Row<'a>, NoMemory>
    ensures { IfOk result (λ r. line_of r ≡ record { rule = rule; columns = column_of first.entry ∷ columns_of others.entry }) }
{
    let others = arena.try_alloc(others)?;
    Ok(Row {
        rule,
        columns: Columns::More(first, others),
    })
}

fn cells_opened<'a>(alloc: Global, rows: &[Row<'a>]) -> Result<Vec<Row<'a>>, NoMemory>
    ensures { IfOk result (λ v. lines_of v.items ≡ map cell_line (lines_of rows.now)) }
{
    let mut done = Vec::new(alloc);
    for row in rows {
        done.push(with_content(*row))?;
    }
    Ok(done)
}

// The row with the reference in its first column replaced by the reference's content.
fn with_content<'a>(row: Row<'a>) -> Row<'a>
    ensures { line_of result ≡ cell_line (line_of row.entry) }
{
    match row.columns {
        Columns::End => row,
        Columns::More(column, others) => match beginning(column) {
            Begin::Cell(inner) => Row {
                rule: row.rule,
                columns: Columns::More(inner, others),
            },
            _ => row,
        },
    }
}
