ghost use Rattle.std.specs.Prelude.{◌≡◌, [], ◌++◌, map, length, None, IfOk, OnOk};
ghost use Rattle.std.specs.Option.{option_map};
ghost use Rattle.std.specs.List.{cons_option};
ghost use Rattle.sml_static.specs.Exhaustive.{head_of};
ghost use Rattle.match_use.specs.Keys.{shared_head};
ghost use Rattle.match_use.specs.Lines.{line_of, lines_of, columns_of, matrices_of};
ghost use Rattle.match_use.specs.Steps.{kept_line, kept_lines, with_lines, LeftForOwn};

use crate::column::{Begin, beginning};
use crate::head::Head;
use crate::row::{Columns, Row};
use crate::split::head_at;
use indexmap::IndexSet;
use std::alloc::Global;
use tl_text::NoMemory;

/// The matrix that is kept for each head, in the order of the heads.
pub fn kept_for_each<'a>(
    alloc: Global,
    heads: &IndexSet<Head<'a>>,
    rows: &[Row<'a>],
) -> Result<Vec<Vec<Row<'a>>>, NoMemory>
    ensures { IfOk result (λ v. matrices_of v.items ≡ map (kept_lines (lines_of rows.now)) (map shared_head heads.now.keys)) }
{
    let mut matrices = empty_for_each(alloc, heads.as_slice())?;
    for row in rows {
        add_row(&mut matrices, heads, *row)?;
    }
    Ok(matrices)
}

// A matrix without rows for each head.
fn empty_for_each<'a>(alloc: Global, heads: &[Head<'a>]) -> Result<Vec<Vec<Row<'a>>>, NoMemory>
    ensures { IfOk result (λ v. matrices_of v.items ≡ map (kept_lines []) (map shared_head heads.now)) }
{
    let mut matrices = Vec::new(alloc);
    for _ in heads {
        matrices.push(Vec::new(alloc))?;
    }
    Ok(matrices)
}

// Adds to the matrix of each head what is left of a row for it. Of a row with a head something is left for that head alone.
fn add_row<'a>(
    matrices: &mut Vec<Vec<Row<'a>>>,
    heads: &IndexSet<Head<'a>>,
    row: Row<'a>,
) -> Result<(), NoMemory>
    requires { length matrices.old.items ≡ length heads.now.keys }
    ensures { OnOk result (matrices_of matrices.new.items ≡ with_lines (line_of row.entry) (map shared_head heads.now.keys) (matrices_of matrices.old.items)) }
{
    let all = heads.as_slice();
    match head_at(&row.columns) {
        None => add_to_each(matrices, all, row),
        Some(head) => match heads.get_index_of(&head) {
            None => Ok(()),
            Some(place) => add(&mut matrices[place], left_for_own(row)),
        },
    }
}

// Adds to the matrix of each head what is left for it of a row that has no head.
fn add_to_each<'a>(
    matrices: &mut Vec<Vec<Row<'a>>>,
    heads: &[Head<'a>],
    row: Row<'a>,
) -> Result<(), NoMemory>
    requires as_many { length matrices.old.items ≡ length heads.now }
    requires headless { head_of (columns_of row.columns) ≡ None }
    ensures { OnOk result (matrices_of matrices.new.items ≡ with_lines (line_of row.entry) (map shared_head heads.now) (matrices_of matrices.old.items)) }
{
    for (place, head) in heads.iter().enumerate() {
        add(&mut matrices[place], left_for(*head, row))?;
    }
    Ok(())
}

// Adds a row to a matrix, where there is one.
fn add<'a>(matrix: &mut Vec<Row<'a>>, left: Option<Row<'a>>) -> Result<(), NoMemory>
    ensures { OnOk result (lines_of matrix.new.items ≡ lines_of matrix.old.items ++ cons_option (option_map line_of left.entry) []) }
{
    if let Some(row) = left {
        matrix.push(row)?;
    }
    Ok(())
}

// What is left of a row for its own head.
fn left_for_own<'a>(row: Row<'a>) -> Option<Row<'a>>
    ensures { LeftForOwn (line_of row.entry) (option_map line_of result) }
{
    let Columns::More(column, others) = row.columns else {
        return None;
    };
    let columns = match beginning(column) {
        Begin::Literal(_) => *others,
        Begin::Made(_, _, argument) => Columns::More(argument, others),
        _ => return None,
    };
    Some(Row {
        rule: row.rule,
        columns,
    })
}

// What is left for a head of a row that has none.
fn left_for<'a>(head: Head<'a>, row: Row<'a>) -> Option<Row<'a>>
    requires { head_of (columns_of row.columns) ≡ None }
    ensures { option_map line_of result ≡ kept_line (shared_head head.entry) (line_of row.entry) }
{
    let Columns::More(column, others) = row.columns else {
        return None;
    };
    match (beginning(column), head) {
        (Begin::Wild, Head::Key(_, _)) => Some(row),
        (Begin::Wild, _) => Some(Row {
            rule: row.rule,
            columns: *others,
        }),
        _ => None,
    }
}
