ghost use Rattle.std.specs.Prelude.{◌≡◌, ◌+◌, ◌<◌, ◌≤◌, ◌∷◌, ◌++◌, [], ℕ, length, replicate, IfOk, OnOk, IsTrue, MatchOption};
ghost use Rattle.sml_static.specs.Exhaustive.{Splits};
ghost use Rattle.match_use.specs.Lines.{lines_of, matrices_of, plain, all_agree};
ghost use Rattle.match_use.specs.Steps.{first_step};
ghost use Rattle.match_use.specs.Reduced.{are_below};
ghost use Rattle.match_use.specs.Progress.{pending, Progress, Visited, IsSplitting};

use crate::kept::kept_for_each;
use crate::reduce::reduced;
use crate::row::{Columns, Row};
use crate::split::heads_to_split;
use bumpalo::Bump;
use std::alloc::Global;
use tl_text::NoMemory;

/// How often a match may split.
pub const SPLITS: usize = 100_000;

/// What has been found of a match so far.
#[derive(Drop)]
pub struct Tally {
    /// For each rule whether shapes were found that come to it.
    pub reached: Vec<bool>,
    /// Whether no shapes were found that miss all rules.
    pub exhaustive: bool,
    /// How often the matrix was split.
    pub splits: usize,
}

/// Looks at the matrix and at all to which it leads. None where it splits too often.
pub fn walked<'a>(
    alloc: Global,
    arena: &'a Bump,
    first: Vec<Row<'a>>,
    rules: usize,
) -> Result<Option<Tally>, NoMemory>
    requires agree { IsTrue (all_agree (plain (lines_of first.items))) }
    requires below { are_below rules (lines_of first.items) }
    ensures { IfOk result (λ o. MatchOption o ((n : ℕ) → Splits (plain (lines_of first.entry.items)) n → SPLITS < n)
        (λ t. Progress (lines_of first.entry.items) [] t.reached.items t.exhaustive t.splits × (t.splits ≤ SPLITS) × (length t.reached.items ≡ rules))) }
{
    let mut tally = Tally {
        reached: all_of(alloc, false, rules)?,
        exhaustive: true,
        splits: 0,
    };
    let mut todo = Vec::new(alloc);
    todo.push(first)?;
    while let Some(rows) = todo.pop() {
        if !visited(alloc, arena, rows, &mut todo, &mut tally)? {
            return Ok(None);
        }
    }
    Ok(Some(tally))
}

/// As many times the same answer.
pub fn all_of(alloc: Global, answer: bool, count: usize) -> Result<Vec<bool>, NoMemory>
    ensures { IfOk result (λ v. v.items ≡ replicate count answer) }
{
    Ok(vec![in alloc; answer; count]?)
}

// Looks at one matrix: what it shows goes into the tally, and the matrices to which it leads go to the end of the others.
// False where it splits too often.
fn visited<'a>(
    alloc: Global,
    arena: &'a Bump,
    rows: Vec<Row<'a>>,
    todo: &mut Vec<Vec<Row<'a>>>,
    tally: &mut Tally,
) -> Result<bool, NoMemory>
    requires agree { IsTrue (all_agree (plain (lines_of rows.items))) }
    requires below { are_below (length tally.old.reached.items) (lines_of rows.items) }
    requires within { tally.old.splits ≤ SPLITS }
    ensures { IfOk result (λ go. Visited SPLITS (lines_of rows.entry.items) (pending todo.old.items) (pending todo.new.items)
        tally.old.reached.items tally.new.reached.items tally.old.exhaustive tally.new.exhaustive tally.old.splits tally.new.splits go) }
{
    let rows = reduced(alloc, arena, rows)?;
    match rows.first() {
        None => {
            tally.exhaustive = false;
            Ok(true)
        }
        Some(row) => match row.columns {
            Columns::End => {
                tally.reached[row.rule] = true;
                Ok(true)
            }
            Columns::More(_, _) => split_up(alloc, &rows, todo, tally),
        },
    }
}

// Splits a matrix by its first column. False where it splits too often.
fn split_up<'a>(
    alloc: Global,
    rows: &[Row<'a>],
    todo: &mut Vec<Vec<Row<'a>>>,
    tally: &mut Tally,
) -> Result<bool, NoMemory>
    requires splitting { IsSplitting (lines_of rows.now) }
    requires within { tally.old.splits ≤ SPLITS }
    ensures { IfOk result (λ go. Visited SPLITS (lines_of rows.now) (pending todo.old.items) (pending todo.new.items)
        tally.old.reached.items tally.new.reached.items tally.old.exhaustive tally.new.exhaustive tally.old.splits tally.new.splits go) }
{
    let heads = heads_to_split(alloc, rows)?;
    let count = heads.len();
    if count > SPLITS - tally.splits {
        return Ok(false);
    }
    let matrices = kept_for_each(alloc, &heads, rows)?;
    push_all(matrices, todo)?;
    tally.splits += count;
    Ok(true)
}

// Moves matrices to the end of others, the first one last.
fn push_all<'a>(matrices: Vec<Vec<Row<'a>>>, todo: &mut Vec<Vec<Row<'a>>>) -> Result<(), NoMemory>
    ensures { OnOk result (pending todo.new.items ≡ matrices_of matrices.entry.items ++ pending todo.old.items) }
{
    let mut left = matrices;
    while let Some(matrix) = left.pop() {
        todo.push(matrix)?;
    }
    Ok(())
}
