ghost use Rattle.std.specs.Prelude.{◌≡◌, ℕ, ◌+◌, ◌<◌, ◌≤◌, List, length, IfOk, IfErr, OnOk, OnErr, Bool, true, false, [], ◌∷◌};
ghost use Rattle.std.specs.Bool.{OnTrue};
ghost use Rattle.ty_unify.specs.Trees.{Tree};
ghost use Rattle.ty_unify.specs.Cells.{Ordered, sort_at, undone};
ghost use Rattle.ty_unify.specs.Steps.{TaskIn};
ghost use Rattle.ty_unify.specs.Walking.{Rested};
ghost use Rattle.ty_unify.specs.Stores.{Sound, TriedEnd, JoinedCells, FaultMeans, LeadsToVariable};
ghost use Rattle.ty_unify.specs.declared.join.Task.TheVariants.{Equal};

use crate::cell::{Cell, Shape, root};
use crate::node::UnifyFault;
use crate::solve::solve;
use crate::walk::{Stage, cover};
use sml_static::Label;
use std::alloc::Global;
use tl_text::NoMemory;

/// Takes the writes of the log back, the last one first.
pub fn undo(cells: &mut Vec<Cell>, mut log: Vec<(usize, Cell)>)
    ensures { cells.new.items ≡ undone log.items cells.old.items }
{
    while let Some((node, cell)) = log.pop() {
        if node < cells.len() {
            cells[node] = cell;
        }
    }
}

// Whether a node is a variable, or leads to one.
fn is_variable(cells: &[Cell], node: usize) -> bool
    requires order { Ordered cells.now }
    requires node { node < length cells.now }
    ensures { OnTrue result (LeadsToVariable cells.now node) }
{
    match cells[root(cells, node)].shape {
        Shape::Open => true,
        _ => false,
    }
}

// Whether both nodes are variables, or lead to ones.
fn are_variables(cells: &[Cell], a: usize, b: usize) -> bool
    requires order { Ordered cells.now }
    requires a { a < length cells.now }
    requires b { b < length cells.now }
    ensures { OnTrue result (LeadsToVariable cells.now a × LeadsToVariable cells.now b) }
{
    is_variable(cells, a) && is_variable(cells, b)
}

/// Makes two nodes equal. False where nothing solves it; the log then has all writes, as where memory ends. Where both
/// are variables, no type can lead back to itself, and no walk is made.
pub fn try_unify(
    alloc: Global,
    labels: &[Label],
    cells: &mut Vec<Cell>,
    marks: &mut Vec<Stage>,
    log: &mut Vec<(usize, Cell)>,
    a: usize,
    b: usize,
) -> Result<bool, NoMemory>
    requires sound { Sound labels.now cells.old.items }
    requires nodes { TaskIn (length cells.old.items) (sort_at cells.old.items) (Equal a b) }
    requires rested { Rested (length cells.old.items) marks.old.items }
    requires log { log.old.items ≡ [] }
    ensures end { IfOk result (λ went. TriedEnd went labels.now cells.old.items cells.new.items a b) }
    ensures undone { undone log.new.items cells.new.items ≡ cells.old.items }
    ensures rested { Rested (length cells.old.items) marks.new.items }
{
    let variables = are_variables(cells, a, b);
    if !solve(alloc, labels, cells, log, a, b)? {
        return Ok(false);
    }
    if variables {
        return Ok(true);
    }
    let ranked = cover(alloc, cells, marks, log)?;
    Ok(ranked)
}

/// Makes two nodes equal, or leaves the cells as they were.
pub fn unify_cells(
    alloc: Global,
    labels: &[Label],
    cells: &mut Vec<Cell>,
    marks: &mut Vec<Stage>,
    a: usize,
    b: usize,
) -> Result<(), UnifyFault>
    requires sound { Sound labels.now cells.old.items }
    requires nodes { TaskIn (length cells.old.items) (sort_at cells.old.items) (Equal a b) }
    requires rested { Rested (length cells.old.items) marks.old.items }
    ensures ok { OnOk result (JoinedCells labels.now cells.old.items cells.new.items a b) }
    ensures fault { IfErr result (λ e. FaultMeans e labels.now cells.old.items a b) }
    ensures unchanged { OnErr result (cells.new.items ≡ cells.old.items) }
    ensures rested { Rested (length cells.old.items) marks.new.items }
{
    let mut log = Vec::new(alloc);
    match try_unify(alloc, labels, cells, marks, &mut log, a, b) {
        Ok(true) => Ok(()),
        Ok(false) => {
            undo(cells, log);
            Err(UnifyFault::Clash)
        }
        Err(NoMemory) => {
            undo(cells, log);
            Err(UnifyFault::NoMemory)
        }
    }
}
