ghost use Rattle.std.specs.Prelude.{◌≡◌, ℕ, ◌+◌, ◌<◌, ◌≤◌, List, length, IfOk, Bool, true, false, ◌++◌, [], ◌∷◌};
ghost use Rattle.ty_unify.specs.Trees.{Tree};
ghost use Rattle.ty_unify.specs.Cells.{Ordered, Labelled, sort_at, undone};
ghost use Rattle.ty_unify.specs.Steps.{TaskIn, TasksIn, Outcome, Stepped, Handed, Solved};
ghost use Rattle.ty_unify.specs.declared.join.Task.TheVariants.{Equal, Bound};

use crate::cell::Cell;
use crate::join::{Task, bind, make_equal};
use sml_static::Label;
use std::alloc::Global;
use tl_text::NoMemory;

// Does one thing of what is still to be done. False where nothing solves it.
fn step(
    labels: &[Label],
    cells: &mut Vec<Cell>,
    work: &mut Vec<Task>,
    log: &mut Vec<(usize, Cell)>,
    task: Task,
) -> Result<bool, NoMemory>
    requires order { Ordered cells.old.items }
    requires labelled { Labelled (length labels.now) cells.old.items }
    requires nodes { TaskIn (length cells.old.items) (sort_at cells.old.items) task }
    requires tasks { TasksIn (length cells.old.items) (sort_at cells.old.items) work.old.items }
    ensures step { IfOk result (λ went. Outcome went labels.now cells.old.items task (Stepped labels.now cells.old.items cells.new.items work.old.items work.new.items task)) }
    ensures undone { undone log.new.items cells.new.items ≡ undone log.old.items cells.old.items }
{
    match task {
        Task::Equal(a, b) => {
            let went = make_equal(labels, cells, work, log, a, b)?;
            Ok(went)
        }
        Task::Bound(node) => {
            let went = bind(labels, cells, work, log, node)?;
            Ok(went)
        }
    }
}

/// Makes two nodes equal, but for types that would lead back to themselves. False where nothing solves it.
pub fn solve(
    alloc: Global,
    labels: &[Label],
    cells: &mut Vec<Cell>,
    log: &mut Vec<(usize, Cell)>,
    a: usize,
    b: usize,
) -> Result<bool, NoMemory>
    requires order { Ordered cells.old.items }
    requires labelled { Labelled (length labels.now) cells.old.items }
    requires nodes { TaskIn (length cells.old.items) (sort_at cells.old.items) (Equal a b) }
    requires handed { Handed labels.now cells.old.items [] }
    ensures solved { IfOk result (λ went. Outcome went labels.now cells.old.items (Equal a b) (Solved labels.now cells.old.items cells.new.items a b)) }
    ensures undone { undone log.new.items cells.new.items ≡ undone log.old.items cells.old.items }
{
    let mut work = Vec::new(alloc);
    work.push(Task::Equal(a, b))?;
    while let Some(task) = work.pop() {
        if !step(labels, cells, &mut work, log, task)? {
            return Ok(false);
        }
    }
    Ok(true)
}
