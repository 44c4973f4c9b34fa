ghost use Rattle.std.specs.Prelude.{◌≡◌, ℕ, ◌+◌, ◌<◌, ◌≤◌, List, length, IfOk, OnOk, Bool, true, false, ◌++◌, [], ◌∷◌, slice_set};
ghost use Rattle.ty_unify.specs.Walking.{mark_at, part_of, part_in, InMarks, left_over, Finished, Walk, WalkEnds, CoverEnds, Tracked, Rested};
ghost use Rattle.ty_unify.specs.Cells.{Ordered, cell_at};

use crate::cell::{Cell, Shape};
use std::alloc::Global;
use tl_text::NoMemory;

/// How far the walk has come with a node: it is numbered after its parts.
#[derive(Clone, Copy)]
pub enum Stage {
    New,
    Busy,
    Done(usize),
}

/// What is to be seen of a node's parts: one that is new, one that leads back, or that all are numbered.
#[derive(Clone, Copy)]
pub enum Part {
    New(usize),
    Back,
    Numbered,
}

fn part_at(marks: &[Stage], node: usize) -> Part
    requires node { node < length marks.now }
    ensures { result ≡ part_of (mark_at marks.now node) node }
{
    match marks[node] {
        Stage::New => Part::New(node),
        Stage::Busy => Part::Back,
        Stage::Done(_) => Part::Numbered,
    }
}

// The first part that is not numbered.
fn next_part(marks: &[Stage], shape: Shape) -> Part
    requires shape { InMarks (length marks.now) shape }
    ensures { result ≡ part_in marks.now shape }
{
    match shape {
        Shape::Open | Shape::Const(_) => Part::Numbered,
        Shape::Same(to, _) => part_at(marks, to),
        Shape::Pair(_, a, b) => match part_at(marks, a) {
            Part::Numbered => part_at(marks, b),
            found => found,
        },
    }
}

// What is to be seen of a node's parts.
fn parts_at(cells: &[Cell], marks: &[Stage], node: usize) -> Part
    requires order { Ordered cells.now }
    requires node { node < length cells.now }
    requires marks { length marks.now ≡ length cells.now }
    ensures { result ≡ part_in marks.now (cell_at cells.now node).shape }
{
    next_part(marks, cells[node].shape)
}

// Numbers a node that is busy.
fn finish(marks: &mut Vec<Stage>, next: &mut usize, node: usize)
    requires node { node < length marks.old.items }
    requires room { left_over marks.old.items + next.old ≤ length marks.old.items }
    ensures { Finished (mark_at marks.old.items node) marks.old.items marks.new.items next.old next.new node }
{
    if let Stage::Busy = marks[node] {
        marks[node] = Stage::Done(*next);
        *next += 1;
    }
}

// Takes a new node up, and puts it behind those that were seen.
fn begin(
    marks: &mut Vec<Stage>,
    path: &mut Vec<usize>,
    seen: &mut Vec<usize>,
    node: usize,
) -> Result<(), NoMemory>
    requires node { node < length marks.old.items }
    requires tracked { Tracked (length marks.old.items) marks.old.items seen.old.items }
    ensures marks { IfOk result (λ _. marks.new.items ≡ slice_set marks.old.items node Stage.Busy) }
    ensures path { IfOk result (λ _. path.new.items ≡ path.old.items ++ node ∷ []) }
    ensures tracked { Tracked (length marks.old.items) marks.new.items seen.new.items }
{
    path.push(node)?;
    seen.push(node)?;
    marks[node] = Stage::Busy;
    Ok(())
}

// Numbers a new node, and all below it. False where it leads back to itself.
fn descend(
    alloc: Global,
    cells: &[Cell],
    marks: &mut Vec<Stage>,
    seen: &mut Vec<usize>,
    next: &mut usize,
    from: usize,
) -> Result<bool, NoMemory>
    requires order { Ordered cells.now }
    requires walk { Walk cells.now marks.old.items marks.old.items next.old [] }
    requires tracked { Tracked (length cells.now) marks.old.items seen.old.items }
    requires from { from < length marks.old.items }
    requires fresh { mark_at marks.old.items from ≡ Stage.New }
    ensures end { IfOk result (λ went. WalkEnds went cells.now marks.old.items marks.new.items next.new from) }
    ensures tracked { Tracked (length cells.now) marks.new.items seen.new.items }
{
    let mut path = Vec::new(alloc);
    begin(marks, &mut path, seen, from)?;
    while let Some(node) = path.pop() {
        match parts_at(cells, marks, node) {
            Part::New(part) => {
                path.push(node)?;
                begin(marks, &mut path, seen, part)?;
            }
            Part::Back => return Ok(false),
            Part::Numbered => finish(marks, next, node),
        }
    }
    Ok(true)
}

// Numbers a node, and all below it, where it is new. False where it leads back to itself.
fn walk(
    alloc: Global,
    cells: &[Cell],
    marks: &mut Vec<Stage>,
    seen: &mut Vec<usize>,
    next: &mut usize,
    from: usize,
) -> Result<bool, NoMemory>
    requires order { Ordered cells.now }
    requires walk { Walk cells.now marks.old.items marks.old.items next.old [] }
    requires tracked { Tracked (length cells.now) marks.old.items seen.old.items }
    ensures end { IfOk result (λ went. WalkEnds went cells.now marks.old.items marks.new.items next.new from) }
    ensures tracked { Tracked (length cells.now) marks.new.items seen.new.items }
{
    if from >= marks.len() {
        return Ok(true);
    }
    match marks[from] {
        Stage::New => {
            let went = descend(alloc, cells, marks, seen, next, from)?;
            Ok(went)
        }
        Stage::Busy | Stage::Done(_) => Ok(true),
    }
}

// Adds marks of new nodes up to that many.
fn grow(marks: &mut Vec<Stage>, count: usize) -> Result<(), NoMemory>
    requires { Rested count marks.old.items }
    ensures rested { Rested count marks.new.items }
    ensures full { OnOk result (length marks.new.items ≡ count) }
{
    while marks.len() < count {
        marks.push(Stage::New)?;
    }
    Ok(())
}

// Takes the marks of the nodes that were seen back.
fn clear(marks: &mut Vec<Stage>, mut seen: Vec<usize>)
    requires { Tracked (length marks.old.items) marks.old.items seen.items }
    ensures { Rested (length marks.old.items) marks.new.items }
{
    while let Some(node) = seen.pop() {
        if node < marks.len() {
            marks[node] = Stage::New;
        }
    }
}

// Numbers each node of the log, and all below it. False where one leads back to itself.
fn walk_all(
    alloc: Global,
    cells: &[Cell],
    marks: &mut Vec<Stage>,
    seen: &mut Vec<usize>,
    log: &[(usize, Cell)],
) -> Result<bool, NoMemory>
    requires order { Ordered cells.now }
    requires rested { Rested (length cells.now) marks.old.items }
    requires tracked { Tracked (length cells.now) marks.old.items seen.old.items }
    ensures end { IfOk result (λ went. CoverEnds went cells.now log.now) }
    ensures tracked { Tracked (length cells.now) marks.new.items seen.new.items }
{
    let mut next = 0;
    for entry in log {
        if !walk(alloc, cells, marks, seen, &mut next, entry.0)? {
            return Ok(false);
        }
    }
    Ok(true)
}

/// Numbers each node of the log, and all below it. False where one leads back to itself. The marks are new before and
/// after, so that a walk costs no more than the nodes that it meets.
pub fn cover(
    alloc: Global,
    cells: &[Cell],
    marks: &mut Vec<Stage>,
    log: &[(usize, Cell)],
) -> Result<bool, NoMemory>
    requires order { Ordered cells.now }
    requires rested { Rested (length cells.now) marks.old.items }
    ensures end { IfOk result (λ went. CoverEnds went cells.now log.now) }
    ensures rested { Rested (length cells.now) marks.new.items }
{
    grow(marks, cells.len())?;
    let mut seen = Vec::new(alloc);
    let end = walk_all(alloc, cells, marks, &mut seen, log);
    clear(marks, seen);
    end
}
