ghost use Rattle.std.specs.Prelude.{◌≡◌, ℕ, slice_set, ◌+◌, ◌<◌, ◌≤◌, List, length, IfOk, OnErr, IsTrue, ◌↔◌, Bool, true, false, ◌++◌, [], ◌∷◌};
ghost use Rattle.ty_unify.specs.Trees.{Tree};
ghost use Rattle.sml_static.specs.declared.ty.Label.TheVariants as label;
ghost use Rattle.ty_unify.specs.Cells.{Solves, LinksTo, Ordered, Labelled, TagIn, ShapeLabelled, IsRoot, cell_at, cell_sort, sort_at, head_of, asked_of, undone, tag_sort, shape_sort};
ghost use Rattle.ty_unify.specs.Steps.{TaskIn, TasksIn, AskEnd, bound_tasks, IsShaped, HeadsEnd, Outcome, Stepped, link_to};
ghost use Rattle.ty_unify.specs.declared.join.Task.TheVariants.{Equal, Bound};

use crate::cell::{Asked, Cell, Shape, Sort, Tag, comes_before, root, write};
use sml_static::Label;
use tl_text::NoMemory;

/// The number of the type name `ref`.
const REF: u32 = 7;

/// What is still to be done: two nodes become equal, or a node is bound to admit equality.
#[derive(Clone, Copy)]
pub enum Task {
    Equal(usize, usize),
    Bound(usize),
}

fn sort_of_tag(tag: Tag) -> Sort
    ensures { result ≡ tag_sort tag }
{
    match tag {
        Tag::Arrow | Tag::Named(_) | Tag::Record(_) | Tag::NoFields => Sort::Type,
        Tag::Field(_) | Tag::LastField => Sort::Fields,
        Tag::Argument | Tag::LastArgument => Sort::Arguments,
    }
}

fn sort_of(shape: Shape) -> Sort
    ensures { result ≡ shape_sort shape }
{
    match shape {
        Shape::Open => Sort::Type,
        Shape::Same(_, sort) => sort,
        Shape::Const(tag) | Shape::Pair(tag, _, _) => sort_of_tag(tag),
    }
}

fn same_label(a: &Label, b: &Label) -> bool
    ensures { IsTrue result ↔ (a.now ≡ b.now) }
{
    match (a, b) {
        (Label::Num(m), Label::Num(n)) => *m == *n,
        (Label::Word(v), Label::Word(w)) => v.bytes() == w.bytes(),
        _ => false,
    }
}

// Whether two tags are one head.
fn same_tag(labels: &[Label], a: Tag, b: Tag) -> bool
    requires a { TagIn (length labels.now) a }
    requires b { TagIn (length labels.now) b }
    ensures { IsTrue result ↔ (head_of labels.now a ≡ head_of labels.now b) }
{
    match (a, b) {
        (Tag::Record(m), Tag::Record(n)) => same_label(&labels[m], &labels[n]),
        (Tag::Field(m), Tag::Field(n)) => same_label(&labels[m], &labels[n]),
        (Tag::Named(m), Tag::Named(n)) => m == n,
        (Tag::Arrow, Tag::Arrow) => true,
        (Tag::Argument, Tag::Argument) => true,
        (Tag::NoFields, Tag::NoFields) => true,
        (Tag::LastField, Tag::LastField) => true,
        (Tag::LastArgument, Tag::LastArgument) => true,
        _ => false,
    }
}

// Puts the bound of a node behind what is still to be done, where it has one.
fn hand_on(work: &mut Vec<Task>, equal: bool, node: usize) -> Result<(), NoMemory>
    ensures { IfOk result (λ _. work.new.items ≡ work.old.items ++ bound_tasks equal node) }
{
    if equal {
        work.push(Task::Bound(node))?;
    }
    Ok(())
}

// Whether two nodes have one head; the equations of their parts go behind what is still to be done.
fn heads(labels: &[Label], work: &mut Vec<Task>, a: Shape, b: Shape) -> Result<bool, NoMemory>
    requires a { ShapeLabelled (length labels.now) a }
    requires b { ShapeLabelled (length labels.now) b }
    ensures { IfOk result (λ yes. HeadsEnd yes labels.now a b work.old.items work.new.items) }
{
    match (a, b) {
        (Shape::Const(c), Shape::Const(d)) => Ok(same_tag(labels, c, d)),
        (Shape::Pair(c, p, q), Shape::Pair(d, r, s)) => {
            if !same_tag(labels, c, d) {
                return Ok(false);
            }
            work.push(Task::Equal(p, r))?;
            work.push(Task::Equal(q, s))?;
            Ok(true)
        }
        _ => Ok(false),
    }
}

// Makes the higher node a link to the lower one, in the order of links, which gets its bound.
fn link(
    cells: &mut Vec<Cell>,
    work: &mut Vec<Task>,
    log: &mut Vec<(usize, Cell)>,
    low: usize,
    high: usize,
) -> Result<(), NoMemory>
    requires high { high < length cells.old.items }
    ensures cells { IfOk result (λ _. cells.new.items ≡ slice_set cells.old.items high (link_to low (sort_at cells.old.items high))) }
    ensures work { IfOk result (λ _. work.new.items ≡ work.old.items ++ bound_tasks (cell_at cells.old.items high).equal low) }
    ensures undone { undone log.new.items cells.new.items ≡ undone log.old.items cells.old.items }
{
    let cell = cells[high];
    hand_on(work, cell.equal, low)?;
    write(
        cells,
        log,
        high,
        Cell {
            shape: Shape::Same(low, sort_of(cell.shape)),
            equal: false,
        },
    )
}

// The lower node, which is open, takes the cell of the higher one, which becomes a link to it.
fn take_over(
    cells: &mut Vec<Cell>,
    work: &mut Vec<Task>,
    log: &mut Vec<(usize, Cell)>,
    low: usize,
    high: usize,
) -> Result<(), NoMemory>
    requires low { LinksTo (length cells.old.items) low high }
    requires high { high < length cells.old.items }
    ensures cells { IfOk result (λ _. cells.new.items ≡ slice_set (slice_set cells.old.items low (cell_at cells.old.items high)) high (link_to low (sort_at cells.old.items high))) }
    ensures work { IfOk result (λ _. work.new.items ≡ work.old.items ++ bound_tasks (cell_at cells.old.items low).equal low) }
    ensures undone { undone log.new.items cells.new.items ≡ undone log.old.items cells.old.items }
{
    let first = cells[low];
    let second = cells[high];
    hand_on(work, first.equal, low)?;
    write(cells, log, low, second)?;
    write(
        cells,
        log,
        high,
        Cell {
            shape: Shape::Same(low, sort_of(second.shape)),
            equal: false,
        },
    )
}

// Joins the classes of two roots. False where their heads differ.
fn join(
    labels: &[Label],
    cells: &mut Vec<Cell>,
    work: &mut Vec<Task>,
    log: &mut Vec<(usize, Cell)>,
    low: usize,
    high: usize,
) -> Result<bool, NoMemory>
    requires order { Ordered cells.old.items }
    requires labelled { Labelled (length labels.now) cells.old.items }
    requires low { LinksTo (length cells.old.items) low high }
    requires high { high < length cells.old.items }
    requires sorts { sort_at cells.old.items low ≡ sort_at cells.old.items high }
    requires roots { IsRoot (cell_at cells.old.items low).shape × IsRoot (cell_at cells.old.items high).shape }
    requires tasks { TasksIn (length cells.old.items) (sort_at cells.old.items) work.old.items }
    ensures step { IfOk result (λ yes. Outcome yes labels.now cells.old.items (Equal low high) (Stepped labels.now cells.old.items cells.new.items work.old.items work.new.items (Equal low high))) }
    ensures undone { undone log.new.items cells.new.items ≡ undone log.old.items cells.old.items }
{
    let first = cells[low];
    let second = cells[high];
    if let Shape::Open = second.shape {
        link(cells, work, log, low, high)?;
        return Ok(true);
    }
    if let Shape::Open = first.shape {
        take_over(cells, work, log, low, high)?;
        return Ok(true);
    }
    if !heads(labels, work, first.shape, second.shape)? {
        return Ok(false);
    }
    link(cells, work, log, low, high)?;
    Ok(true)
}

/// Makes two nodes equal, as far as their classes.
pub fn make_equal(
    labels: &[Label],
    cells: &mut Vec<Cell>,
    work: &mut Vec<Task>,
    log: &mut Vec<(usize, Cell)>,
    a: usize,
    b: usize,
) -> Result<bool, NoMemory>
    requires order { Ordered cells.old.items }
    requires labelled { Labelled (length labels.now) cells.old.items }
    requires nodes { TaskIn (length cells.old.items) (sort_at cells.old.items) (Equal a b) }
    requires tasks { TasksIn (length cells.old.items) (sort_at cells.old.items) work.old.items }
    ensures step { IfOk result (λ yes. Outcome yes labels.now cells.old.items (Equal a b) (Stepped labels.now cells.old.items cells.new.items work.old.items work.new.items (Equal a b))) }
    ensures undone { undone log.new.items cells.new.items ≡ undone log.old.items cells.old.items }
{
    let first = root(cells, a);
    let second = root(cells, b);
    if comes_before(first, second) {
        let went = join(labels, cells, work, log, first, second)?;
        return Ok(went);
    }
    if comes_before(second, first) {
        let went = join(labels, cells, work, log, second, first)?;
        return Ok(went);
    }
    Ok(true)
}

fn asked(tag: Tag) -> Asked
    ensures { result ≡ asked_of tag }
{
    match tag {
        Tag::Arrow => Asked::Never,
        Tag::Named(name) => {
            if name.id == REF {
                Asked::Always
            } else if name.equality {
                Asked::Both
            } else {
                Asked::Never
            }
        }
        _ => Asked::Both,
    }
}

// Whether a node with this shape can admit equality; the bounds of its parts go behind what is still to be done.
fn ask_parts(work: &mut Vec<Task>, shape: Shape) -> Result<bool, NoMemory>
    ensures { IfOk result (λ yes. AskEnd yes shape work.old.items work.new.items) }
{
    match shape {
        Shape::Open | Shape::Same(_, _) => Ok(true),
        Shape::Const(tag) => match asked(tag) {
            Asked::Never => Ok(false),
            Asked::Always | Asked::Both => Ok(true),
        },
        Shape::Pair(tag, a, b) => match asked(tag) {
            Asked::Never => Ok(false),
            Asked::Always => Ok(true),
            Asked::Both => {
                work.push(Task::Bound(a))?;
                work.push(Task::Bound(b))?;
                Ok(true)
            }
        },
    }
}

/// Binds a node to admit equality, as far as its head.
pub fn bind(
    labels: &[Label],
    cells: &mut Vec<Cell>,
    work: &mut Vec<Task>,
    log: &mut Vec<(usize, Cell)>,
    node: usize,
) -> Result<bool, NoMemory>
    requires order { Ordered cells.old.items }
    requires labelled { Labelled (length labels.now) cells.old.items }
    requires node { node < length cells.old.items }
    requires tasks { TasksIn (length cells.old.items) (sort_at cells.old.items) work.old.items }
    ensures step { IfOk result (λ yes. Outcome yes labels.now cells.old.items (Bound node) (Stepped labels.now cells.old.items cells.new.items work.old.items work.new.items (Bound node))) }
    ensures undone { undone log.new.items cells.new.items ≡ undone log.old.items cells.old.items }
{
    let at = root(cells, node);
    let cell = cells[at];
    if cell.equal {
        return Ok(true);
    }
    if !ask_parts(work, cell.shape)? {
        return Ok(false);
    }
    write(
        cells,
        log,
        at,
        Cell {
            shape: cell.shape,
            equal: true,
        },
    )?;
    Ok(true)
}
