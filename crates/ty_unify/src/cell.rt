ghost use Rattle.std.specs.Prelude.{◌≡◌, ℕ, ◌+◌, ◌<◌, ◌≤◌, ◌^◌, IfOk, List, length, slice_set, MatchBool, OnOk, OnErr, ◌++◌, [], ◌∷◌};
ghost use Rattle.ty_unify.specs.Trees.{Tree};
ghost use Rattle.ty_unify.specs.Cells.{Shaped, Ordered, drawn, link_rank, IsRoot, cell_at, cell_sort, head_of, asked_of, undone};

use sml_static::{Label, TyName};
use tl_text::NoMemory;

/// What a node is: a type, or what is left of a row of fields or of arguments.
#[derive(Clone, Copy, PartialEq, Eq)]
pub enum Sort {
    Type,
    Fields,
    Arguments,
}

/// The head of a shape. A label stands by its number in the store's row of labels.
#[derive(Clone, Copy, PartialEq, Eq)]
pub enum Tag {
    /// `a -> b`
    Arrow,
    /// A type name: alone, or with its first argument and the row of the others.
    Named(TyName),
    /// A record: its first field, and the row of the others.
    Record(usize),
    /// A field of a row, and the others.
    Field(usize),
    /// An argument of a row, and the others.
    Argument,
    /// The record without fields.
    NoFields,
    LastField,
    LastArgument,
}

/// What is known of a node: nothing, that it is another node, or a head with no part or two.
#[derive(Clone, Copy)]
pub enum Shape {
    Open,
    Same(usize, Sort),
    Const(Tag),
    Pair(Tag, usize, usize),
}

/// What is known of a node, and whether it is bound to admit equality. A link has no bound.
#[derive(Clone, Copy)]
pub struct Cell {
    pub shape: Shape,
    pub equal: bool,
}

/// What equality asks of the parts under a head: it never admits equality, it always does, or both have to.
#[derive(Clone, Copy)]
pub enum Asked {
    Never,
    Always,
    Both,
}

// A number of a node, as if it were drawn.
fn draw(node: usize) -> usize
    ensures { result ≡ drawn node }
{
    node.wrapping_mul(11_400_714_819_323_198_485)
}

/// Whether links lead from b to a, and not the other way round. The order does not go by the order in which nodes are
/// made or joined, so no row of joins makes a long row of links.
pub fn comes_before(a: usize, b: usize) -> bool
    ensures { MatchBool result (link_rank a < link_rank b) (link_rank b ≤ link_rank a) }
{
    let first = draw(a);
    let second = draw(b);
    if first < second {
        return true;
    }
    if second < first {
        return false;
    }
    if a < b {
        return true;
    }
    false
}

/// The node that stands for the class of `node`.
pub fn root(cells: &[Cell], node: usize) -> usize
    requires order { Ordered cells.now }
    requires node { node < length cells.now }
    ensures within { result < length cells.now }
    ensures root { IsRoot (cell_at cells.now result).shape }
    ensures same { (labels : List Label) (θ : ℕ → Tree) → Shaped labels cells.now θ → θ node ≡ θ result }
    ensures sort { cell_sort (cell_at cells.now result) ≡ cell_sort (cell_at cells.now node) }
{
    let mut at = node;
    while let Shape::Same(next, _) = cells[at].shape {
        at = next;
    }
    at
}

/// Writes a cell, after its old one was put behind the log.
pub fn write(
    cells: &mut Vec<Cell>,
    log: &mut Vec<(usize, Cell)>,
    node: usize,
    cell: Cell,
) -> Result<(), NoMemory>
    requires node { node < length cells.old.items }
    ensures ok { OnOk result (cells.new.items ≡ slice_set cells.old.items node cell) }
    ensures log { OnOk result (log.new.items ≡ log.old.items ++ (node, cell_at cells.old.items node) ∷ []) }
    ensures undone { undone log.new.items cells.new.items ≡ undone log.old.items cells.old.items }
{
    log.push((node, cells[node]))?;
    cells[node] = cell;
    Ok(())
}

/// Adds a cell. There is no memory for a node whose number would be 2^32 or more.
pub fn add_cell(cells: &mut Vec<Cell>, cell: Cell) -> Result<u32, NoMemory>
    ensures number { IfOk result (λ n. n ≡ length cells.old.items) }
    ensures cells { IfOk result (λ _. cells.new.items ≡ cells.old.items ++ cell ∷ []) }
    ensures small { IfOk result (λ _. length cells.new.items ≤ 2 ^ 32) }
    ensures unchanged { OnErr result (cells.new.items ≡ cells.old.items) }
{
    if cells.len() > u32::MAX as usize {
        return Err(NoMemory);
    }
    let number = cells.len() as u32;
    cells.push(cell)?;
    Ok(number)
}
