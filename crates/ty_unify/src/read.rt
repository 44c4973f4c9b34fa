ghost use Rattle.std.specs.Prelude.{◌≡◌, ℕ, ◌+◌, ◌<◌, ◌≤◌, List, [], length, IfOk, OnOk, None};
ghost use Rattle.ty_unify.specs.Trees.{Tree, Fork, Record, Named};
ghost use Rattle.ty_unify.specs.Cells.{Ordered, IsRoot, cell_at, sort_at};
ghost use Rattle.ty_unify.specs.Stores.{HasNode, Sound};
ghost use Rattle.ty_unify.specs.Building.{NodeIn};
ghost use Rattle.ty_unify.specs.Reading.{ReadBack, Reads, label_at, arrow_in, argument_in, field_in, arrows_to};

use crate::cell::{Cell, Shape, Sort, Tag, root};
use crate::node::Node;
use crate::store::Store;
use sml_static::{Label, Ty, TyName, copy_label};
use std::alloc::Global;
use tl_text::{Boxed, List, NoMemory};

/// There is no memory for a type of more nodes than this, written as a tree.
const MOST: usize = 16_777_216;

impl Store {
    /// The type that a node is: in each solution the node is the type, where each free variable is the node of
    /// that number, a variable of the store. NoMemory where none is left, and for a type of more than 2^24
    /// nodes, which the store may hold in far fewer; nothing is written then.
    pub fn read_back(&self, node: Node) -> Result<Ty, NoMemory>
        requires { HasNode self.now node.number }
        ensures { IfOk result (λ ty. ReadBack self.now node.number ty) }
    {
        let cells = self.cells.as_slice();
        let at = node.number as usize;
        if !is_small(self.alloc, cells, at)? {
            return Err(NoMemory);
        }
        let mut left = MOST;
        let ty = read_ty(self.alloc, self.labels.as_slice(), cells, &mut left, at)?;
        Ok(ty)
    }
}

// Whether the tree of a node has no more nodes than there is memory for.
fn is_small(alloc: Global, cells: &[Cell], node: usize) -> Result<bool, NoMemory>
    requires order { Ordered cells.now }
    requires node { node < length cells.now }
{
    let mut work = Vec::new(alloc);
    work.push(node)?;
    let mut left = MOST;
    while let Some(node) = work.pop() {
        if left == 0 {
            return Ok(false);
        }
        left -= 1;
        if let Shape::Pair(_, first, second) = cells[root(cells, node)].shape {
            work.push(second)?;
            work.push(first)?;
        }
    }
    Ok(true)
}

// Takes one node off those that may still be written.
fn spend(left: &mut usize) -> Result<(), NoMemory>
    ensures { OnOk result (left.new + 1 ≡ left.old) }
{
    if *left == 0 {
        return Err(NoMemory);
    }
    *left -= 1;
    Ok(())
}

// The parts of an arrow, where the node is one.
fn arrow_at(cells: &[Cell], at: usize) -> Option<(usize, usize)>
    requires { at < length cells.now }
    ensures { result ≡ arrow_in (cell_at cells.now at).shape }
{
    match cells[at].shape {
        Shape::Pair(Tag::Arrow, from, to) => Some((from, to)),
        _ => None,
    }
}

// An argument of a row and the rest of it, where the row goes on.
fn argument_at(cells: &[Cell], at: usize) -> Option<(usize, usize)>
    requires { at < length cells.now }
    ensures { result ≡ argument_in (cell_at cells.now at).shape }
{
    match cells[at].shape {
        Shape::Pair(Tag::Argument, ty, rest) => Some((ty, rest)),
        _ => None,
    }
}

// A field of a row, its label first, and the rest of it, where the row goes on.
fn field_at(cells: &[Cell], at: usize) -> Option<(usize, usize, usize)>
    requires { at < length cells.now }
    ensures { result ≡ field_in (cell_at cells.now at).shape }
{
    match cells[at].shape {
        Shape::Pair(Tag::Field(label), ty, rest) => Some((label, ty, rest)),
        _ => None,
    }
}

// The type of functions from these, one after another.
fn arrows(alloc: Global, froms: Vec<Ty>, last: Ty) -> Result<Ty, NoMemory>
    ensures { IfOk result (λ t. t ≡ arrows_to froms.items last) }
{
    let mut froms = froms;
    let mut to = last;
    while let Some(from) = froms.pop() {
        let from = Boxed::new(alloc, from)?;
        let rest = Boxed::new(alloc, to)?;
        to = Ty::Arrow(from, rest);
    }
    Ok(to)
}

// The type that a node is. Arrows are gone along to the right in a loop.
#[cycle(read)]
fn read_ty(
    alloc: Global,
    labels: &[Label],
    cells: &[Cell],
    left: &mut usize,
    node: usize,
) -> Result<Ty, NoMemory>
    requires sound { Sound labels.now cells.now }
    requires node { NodeIn cells.now node }
    ensures reads { IfOk result (λ t. Reads labels.now cells.now (λ θ. θ node) t) }
    ensures less { OnOk result (left.new < left.old) }
{
    spend(left)?;
    let mut froms = Vec::new(alloc);
    let mut at = root(cells, node);
    while let Some((from, to)) = arrow_at(cells, at) {
        let ty = read_ty(alloc, labels, cells, left, from)?;
        froms.push(ty)?;
        at = root(cells, to);
    }
    let last = read_last(alloc, labels, cells, left, at)?;
    let ty = arrows(alloc, froms, last)?;
    Ok(ty)
}

// The type that the root of a class is, where it is no arrow.
#[cycle(read)]
fn read_last(
    alloc: Global,
    labels: &[Label],
    cells: &[Cell],
    left: &mut usize,
    at: usize,
) -> Result<Ty, NoMemory>
    requires sound { Sound labels.now cells.now }
    requires node { NodeIn cells.now at }
    requires root { IsRoot (cell_at cells.now at).shape }
    requires last { arrow_in (cell_at cells.now at).shape ≡ None }
    ensures reads { IfOk result (λ t. Reads labels.now cells.now (λ θ. θ at) t) }
    ensures less { OnOk result (left.new ≤ left.old) }
{
    match cells[at].shape {
        Shape::Open => Ok(Ty::Free(at as u32)),
        Shape::Const(Tag::Named(name)) => Ok(Ty::Con(name, List::new(alloc))),
        Shape::Const(_) => Ok(Ty::Fields(List::new(alloc))),
        Shape::Pair(Tag::Named(name), first, rest) => {
            let ty = read_named(alloc, labels, cells, left, name, first, rest)?;
            Ok(ty)
        }
        Shape::Pair(Tag::Record(label), first, rest) => {
            let ty = read_record(alloc, labels, cells, left, label, first, rest)?;
            Ok(ty)
        }
        Shape::Pair(_, _, _) | Shape::Same(_, _) => unreachable!(),
    }
}

// A type name at its first argument and a row of the others.
#[cycle(read)]
fn read_named(
    alloc: Global,
    labels: &[Label],
    cells: &[Cell],
    left: &mut usize,
    name: TyName,
    first: usize,
    rest: usize,
) -> Result<Ty, NoMemory>
    requires sound { Sound labels.now cells.now }
    requires first { NodeIn cells.now first }
    requires rest { rest < length cells.now }
    requires sort { sort_at cells.now rest ≡ Sort.Arguments }
    ensures reads { IfOk result (λ t. Reads labels.now cells.now (λ θ. Fork (Named name) (θ first) (θ rest)) t) }
    ensures less { OnOk result (left.new ≤ left.old) }
{
    let mut args = List::new(alloc);
    let ty = read_ty(alloc, labels, cells, left, first)?;
    args.push(ty)?;
    let mut at = root(cells, rest);
    while let Some((next, others)) = argument_at(cells, at) {
        let ty = read_ty(alloc, labels, cells, left, next)?;
        args.push(ty)?;
        at = root(cells, others);
    }
    Ok(Ty::Con(name, args))
}

// A record of its first field and a row of the others.
#[cycle(read)]
fn read_record(
    alloc: Global,
    labels: &[Label],
    cells: &[Cell],
    left: &mut usize,
    label: usize,
    first: usize,
    rest: usize,
) -> Result<Ty, NoMemory>
    requires sound { Sound labels.now cells.now }
    requires label { label < length labels.now }
    requires first { NodeIn cells.now first }
    requires rest { rest < length cells.now }
    requires sort { sort_at cells.now rest ≡ Sort.Fields }
    ensures reads { IfOk result (λ t. Reads labels.now cells.now (λ θ. Fork (Record (label_at labels.now label)) (θ first) (θ rest)) t) }
    ensures less { OnOk result (left.new ≤ left.old) }
{
    let mut fields = List::new(alloc);
    let word = copy_label(alloc, &labels[label])?;
    let ty = read_ty(alloc, labels, cells, left, first)?;
    fields.push((word, ty))?;
    let mut at = root(cells, rest);
    while let Some((index, next, others)) = field_at(cells, at) {
        let word = copy_label(alloc, &labels[index])?;
        let ty = read_ty(alloc, labels, cells, left, next)?;
        fields.push((word, ty))?;
        at = root(cells, others);
    }
    Ok(Ty::Fields(fields))
}
