ghost use Rattle.std.specs.Prelude.{◌≡◌, ℕ, ◌+◌, ◌<◌, ◌≤◌, List, [], length, IfOk, IfErr, OnOk, OnErr};
ghost use Rattle.ty_unify.specs.Trees.{Tree};
ghost use Rattle.ty_unify.specs.Stores.{HasNode, Unified, FaultMeans, Grown, KindHolds, KindIs, variable_cell};

use crate::attempt::unify_cells;
use crate::cell::{Cell, Shape, add_cell, root};
use crate::node::{Node, UnifyFault};
use crate::walk::Stage;
use sml_static::{Label, VarKind};
use std::alloc::Global;
use std::marker::Model;
use tl_text::NoMemory;

/// Types with unknown parts. Contracts see what is known of each node, and so the assignments of types to nodes
/// that solve it.
#[derive(Drop)]
pub struct Store {
    pub(crate) alloc: Global,
    pub(crate) cells: Vec<Cell>,
    pub(crate) labels: Vec<Label>,
    // A mark for each of the first nodes, for walks; all are new between calls.
    pub(crate) marks: Vec<Stage>,
}

impl Model for Store {
    ghost use Rattle.std.specs.Prelude.{length};
    ghost use Rattle.ty_unify.specs.Stores.{Known, Sound};
    ghost use Rattle.ty_unify.specs.Walking.{Rested};

    ghost Value = { Known };

    ghost view = { λ s. record { cells = s.cells.items; labels = s.labels.items } };

    ghost invariant = { λ s. Sound s.labels.items s.cells.items × Rested (length s.cells.items) s.marks.items };
}

impl Store {
    /// The store without nodes. It takes no memory.
    pub fn new(alloc: Global) -> Store
        ensures { result.cells ≡ [] }
    {
        Store {
            alloc,
            cells: Vec::new(alloc),
            labels: Vec::new(alloc),
            marks: Vec::new(alloc),
        }
    }

    /// Makes two nodes equal by a most general substitution for the store's variables: the solutions are then
    /// those of before in which the two are equal. Clash where there is none; NoMemory where none is left. After
    /// either fault the store is as before (the Definition, section 4.2).
    pub fn unify(&mut self, a: Node, b: Node) -> Result<(), UnifyFault>
        requires a { HasNode self.old a.number }
        requires b { HasNode self.old b.number }
        ensures ok { OnOk result (Unified self.old self.new a.number b.number) }
        ensures fault { IfErr result (λ e. FaultMeans e self.old.labels self.old.cells a.number b.number) }
        ensures unchanged { OnErr result (self.new ≡ self.old) }
    {
        unify_cells(
            self.alloc,
            self.labels.as_slice(),
            &mut self.cells,
            &mut self.marks,
            a.number as usize,
            b.number as usize,
        )
    }

    /// A new variable of that kind. NoMemory where none is left; the store is then as before.
    pub fn fresh(&mut self, kind: VarKind) -> Result<Node, NoMemory>
        ensures ok { IfOk result (λ node. Grown self.old self.new node.number (λ θ t. KindHolds kind t)) }
        ensures unchanged { OnErr result (self.new ≡ self.old) }
    {
        let cell = variable(kind);
        let number = add_cell(&mut self.cells, cell)?;
        Ok(Node { number })
    }

    /// The kind of the variable that the node is, or leads to. It takes no memory.
    pub fn kind(&self, node: Node) -> VarKind
        requires { HasNode self.now node.number }
        ensures { KindIs result self.now node.number }
    {
        let at = root(self.cells.as_slice(), node.number as usize);
        if self.cells[at].equal {
            VarKind::Equal
        } else {
            VarKind::Plain
        }
    }
}

// The cell of a variable of that kind.
fn variable(kind: VarKind) -> Cell
    ensures { result ≡ variable_cell kind }
{
    let equal = match kind {
        VarKind::Plain => false,
        VarKind::Equal => true,
    };
    Cell {
        shape: Shape::Open,
        equal,
    }
}
