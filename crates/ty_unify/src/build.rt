ghost use Rattle.std.specs.Prelude.{◌≡◌, ℕ, ◌+◌, ◌<◌, ◌≤◌, List, [], ◌∷◌, ◌++◌, length, IfOk, IsTrue, map};
ghost use Rattle.std.specs.List.{list_any, list_all};
ghost use Rattle.tl_text.specs.Pairs.{map_second, seconds};
ghost use Rattle.ty_unify.specs.Trees.{Tree, Atom, Fork, Field, Record};
ghost use Rattle.ty_unify.specs.Cells.{TagIn, IsAlone, HasParts, tag_sort, rest_sort, sort_at, head_of};
ghost use Rattle.ty_unify.specs.Stores.{HasNode};
ghost use Rattle.ty_unify.specs.Formed.{FormedAs};
ghost use Rattle.ty_unify.specs.Building.{NodeIn, Made, LabelMade, under, has_free, is_closed, named_tree, fields_tree};

use crate::cell::{Cell, Shape, Sort, Tag, add_cell};
use crate::node::Node;
use crate::store::Store;
use sml_static::{Label, Ty, TyName, copy_label};
use tl_text::NoMemory;

impl Store {
    /// Writes a type into the store: in each solution the node is then the type, where each free variable is the
    /// node of that number. It needs a type without bound variables, whose free variables are nodes of types.
    /// NoMemory where none is left; the store may then have nodes more.
    pub fn build(&mut self, ty: &Ty) -> Result<Node, NoMemory>
        requires free { (n : ℕ) → IsTrue (has_free n ty.now) → HasNode self.old n }
        requires closed { IsTrue (is_closed ty.now) }
        ensures made { IfOk result (λ node. Made self.old self.new node.number Sort.Type (λ θ. under θ ty.now)) }
        ensures formed { IfOk result (λ node. FormedAs self.new (HasNode self.old) node.number ty.now) }
    {
        let number = self.build_ty(ty)?;
        if number > u32::MAX as usize {
            return Err(NoMemory);
        }
        Ok(Node {
            number: number as u32,
        })
    }

    // A node with a head and two parts.
    fn add_pair(&mut self, tag: Tag, a: usize, b: usize) -> Result<usize, NoMemory>
        requires tag { TagIn (length self.old.labels) tag }
        requires parts { HasParts tag }
        requires a { NodeIn self.old.cells a }
        requires b { b < length self.old.cells }
        requires sort { sort_at self.old.cells b ≡ rest_sort tag }
        ensures { IfOk result (λ n. Made self.old self.new n (tag_sort tag) (λ θ. Fork (head_of self.old.labels tag) (θ a) (θ b))) }
    {
        let number = add_cell(
            &mut self.cells,
            Cell {
                shape: Shape::Pair(tag, a, b),
                equal: false,
            },
        )?;
        Ok(number as usize)
    }

    // A node with a head and no part.
    fn add_const(&mut self, tag: Tag) -> Result<usize, NoMemory>
        requires tag { TagIn (length self.old.labels) tag }
        requires alone { IsAlone tag }
        ensures { IfOk result (λ n. Made self.old self.new n (tag_sort tag) (λ θ. Atom (head_of self.old.labels tag))) }
    {
        let number = add_cell(
            &mut self.cells,
            Cell {
                shape: Shape::Const(tag),
                equal: false,
            },
        )?;
        Ok(number as usize)
    }

    // A label behind the others.
    fn add_label(&mut self, label: &Label) -> Result<usize, NoMemory>
        ensures { IfOk result (λ at. LabelMade self.old self.new at label.now) }
    {
        let index = self.labels.len();
        let copy = copy_label(self.alloc, label)?;
        self.labels.push(copy)?;
        Ok(index)
    }

    // A field, before the row of the others.
    fn add_field(&mut self, label: &Label, ty: usize, rest: usize) -> Result<usize, NoMemory>
        requires ty { NodeIn self.old.cells ty }
        requires rest { rest < length self.old.cells }
        requires sort { sort_at self.old.cells rest ≡ Sort.Fields }
        ensures { IfOk result (λ n. Made self.old self.new n Sort.Fields (λ θ. Fork (Field label.now) (θ ty) (θ rest))) }
    {
        let at = self.add_label(label)?;
        let node = self.add_pair(Tag::Field(at), ty, rest)?;
        Ok(node)
    }

    // A record of a first field and the row of the others.
    fn add_record(&mut self, label: &Label, ty: usize, rest: usize) -> Result<usize, NoMemory>
        requires ty { NodeIn self.old.cells ty }
        requires rest { rest < length self.old.cells }
        requires sort { sort_at self.old.cells rest ≡ Sort.Fields }
        ensures { IfOk result (λ n. Made self.old self.new n Sort.Type (λ θ. Fork (Record label.now) (θ ty) (θ rest))) }
    {
        let at = self.add_label(label)?;
        let node = self.add_pair(Tag::Record(at), ty, rest)?;
        Ok(node)
    }

    // A node for a type without bound variables, whose free variables are nodes.
    #[cycle(build)]
    fn build_ty(&mut self, ty: &Ty) -> Result<usize, NoMemory>
        requires frees { (n : ℕ) → IsTrue (has_free n ty.now) → NodeIn self.old.cells n }
        requires closed { IsTrue (is_closed ty.now) }
        ensures { IfOk result (λ n. Made self.old self.new n Sort.Type (λ θ. under θ ty.now)) }
    {
        match ty {
            Ty::Free(node) => Ok(*node as usize),
            Ty::Bound(_) => unreachable!(),
            Ty::Fields(fields) => {
                let node = self.build_record(fields.items())?;
                Ok(node)
            }
            Ty::Arrow(from, to) => {
                let a = self.build_ty(from.get())?;
                let b = self.build_ty(to.get())?;
                let node = self.add_pair(Tag::Arrow, a, b)?;
                Ok(node)
            }
            Ty::Con(name, args) => {
                let node = self.build_named(*name, args.items())?;
                Ok(node)
            }
        }
    }

    #[cycle(build)]
    fn build_record(&mut self, fields: &[(Label, Ty)]) -> Result<usize, NoMemory>
        requires frees { (n : ℕ) → IsTrue (list_any (λ f. f) (seconds (map_second (has_free n) fields.now))) → NodeIn self.old.cells n }
        requires closed { IsTrue (list_all (λ f. f) (seconds (map_second is_closed fields.now))) }
        ensures { IfOk result (λ n. Made self.old self.new n Sort.Type (λ θ. fields_tree (map_second (under θ) fields.now))) }
    {
        if fields.is_empty() {
            let node = self.add_const(Tag::NoFields)?;
            return Ok(node);
        }
        let mut rest = self.add_const(Tag::LastField)?;
        let mut left = fields.len();
        while left > 1 {
            left -= 1;
            let field = &fields[left];
            let ty = self.build_ty(&field.1)?;
            rest = self.add_field(&field.0, ty, rest)?;
        }
        let first = &fields[0];
        let ty = self.build_ty(&first.1)?;
        let node = self.add_record(&first.0, ty, rest)?;
        Ok(node)
    }

    #[cycle(build)]
    fn build_named(&mut self, name: TyName, args: &[Ty]) -> Result<usize, NoMemory>
        requires frees { (n : ℕ) → IsTrue (list_any (λ a. a) (map (has_free n) args.now)) → NodeIn self.old.cells n }
        requires closed { IsTrue (list_all (λ a. a) (map is_closed args.now)) }
        ensures { IfOk result (λ n. Made self.old self.new n Sort.Type (λ θ. named_tree name (map (under θ) args.now))) }
    {
        if args.is_empty() {
            let node = self.add_const(Tag::Named(name))?;
            return Ok(node);
        }
        let mut rest = self.add_const(Tag::LastArgument)?;
        let mut left = args.len();
        while left > 1 {
            left -= 1;
            let ty = self.build_ty(&args[left])?;
            rest = self.add_pair(Tag::Argument, ty, rest)?;
        }
        let ty = self.build_ty(&args[0])?;
        let node = self.add_pair(Tag::Named(name), ty, rest)?;
        Ok(node)
    }
}
