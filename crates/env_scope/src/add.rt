ghost use Rattle.std.specs.Prelude.{◌≡◌, Some, cond, ℕ, List, IfOk};
ghost use Rattle.std.specs.Str.{bytes_eq};
ghost use Rattle.env_arena.specs.Spelling.{spelled_str};
ghost use Rattle.env_scope.specs.Index.{bound, val_of, tycon_of, str_of, Adds, AddsAll, Keeps};

use crate::binding::find;
use crate::insert::insert;
use crate::number::number_of;
use crate::tree::{Binding, Tree};
use bumpalo::Bump;
use env_arena::{StrNode, TyNode, ValNode};
use tl_text::NoMemory;

// The binding of a name, which has no parts where the tree has none.
fn known<'a>(tree: &Tree<'a>, name: &'a [u8]) -> Binding<'a>
    ensures name { result.name.now ≡ name.now }
    ensures val { val_of (Some result) ≡ val_of (bound tree.now name.now) }
    ensures tycon { tycon_of (Some result) ≡ tycon_of (bound tree.now name.now) }
    ensures str { str_of (Some result) ≡ str_of (bound tree.now name.now) }
{
    match find(tree, name) {
        Some(old) => Binding {
            name,
            val: old.val,
            tycon: old.tycon,
            str: old.str,
        },
        None => Binding {
            name,
            val: None,
            tycon: None,
            str: None,
        },
    }
}

// The tree with the binding in the place of what it had under its name.
fn put<'a>(arena: &'a Bump, tree: Tree<'a>, binding: Binding<'a>) -> Result<Tree<'a>, NoMemory>
    ensures { IfOk result (λ t. (n : List ℕ) → bound t n
        ≡ cond (bytes_eq binding.entry.name.now n) (Some binding.entry) (bound tree.entry n)) }
{
    let bits = number_of(binding.name);
    let tree = arena.try_alloc(tree)?;
    let binding = arena.try_alloc(binding)?;
    let more = insert(arena, tree, bits, 0, binding)?;
    Ok(more)
}

// The value under its name.
fn add_val<'a>(arena: &'a Bump, tree: Tree<'a>, val: &'a ValNode<'a>) -> Result<Tree<'a>, NoMemory>
    ensures vals { IfOk result (λ t. Adds val_of (λ v. v.name.now) val.now tree.entry t) }
    ensures tycons { IfOk result (λ t. Keeps tycon_of tree.entry t) }
    ensures strs { IfOk result (λ t. Keeps str_of tree.entry t) }
{
    let old = known(&tree, val.name);
    let binding = Binding {
        name: val.name,
        val: Some(val),
        tycon: old.tycon,
        str: old.str,
    };
    let more = put(arena, tree, binding)?;
    Ok(more)
}

// The values of a row, the last one under each name.
#[tactic(auto, using(crate::proofs::Rows::row_step))]
pub fn add_vals<'a>(
    arena: &'a Bump,
    tree: Tree<'a>,
    vals: &'a [ValNode<'a>],
) -> Result<Tree<'a>, NoMemory>
    ensures vals { IfOk result (λ t. AddsAll val_of (λ v. v.name.now) vals.now tree.entry t) }
    ensures tycons { IfOk result (λ t. Keeps tycon_of tree.entry t) }
    ensures strs { IfOk result (λ t. Keeps str_of tree.entry t) }
{
    let mut tree = tree;
    for val in vals {
        tree = add_val(arena, tree, val)?;
    }
    Ok(tree)
}

// The type constructor under its name.
fn add_tycon<'a>(
    arena: &'a Bump,
    tree: Tree<'a>,
    tycon: &'a TyNode<'a>,
) -> Result<Tree<'a>, NoMemory>
    ensures vals { IfOk result (λ t. Keeps val_of tree.entry t) }
    ensures tycons { IfOk result (λ t. Adds tycon_of (λ t. t.name.now) tycon.now tree.entry t) }
    ensures strs { IfOk result (λ t. Keeps str_of tree.entry t) }
{
    let old = known(&tree, tycon.name);
    let binding = Binding {
        name: tycon.name,
        val: old.val,
        tycon: Some(tycon),
        str: old.str,
    };
    let more = put(arena, tree, binding)?;
    Ok(more)
}

// The type constructors of a row, the last one under each name.
#[tactic(auto, using(crate::proofs::Rows::row_step))]
pub fn add_tycons<'a>(
    arena: &'a Bump,
    tree: Tree<'a>,
    tycons: &'a [TyNode<'a>],
) -> Result<Tree<'a>, NoMemory>
    ensures vals { IfOk result (λ t. Keeps val_of tree.entry t) }
    ensures tycons { IfOk result (λ t. AddsAll tycon_of (λ t. t.name.now) tycons.now tree.entry t) }
    ensures strs { IfOk result (λ t. Keeps str_of tree.entry t) }
{
    let mut tree = tree;
    for tycon in tycons {
        tree = add_tycon(arena, tree, tycon)?;
    }
    Ok(tree)
}

// The structure under its name.
fn add_str<'a>(arena: &'a Bump, tree: Tree<'a>, str: &'a StrNode<'a>) -> Result<Tree<'a>, NoMemory>
    ensures vals { IfOk result (λ t. Keeps val_of tree.entry t) }
    ensures tycons { IfOk result (λ t. Keeps tycon_of tree.entry t) }
    ensures strs { IfOk result (λ t. Adds str_of (λ s. (spelled_str s).0) str.now tree.entry t) }
{
    let old = known(&tree, str.name);
    let binding = Binding {
        name: str.name,
        val: old.val,
        tycon: old.tycon,
        str: Some(str),
    };
    let more = put(arena, tree, binding)?;
    Ok(more)
}

// The structures of a row, the last one under each name.
#[tactic(auto, using(crate::proofs::Rows::row_step))]
pub fn add_strs<'a>(
    arena: &'a Bump,
    tree: Tree<'a>,
    strs: &'a [StrNode<'a>],
) -> Result<Tree<'a>, NoMemory>
    ensures vals { IfOk result (λ t. Keeps val_of tree.entry t) }
    ensures tycons { IfOk result (λ t. Keeps tycon_of tree.entry t) }
    ensures strs { IfOk result (λ t. AddsAll str_of (λ s. (spelled_str s).0) strs.now tree.entry t) }
{
    let mut tree = tree;
    for str in strs {
        tree = add_str(arena, tree, str)?;
    }
    Ok(tree)
}
