ghost use Rattle.std.specs.Prelude.{◌≡◌, ◌&&◌, map, IfOk, IsTrue};
ghost use Rattle.std.specs.List.{list_all};
ghost use Rattle.tl_text.specs.Pairs.{map_second};
ghost use Rattle.env_arena.specs.Settled.{is_settled, is_settled_label};
ghost use Rattle.env_arena.specs.Spelling.{spelled_ty, spelled_field};

use crate::node::{FieldNode, TypeNode};
use bumpalo::Bump;
use bumpalo::collections::into_bump_slice;
use sml_static::{Label, Ty};
use tl_text::NoMemory;

// A node for the type.
#[cycle(put_ty)]
pub fn put_ty<'a>(arena: &'a Bump, ty: &Ty) -> Result<&'a TypeNode<'a>, NoMemory>
    requires { IsTrue (is_settled ty.now) }
    ensures { IfOk result (λ n. spelled_ty n.now ≡ ty.now) }
{
    let node = type_node(arena, ty)?;
    Ok(arena.try_alloc(node)?)
}

#[cycle(put_ty)]
fn type_node<'a>(arena: &'a Bump, ty: &Ty) -> Result<TypeNode<'a>, NoMemory>
    requires { IsTrue (is_settled ty.now) }
    ensures { IfOk result (λ n. spelled_ty n ≡ ty.now) }
{
    match ty {
        Ty::Free(_) => unreachable!(),
        Ty::Bound(place) => Ok(TypeNode::Bound(*place)),
        Ty::Fields(fields) => Ok(TypeNode::Fields(field_nodes(arena, fields.items())?)),
        Ty::Arrow(from, to) => {
            let from = put_ty(arena, from.get())?;
            let to = put_ty(arena, to.get())?;
            Ok(TypeNode::Arrow(from, to))
        }
        Ty::Con(name, args) => Ok(TypeNode::Con(*name, type_nodes(arena, args.items())?)),
    }
}

#[cycle(put_ty)]
fn type_nodes<'a>(arena: &'a Bump, tys: &[Ty]) -> Result<&'a [TypeNode<'a>], NoMemory>
    requires { IsTrue (list_all (λ a. a) (map is_settled tys.now)) }
    ensures { IfOk result (λ ns. map spelled_ty ns.now ≡ tys.now) }
{
    let mut nodes = Vec::with_capacity(arena, tys.len())?;
    for ty in tys {
        nodes.push(type_node(arena, ty)?)?;
    }
    Ok(into_bump_slice(nodes))
}

#[cycle(put_ty)]
fn field_nodes<'a>(arena: &'a Bump, fields: &[(Label, Ty)]) -> Result<&'a [FieldNode<'a>], NoMemory>
    requires { IsTrue (list_all (λ f. is_settled_label f.0 && f.1) (map_second is_settled fields.now)) }
    ensures { IfOk result (λ ns. map spelled_field ns.now ≡ fields.now) }
{
    let mut nodes = Vec::with_capacity(arena, fields.len())?;
    for field in fields {
        let ty = put_ty(arena, &field.1)?;
        nodes.push(field_node(arena, &field.0, ty)?)?;
    }
    Ok(into_bump_slice(nodes))
}

// A node for a field of that label, whose type the node stands for.
fn field_node<'a>(
    arena: &'a Bump,
    label: &Label,
    ty: &'a TypeNode<'a>,
) -> Result<FieldNode<'a>, NoMemory>
    requires { IsTrue (is_settled_label label.now) }
    ensures { IfOk result (λ n. spelled_field n ≡ (label.now, spelled_ty ty.now)) }
{
    match label {
        Label::Num(num) => Ok(FieldNode {
            num: *num,
            word: &[],
            ty,
        }),
        Label::Word(name) => {
            let word = arena.try_alloc_slice_copy(name.bytes())?;
            Ok(FieldNode { num: 0, word, ty })
        }
    }
}
