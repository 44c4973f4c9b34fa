ghost use Rattle.std.specs.Prelude.{◌≡◌, map, IfOk};
ghost use Rattle.env_arena.specs.Spelling.{label_of, spelled_field, spelled_ty};

use crate::node::{FieldNode, TypeNode};
use sml_static::{Label, Ty};
use std::alloc::Global;
use tl_text::{Boxed, List, Name, NoMemory};

// The type for which the node stands.
#[cycle(plain_ty)]
pub fn plain_ty(alloc: Global, node: &TypeNode<'_>) -> Result<Ty, NoMemory>
    ensures { IfOk result (λ t. t ≡ spelled_ty node.now) }
{
    match node {
        TypeNode::Bound(place) => Ok(Ty::Bound(*place)),
        TypeNode::Fields(fields) => Ok(Ty::Fields(plain_fields(alloc, fields)?)),
        TypeNode::Arrow(from, to) => {
            let from = Boxed::new(alloc, plain_ty(alloc, from)?)?;
            let to = Boxed::new(alloc, plain_ty(alloc, to)?)?;
            Ok(Ty::Arrow(from, to))
        }
        TypeNode::Con(name, args) => Ok(Ty::Con(*name, plain_all(alloc, args)?)),
    }
}

#[cycle(plain_ty)]
fn plain_fields(alloc: Global, fields: &[FieldNode<'_>]) -> Result<List<(Label, Ty)>, NoMemory>
    ensures { IfOk result (λ fs. fs ≡ map spelled_field fields.now) }
{
    let mut done = List::new(alloc);
    for field in fields {
        let label = plain_label(alloc, field.num, field.word)?;
        done.push((label, plain_ty(alloc, field.ty)?))?;
    }
    Ok(done)
}

#[cycle(plain_ty)]
fn plain_all(alloc: Global, nodes: &[TypeNode<'_>]) -> Result<List<Ty>, NoMemory>
    ensures { IfOk result (λ ts. ts ≡ map spelled_ty nodes.now) }
{
    let mut done = List::new(alloc);
    for node in nodes {
        done.push(plain_ty(alloc, node)?)?;
    }
    Ok(done)
}

// The label of a number and a word.
fn plain_label(alloc: Global, num: u32, word: &[u8]) -> Result<Label, NoMemory>
    ensures { IfOk result (λ l. l ≡ label_of num word.now) }
{
    if num == 0 {
        Ok(Label::Word(Name::new(alloc, word)?))
    } else {
        Ok(Label::Num(num))
    }
}
