ghost use Rattle.std.specs.Prelude.{◌≡◌, map, IfOk};
ghost use Rattle.tl_text.specs.Pairs.{map_second};
ghost use Rattle.std.specs.List.{slice_index_or};
ghost use Rattle.sml_static.specs.Types.{applied};
ghost use Rattle.sml_static.specs.declared.ty.Ty.TheVariants as ty;

use crate::copy::{copy_label, copy_ty};
use crate::ty::{Label, Ty};
use std::alloc::Global;
use tl_text::{Boxed, List, NoMemory};

/// The type with each bound variable replaced by the argument at its place; one that has no argument
/// stays. So a type function is applied, and a scheme has its instances (the Definition, sections 4.4
/// and 4.5). NoMemory where none is left.
#[cycle(apply)]
pub fn apply_ty(alloc: Global, ty: &Ty, args: &[Ty]) -> Result<Ty, NoMemory>
    ensures { IfOk result (λ t. t ≡ applied args.now ty.now) }
{
    match ty {
        Ty::Free(node) => Ok(Ty::Free(*node)),
        Ty::Bound(place) => argument_at(alloc, args, *place),
        Ty::Fields(fields) => Ok(Ty::Fields(apply_fields(alloc, fields.items(), args)?)),
        Ty::Arrow(from, to) => {
            let from = Boxed::new(alloc, apply_ty(alloc, from.get(), args)?)?;
            let to = Boxed::new(alloc, apply_ty(alloc, to.get(), args)?)?;
            Ok(Ty::Arrow(from, to))
        }
        Ty::Con(name, tys) => Ok(Ty::Con(*name, apply_all(alloc, tys.items(), args)?)),
    }
}

// What stands for the bound variable at that place.
fn argument_at(alloc: Global, args: &[Ty], place: u32) -> Result<Ty, NoMemory>
    ensures { IfOk result (λ t. t ≡ slice_index_or args.now place (ty.Bound place)) }
{
    let index = place as usize;
    if index < args.len() {
        copy_ty(alloc, &args[index])
    } else {
        Ok(Ty::Bound(place))
    }
}

#[cycle(apply)]
fn apply_fields(
    alloc: Global,
    fields: &[(Label, Ty)],
    args: &[Ty],
) -> Result<List<(Label, Ty)>, NoMemory>
    ensures { IfOk result (λ fs. fs ≡ map_second (applied args.now) fields.now) }
{
    let mut done = List::new(alloc);
    for field in fields {
        let label = copy_label(alloc, &field.0)?;
        done.push((label, apply_ty(alloc, &field.1, args)?))?;
    }
    Ok(done)
}

#[cycle(apply)]
fn apply_all(alloc: Global, tys: &[Ty], args: &[Ty]) -> Result<List<Ty>, NoMemory>
    ensures { IfOk result (λ ts. ts ≡ map (applied args.now) tys.now) }
{
    let mut done = List::new(alloc);
    for ty in tys {
        done.push(apply_ty(alloc, ty, args)?)?;
    }
    Ok(done)
}
