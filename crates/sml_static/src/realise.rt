ghost use Rattle.std.specs.Prelude.{◌≡◌, map, IfOk};
ghost use Rattle.std.specs.Option.{option_map};
ghost use Rattle.tl_text.specs.Pairs.{map_second};
ghost use Rattle.sml_static.specs.Types.{function_of, named, realised};

use crate::apply::apply_ty;
use crate::copy::copy_label;
use crate::env::Realisation;
use crate::ty::{Label, Ty, TyFun, TyName};
use std::alloc::Global;
use tl_text::{Boxed, List, NoMemory};

/// The type with the realisation's type functions in the place of their type names (the Definition,
/// section 5.2). NoMemory where none is left.
#[cycle(realise)]
pub fn realise_ty(alloc: Global, phi: &Realisation, ty: &Ty) -> Result<Ty, NoMemory>
    ensures { IfOk result (λ t. t ≡ realised phi.now.pairs ty.now) }
{
    match ty {
        Ty::Free(node) => Ok(Ty::Free(*node)),
        Ty::Bound(place) => Ok(Ty::Bound(*place)),
        Ty::Fields(fields) => Ok(Ty::Fields(realise_fields(alloc, phi, fields.items())?)),
        Ty::Arrow(from, to) => {
            let from = Boxed::new(alloc, realise_ty(alloc, phi, from.get())?)?;
            let to = Boxed::new(alloc, realise_ty(alloc, phi, to.get())?)?;
            Ok(Ty::Arrow(from, to))
        }
        Ty::Con(name, args) => {
            let args = realise_all(alloc, phi, args.items())?;
            put_in(alloc, phi, *name, args)
        }
    }
}

// A type name applied to types, after its type function is put in, where there is one.
fn put_in(alloc: Global, phi: &Realisation, name: TyName, args: List<Ty>) -> Result<Ty, NoMemory>
    ensures { IfOk result (λ t. t ≡ named (function_of phi.now.pairs name) name args) }
{
    match find(phi.pairs.items(), name) {
        Some(function) => apply_ty(alloc, &function.body, args.items()),
        None => Ok(Ty::Con(name, args)),
    }
}

// The type function of the first pair that has the name's number.
fn find(pairs: &[(TyName, TyFun)], name: TyName) -> Option<&TyFun>
    ensures { option_map (λ f. f.now) result ≡ function_of pairs.now name }
{
    for pair in pairs {
        if pair.0.id == name.id {
            return Some(&pair.1);
        }
    }
    None
}

#[cycle(realise)]
fn realise_fields(
    alloc: Global,
    phi: &Realisation,
    fields: &[(Label, Ty)],
) -> Result<List<(Label, Ty)>, NoMemory>
    ensures { IfOk result (λ fs. fs ≡ map_second (realised phi.now.pairs) fields.now) }
{
    let mut done = List::new(alloc);
    for field in fields {
        let label = copy_label(alloc, &field.0)?;
        done.push((label, realise_ty(alloc, phi, &field.1)?))?;
    }
    Ok(done)
}

#[cycle(realise)]
fn realise_all(alloc: Global, phi: &Realisation, tys: &[Ty]) -> Result<List<Ty>, NoMemory>
    ensures { IfOk result (λ ts. ts ≡ map (realised phi.now.pairs) tys.now) }
{
    let mut done = List::new(alloc);
    for ty in tys {
        done.push(realise_ty(alloc, phi, ty)?)?;
    }
    Ok(done)
}
