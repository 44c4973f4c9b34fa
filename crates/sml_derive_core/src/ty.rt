//! Types.

ghost use Rattle.std.specs.Prelude.{◌≡◌, ◌∷◌, IfOk, map};
ghost use Rattle.tl_text.specs.Pairs.{map_second};
ghost use Rattle.sml_derive_core.specs.Names.{numbered};
ghost use Rattle.sml_derive_core.specs.Types.{derived_ty, derived_opt_ty};

use crate::copy::{copy_ident, copy_label, copy_long};
use sml_ast::{BareTy, Lab, Label, Ty};
use std::alloc::Global;
use tl_text::{Boxed, List, NoMemory, Place};

/// The type without derived forms.
#[cycle(derive_ty)]
pub fn derive_ty(alloc: Global, ty: &Ty) -> Result<BareTy, NoMemory>
    ensures { IfOk result (λ t. t ≡ derived_ty ty.now) }
{
    match ty {
        Ty::Tyvar(p, v) => Ok(BareTy::Tyvar(*p, copy_ident(alloc, v)?)),
        Ty::TFields(p, fields) => {
            let fields = derive_ty_fields(alloc, fields.items())?;
            Ok(BareTy::TFields(*p, fields))
        },
        Ty::TCon(p, args, con) => {
            let args = derive_tys(alloc, args.items())?;
            Ok(BareTy::TCon(*p, args, copy_long(alloc, con)?))
        },
        Ty::TTuple(p, first, others) => {
            let first = derive_ty(alloc, first.get())?;
            let others = derive_tys(alloc, others.items())?;
            Ok(BareTy::TFields(*p, numbered_tys(alloc, *p, first, others)?))
        },
        Ty::Arrow(p, from, to) => {
            let from = Boxed::new(alloc, derive_ty(alloc, from.get())?)?;
            let to = Boxed::new(alloc, derive_ty(alloc, to.get())?)?;
            Ok(BareTy::Arrow(*p, from, to))
        },
        Ty::TParen(p, inner) => {
            let inner = derive_ty(alloc, inner.get())?;
            Ok(BareTy::TParen(*p, Boxed::new(alloc, inner)?))
        },
    }
}

/// The types of a row.
#[cycle(derive_ty)]
fn derive_tys(alloc: Global, tys: &[Ty]) -> Result<List<BareTy>, NoMemory>
    ensures { IfOk result (λ ts. ts ≡ map derived_ty tys.now) }
{
    let mut done = List::new(alloc);
    for one in tys {
        done.push(derive_ty(alloc, one)?)?;
    }
    Ok(done)
}

/// The types of a record's fields.
#[cycle(derive_ty)]
fn derive_ty_fields(
    alloc: Global,
    fields: &[(Label, Ty)],
) -> Result<List<(Label, BareTy)>, NoMemory>
    ensures { IfOk result (λ fs. fs ≡ map_second derived_ty fields.now) }
{
    let mut done = List::new(alloc);
    for one in fields {
        let label = copy_label(alloc, &one.0)?;
        let ty = derive_ty(alloc, &one.1)?;
        done.push((label, ty))?;
    }
    Ok(done)
}

/// A row of types under the labels from 1 on.
fn numbered_tys(
    alloc: Global,
    place: Place,
    first: BareTy,
    others: List<BareTy>,
) -> Result<List<(Label, BareTy)>, NoMemory>
    ensures { IfOk result (λ fs. fs ≡ numbered place 1 (first ∷ others)) }
{
    let mut done = List::new(alloc);
    done.push(((place, Lab::Num(1)), first))?;
    let mut number = 1u32;
    for one in others.into_vec() {
        number = number.checked_add(1).ok_or(NoMemory)?;
        done.push(((place, Lab::Num(number)), one))?;
    }
    Ok(done)
}

/// The type without derived forms, where there is one.
pub fn derive_opt_ty(alloc: Global, ty: &Option<Ty>) -> Result<Option<BareTy>, NoMemory>
    ensures { IfOk result (λ t. t ≡ derived_opt_ty ty.now) }
{
    match ty {
        None => Ok(None),
        Some(ty) => Ok(Some(derive_ty(alloc, ty)?)),
    }
}
