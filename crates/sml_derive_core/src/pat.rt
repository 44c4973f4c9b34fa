//! Patterns.

ghost use Rattle.std.specs.Prelude.{◌≡◌, ◌∷◌, IfOk, map};
ghost use Rattle.sml_ast.specs.declared.name.Lab.TheVariants as lab;
ghost use Rattle.sml_ast.specs.declared.bare_pat.BarePField.TheVariants as field;
ghost use Rattle.sml_derive_core.specs.Patterns.{derived_at_pat, derived_field, derived_pat, numbered_fields, pun, variable_pat};

use crate::copy::{copy_ident, copy_label, copy_lit, copy_long, copy_name, long_of};
use crate::ty::{derive_opt_ty, derive_ty};
use sml_ast::{AtPat, BareAtPat, BarePField, BarePat, BareTy, Ident, Lab, PField, Pat};
use std::alloc::Global;
use tl_text::{Boxed, List, NoMemory, Place};

/// The atomic pattern without derived forms.
#[cycle(derive_pat)]
pub fn derive_at_pat(alloc: Global, pat: &AtPat) -> Result<BareAtPat, NoMemory>
    ensures { IfOk result (λ q. q ≡ derived_at_pat pat.now) }
{
    match pat {
        AtPat::Any(p) => Ok(BareAtPat::Any(*p)),
        AtPat::PLit(p, lit) => Ok(BareAtPat::PLit(*p, copy_lit(alloc, lit)?)),
        AtPat::PId(p, op, id) => Ok(BareAtPat::PId(*p, *op, copy_long(alloc, id)?)),
        AtPat::PFields(p, fields) => {
            Ok(BareAtPat::PFields(*p, derive_fields(alloc, fields.items())?))
        },
        AtPat::PUnit(p) => Ok(BareAtPat::PFields(*p, List::new(alloc))),
        AtPat::PTuple(p, first, others) => {
            let first = derive_pat(alloc, first.get())?;
            let others = derive_pats(alloc, others.items())?;
            Ok(BareAtPat::PFields(*p, number_fields(alloc, *p, first, others)?))
        },
        AtPat::PItems(p, items) => Ok(BareAtPat::PRow(*p, derive_pats(alloc, items.items())?)),
        AtPat::PParen(p, inner) => {
            let inner = derive_pat(alloc, inner.get())?;
            Ok(BareAtPat::PParen(*p, Boxed::new(alloc, inner)?))
        },
    }
}

/// The field of a record pattern without derived forms.
#[cycle(derive_pat)]
#[inline(never)]
fn derive_field(alloc: Global, field: &PField) -> Result<BarePField, NoMemory>
    ensures { IfOk result (λ f. f ≡ derived_field field.now) }
{
    match field {
        PField::Rest(p) => Ok(BarePField::Rest(*p)),
        PField::Named(p, label, pat) => {
            let label = copy_label(alloc, label)?;
            Ok(BarePField::Named(*p, label, derive_pat(alloc, pat)?))
        },
        PField::Pun(p, x, ty, None) => {
            let ty = derive_opt_ty(alloc, ty)?;
            pun_field(alloc, *p, x, ty, None)
        },
        PField::Pun(p, x, ty, Some(pat)) => {
            let pat = derive_pat(alloc, pat)?;
            let ty = derive_opt_ty(alloc, ty)?;
            pun_field(alloc, *p, x, ty, Some(pat))
        },
    }
}

/// The pattern without derived forms.
#[cycle(derive_pat)]
pub fn derive_pat(alloc: Global, pat: &Pat) -> Result<BarePat, NoMemory>
    ensures { IfOk result (λ q. q ≡ derived_pat pat.now) }
{
    match pat {
        Pat::PAtom(p, atom) => Ok(BarePat::PAtom(*p, derive_at_pat(alloc, atom)?)),
        Pat::PCon(p, op, con, atom) => {
            let con = copy_long(alloc, con)?;
            Ok(BarePat::PCon(*p, *op, con, derive_at_pat(alloc, atom)?))
        },
        Pat::PInfix(p, left, con, right) => {
            let left = Boxed::new(alloc, derive_pat(alloc, left.get())?)?;
            let right = Boxed::new(alloc, derive_pat(alloc, right.get())?)?;
            Ok(BarePat::PInfix(*p, left, copy_ident(alloc, con)?, right))
        },
        Pat::PTyped(p, inner, ty) => {
            let inner = Boxed::new(alloc, derive_pat(alloc, inner.get())?)?;
            Ok(BarePat::PTyped(*p, inner, derive_ty(alloc, ty)?))
        },
        Pat::Layer(p, op, x, ty, inner) => {
            let inner = Boxed::new(alloc, derive_pat(alloc, inner.get())?)?;
            let ty = derive_opt_ty(alloc, ty)?;
            Ok(BarePat::Layer(*p, *op, copy_ident(alloc, x)?, ty, inner))
        },
    }
}

/// The patterns of a row.
#[cycle(derive_pat)]
#[inline(never)]
fn derive_pats(alloc: Global, pats: &[Pat]) -> Result<List<BarePat>, NoMemory>
    ensures { IfOk result (λ qs. qs ≡ map derived_pat pats.now) }
{
    let mut done = List::new(alloc);
    for one in pats {
        done.push(derive_pat(alloc, one)?)?;
    }
    Ok(done)
}

/// The fields of a record pattern.
#[cycle(derive_pat)]
#[inline(never)]
fn derive_fields(alloc: Global, fields: &[PField]) -> Result<List<BarePField>, NoMemory>
    ensures { IfOk result (λ fs. fs ≡ map derived_field fields.now) }
{
    let mut done = List::new(alloc);
    for one in fields {
        done.push(derive_field(alloc, one)?)?;
    }
    Ok(done)
}

/// A row of patterns under the labels from 1 on.
#[inline(never)]
fn number_fields(
    alloc: Global,
    place: Place,
    first: BarePat,
    others: List<BarePat>,
) -> Result<List<BarePField>, NoMemory>
    ensures { IfOk result (λ fs. fs ≡ numbered_fields place 1 (first ∷ others)) }
{
    let mut done = List::new(alloc);
    done.push(BarePField::Named(place, (place, Lab::Num(1)), first))?;
    let mut number = 1u32;
    for one in others.into_vec() {
        number = number.checked_add(1).ok_or(NoMemory)?;
        done.push(BarePField::Named(place, (place, Lab::Num(number)), one))?;
    }
    Ok(done)
}

/// The pattern `x`.
pub fn variable(alloc: Global, place: Place, x: &Ident) -> Result<BarePat, NoMemory>
    ensures { IfOk result (λ q. q ≡ variable_pat place x.now) }
{
    let long = long_of(alloc, x)?;
    Ok(BarePat::PAtom(place, BareAtPat::PId(place, false, long)))
}

/// What `x : t as p` alone in a record pattern binds at the label x.
fn pun_pat(
    alloc: Global,
    place: Place,
    x: &Ident,
    ty: Option<BareTy>,
    pat: Option<BarePat>,
) -> Result<BarePat, NoMemory>
    ensures { IfOk result (λ q. q ≡ pun place x.now ty pat) }
{
    match (ty, pat) {
        (None, None) => variable(alloc, place, x),
        (Some(ty), None) => {
            let x = Boxed::new(alloc, variable(alloc, place, x)?)?;
            Ok(BarePat::PTyped(place, x, ty))
        },
        (ty, Some(pat)) => {
            let pat = Boxed::new(alloc, pat)?;
            Ok(BarePat::Layer(place, false, copy_ident(alloc, x)?, ty, pat))
        },
    }
}

/// The field that `x : t as p` alone in a record pattern stands for.
#[inline(never)]
fn pun_field(
    alloc: Global,
    place: Place,
    x: &Ident,
    ty: Option<BareTy>,
    pat: Option<BarePat>,
) -> Result<BarePField, NoMemory>
    ensures { IfOk result (λ f. f ≡ field.Named place (place, lab.Word x.now.1) (pun place x.now ty pat)) }
{
    let label = (place, Lab::Word(copy_name(alloc, &x.1)?));
    Ok(BarePField::Named(place, label, pun_pat(alloc, place, x, ty, pat)?))
}
