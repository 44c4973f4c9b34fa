//! The height of patterns.

ghost use Rattle.std.specs.Prelude.{◌≡◌, ◌-◌, ◌^◌, min, max, map};
ghost use Rattle.sml_ast.specs.Heights.{at_pat_height, field_height, greatest, pat_height};

use crate::height_ty::{opt_ty_height, ty_height};
use crate::pat::{AtPat, PField, Pat};

/// The height of an atomic pattern.
#[cycle(pat_height)]
pub(crate) fn at_pat_height(pat: &AtPat) -> u32
    ensures { result ≡ min (at_pat_height pat.now) (2 ^ 32 - 1) }
{
    match pat {
        AtPat::Any(..) | AtPat::PLit(..) | AtPat::PId(..) | AtPat::PUnit(..) => 1,
        AtPat::PFields(_, fields) => pat_fields_height(fields.items()).saturating_add(1),
        AtPat::PTuple(_, first, others) => pat_height(first.get())
            .max(pats_height(others.items()))
            .saturating_add(1),
        AtPat::PItems(_, items) => pats_height(items.items()).saturating_add(1),
        AtPat::PParen(_, inner) => pat_height(inner.get()).saturating_add(1),
    }
}

/// The height of a field of a record pattern.
#[cycle(pat_height)]
fn field_height(field: &PField) -> u32
    ensures { result ≡ min (field_height field.now) (2 ^ 32 - 1) }
{
    match field {
        PField::Rest(..) => 1,
        PField::Named(_, _, pat) => pat_height(pat).saturating_add(1),
        PField::Pun(_, _, ty, None) => opt_ty_height(ty).saturating_add(1),
        PField::Pun(_, _, ty, Some(pat)) => opt_ty_height(ty)
            .max(pat_height(pat))
            .saturating_add(1),
    }
}

/// The height of a pattern.
#[cycle(pat_height)]
pub(crate) fn pat_height(pat: &Pat) -> u32
    ensures { result ≡ min (pat_height pat.now) (2 ^ 32 - 1) }
{
    match pat {
        Pat::PAtom(_, atom) => at_pat_height(atom).saturating_add(1),
        Pat::PCon(_, _, _, atom) => at_pat_height(atom).saturating_add(1),
        Pat::PInfix(_, left, _, right) => pat_height(left.get())
            .max(pat_height(right.get()))
            .saturating_add(1),
        Pat::PTyped(_, inner, ty) => pat_height(inner.get()).max(ty_height(ty)).saturating_add(1),
        Pat::Layer(_, _, _, ty, inner) => opt_ty_height(ty)
            .max(pat_height(inner.get()))
            .saturating_add(1),
    }
}

/// The greatest height of a row of patterns.
#[cycle(pat_height)]
fn pats_height(pats: &[Pat]) -> u32
    ensures { result ≡ min (greatest (map pat_height pats.now)) (2 ^ 32 - 1) }
{
    let mut most = 0;
    for one in pats {
        most = most.max(pat_height(one));
    }
    most
}

/// The greatest height of the fields of a record pattern.
#[cycle(pat_height)]
fn pat_fields_height(fields: &[PField]) -> u32
    ensures { result ≡ min (greatest (map field_height fields.now)) (2 ^ 32 - 1) }
{
    let mut most = 0;
    for one in fields {
        most = most.max(field_height(one));
    }
    most
}

/// The greatest height of a row of atomic patterns.
pub(crate) fn at_pats_height(pats: &[AtPat]) -> u32
    ensures { result ≡ min (greatest (map at_pat_height pats.now)) (2 ^ 32 - 1) }
{
    let mut most = 0;
    for one in pats {
        most = most.max(at_pat_height(one));
    }
    most
}
