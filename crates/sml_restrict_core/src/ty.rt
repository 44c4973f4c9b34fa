//! Types.

ghost use Rattle.std.specs.Prelude.{◌≡◌, map};
ghost use Rattle.tl_text.specs.Pairs.{map_second, seconds};
ghost use Rattle.sml_restrict_core.specs.Breaches.{after, joined};
ghost use Rattle.sml_restrict_core.specs.Repeats.{contains, label_again, labels_twice, same_lab};
ghost use Rattle.sml_restrict_core.specs.Types.{labels, opt_ty_breaches, opt_tyvars, ty_breaches, tyvars, unbound};

use crate::breach::add;
use crate::fixed::same_name;
use sml_ast::{Ident, Lab, Label, Ty};
use tl_text::{Code, Name, Refusal};

/// Whether two labels are spelled alike.
pub(crate) fn same_label(a: &Lab, b: &Lab) -> bool
    ensures { result ≡ same_lab a.now b.now }
{
    match (a, b) {
        (Lab::Num(m), Lab::Num(n)) => *m == *n,
        (Lab::Word(x), Lab::Word(y)) => same_name(x, y),
        (Lab::Num(_), Lab::Word(_)) | (Lab::Word(_), Lab::Num(_)) => false,
    }
}

/// A breach at each field that has the label.
fn check_label<T>(label: &Lab, others: &[(Label, T)], mut found: Option<Refusal>) -> Option<Refusal>
    ensures { result ≡ after found (label_again label.now (labels others.now)) }
{
    for other in others {
        if same_label(&other.0.1, label) {
            found = add(found, Code::Repeated, other.0.0);
        }
    }
    found
}

/// A breach at each field that has the label of an earlier one.
#[tactic(auto, using(crate::proofs::After::breaches, crate::proofs::Folds::tys))]
pub fn check_labels<T>(fields: &[(Label, T)], mut found: Option<Refusal>) -> Option<Refusal>
    ensures { result ≡ after found (labels_twice (labels fields.now)) }
{
    let mut rest = fields;
    while let Some((field, others)) = rest.split_first() {
        found = check_label(&field.0.1, others, found);
        rest = others;
    }
    found
}

/// The breaches in a type.
#[cycle(check_ty)]
#[tactic(auto, using(crate::proofs::After::breaches, crate::proofs::Folds::tys))]
pub fn check_ty(ty: &Ty, found: Option<Refusal>) -> Option<Refusal>
    ensures { result ≡ after found (ty_breaches ty.now) }
{
    match ty {
        Ty::Tyvar(..) => found,
        Ty::TFields(_, fields) => {
            let found = check_labels(fields.items(), found);
            check_ty_fields(fields.items(), found)
        },
        Ty::TCon(_, args, _) => check_tys(args.items(), found),
        Ty::TTuple(_, first, others) => {
            let found = check_ty(first.get(), found);
            check_tys(others.items(), found)
        },
        Ty::Arrow(_, from, to) => {
            let found = check_ty(from.get(), found);
            check_ty(to.get(), found)
        },
        Ty::TParen(_, inner) => check_ty(inner.get(), found),
    }
}

/// The breaches in a row of types.
#[cycle(check_ty)]
#[tactic(auto, using(crate::proofs::After::breaches, crate::proofs::Folds::tys))]
fn check_tys(tys: &[Ty], mut found: Option<Refusal>) -> Option<Refusal>
    ensures { result ≡ after found (joined (map ty_breaches tys.now)) }
{
    for one in tys {
        found = check_ty(one, found);
    }
    found
}

/// The breaches in the types of a record's fields.
#[cycle(check_ty)]
#[tactic(auto, using(crate::proofs::After::breaches, crate::proofs::Folds::tys))]
fn check_ty_fields(fields: &[(Label, Ty)], mut found: Option<Refusal>) -> Option<Refusal>
    ensures { result ≡ after found (joined (seconds (map_second ty_breaches fields.now))) }
{
    for one in fields {
        found = check_ty(&one.1, found);
    }
    found
}

/// The breaches in a type that may be missing.
pub fn check_opt_ty(ty: &Option<Ty>, found: Option<Refusal>) -> Option<Refusal>
    ensures { result ≡ after found (opt_ty_breaches ty.now) }
{
    match ty {
        None => found,
        Some(ty) => check_ty(ty, found),
    }
}

/// Whether a name is among those of a row.
pub fn has_name(name: &Name, row: &[Ident]) -> bool
    ensures { result ≡ contains name.now row.now }
{
    for one in row {
        if same_name(&one.1, name) {
            return true;
        }
    }
    false
}

/// A breach at each type variable of a type that is not among the parameters.
#[cycle(check_unbound)]
#[tactic(auto, using(crate::proofs::After::scopes, crate::proofs::Folds::tys))]
pub fn check_unbound(params: &[Ident], ty: &Ty, found: Option<Refusal>) -> Option<Refusal>
    ensures { result ≡ after found (unbound params.now (tyvars ty.now)) }
{
    match ty {
        Ty::Tyvar(_, var) => {
            if has_name(&var.1, params) {
                found
            } else {
                add(found, Code::TyvarScope, var.0)
            }
        },
        Ty::TFields(_, fields) => check_unbound_fields(params, fields.items(), found),
        Ty::TCon(_, args, _) => check_unbound_tys(params, args.items(), found),
        Ty::TTuple(_, first, others) => {
            let found = check_unbound(params, first.get(), found);
            check_unbound_tys(params, others.items(), found)
        },
        Ty::Arrow(_, from, to) => {
            let found = check_unbound(params, from.get(), found);
            check_unbound(params, to.get(), found)
        },
        Ty::TParen(_, inner) => check_unbound(params, inner.get(), found),
    }
}

/// The same of a row of types.
#[cycle(check_unbound)]
#[tactic(auto, using(crate::proofs::After::scopes, crate::proofs::Folds::tys))]
fn check_unbound_tys(params: &[Ident], tys: &[Ty], mut found: Option<Refusal>) -> Option<Refusal>
    ensures { result ≡ after found (unbound params.now (joined (map tyvars tys.now))) }
{
    for one in tys {
        found = check_unbound(params, one, found);
    }
    found
}

/// The same of the types of a record's fields.
#[cycle(check_unbound)]
#[tactic(auto, using(crate::proofs::After::scopes, crate::proofs::Folds::tys))]
fn check_unbound_fields(
    params: &[Ident],
    fields: &[(Label, Ty)],
    mut found: Option<Refusal>,
) -> Option<Refusal>
    ensures { result ≡ after found (unbound params.now (joined (seconds (map_second tyvars fields.now)))) }
{
    for one in fields {
        found = check_unbound(params, &one.1, found);
    }
    found
}

/// Whether a type variable occurs in a type.
#[cycle(occurs_in_ty)]
#[tactic(auto, using(crate::proofs::After::occurrences, crate::proofs::Folds::tys))]
pub fn occurs_in_ty(ty: &Ty, name: &Name) -> bool
    ensures { result ≡ contains name.now (tyvars ty.now) }
{
    match ty {
        Ty::Tyvar(_, var) => same_name(&var.1, name),
        Ty::TFields(_, fields) => occurs_in_ty_fields(fields.items(), name),
        Ty::TCon(_, args, _) => occurs_in_tys(args.items(), name),
        Ty::TTuple(_, first, others) => {
            occurs_in_ty(first.get(), name) || occurs_in_tys(others.items(), name)
        },
        Ty::Arrow(_, from, to) => occurs_in_ty(from.get(), name) || occurs_in_ty(to.get(), name),
        Ty::TParen(_, inner) => occurs_in_ty(inner.get(), name),
    }
}

/// Whether it occurs in a row of types.
#[cycle(occurs_in_ty)]
#[tactic(auto, using(crate::proofs::After::occurrences, crate::proofs::Folds::tys))]
fn occurs_in_tys(tys: &[Ty], name: &Name) -> bool
    ensures { result ≡ contains name.now (joined (map tyvars tys.now)) }
{
    for one in tys {
        if occurs_in_ty(one, name) {
            return true;
        }
    }
    false
}

/// Whether it occurs in the types of a record's fields.
#[cycle(occurs_in_ty)]
#[tactic(auto, using(crate::proofs::After::occurrences, crate::proofs::Folds::tys))]
fn occurs_in_ty_fields(fields: &[(Label, Ty)], name: &Name) -> bool
    ensures { result ≡ contains name.now (joined (seconds (map_second tyvars fields.now))) }
{
    for one in fields {
        if occurs_in_ty(&one.1, name) {
            return true;
        }
    }
    false
}

/// Whether it occurs in a type that may be missing.
pub fn occurs_in_opt_ty(ty: &Option<Ty>, name: &Name) -> bool
    ensures { result ≡ contains name.now (opt_tyvars ty.now) }
{
    match ty {
        None => false,
        Some(ty) => occurs_in_ty(ty, name),
    }
}
