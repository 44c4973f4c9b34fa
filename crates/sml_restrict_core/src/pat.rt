//! Patterns.

ghost use Rattle.std.specs.Prelude.{◌≡◌, map, option_map};
ghost use Rattle.sml_restrict_core.specs.Breaches.{after, joined};
ghost use Rattle.sml_restrict_core.specs.Patterns.{at_pat_breaches, at_pat_tyvars, at_pat_variable, equals_pat, field_again, field_breaches, field_tyvars, fields_twice, label_at, pat_breaches, pat_tyvars, pat_variable, single};
ghost use Rattle.sml_restrict_core.specs.Repeats.{contains, same_lab};
ghost use Rattle.sml_ast.specs.declared.name.Lab.TheVariants as lab;

use crate::breach::add;
use crate::fixed::{check_name, is_spelled, same_name};
use crate::ty::{check_opt_ty, check_ty, occurs_in_opt_ty, occurs_in_ty, same_label};
use sml_ast::{AtPat, Lab, LongIdent, PField, Pat};
use tl_text::{Code, Name, Place, Refusal};

/// A breach where `=` stands as a pattern.
fn check_equals(long: &LongIdent, found: Option<Refusal>) -> Option<Refusal>
    ensures { result ≡ after found (equals_pat long.now) }
{
    match long.1.parts() {
        [name] => {
            if is_spelled(name, b"=") {
                add(found, Code::Rebinds, long.0)
            } else {
                found
            }
        },
        _ => found,
    }
}

/// Whether a label is the word.
fn is_word(label: &Lab, word: &Name) -> bool
    ensures { result ≡ same_lab label.now (lab.Word word.now) }
{
    match label {
        Lab::Num(_) => false,
        Lab::Word(other) => same_name(other, word),
    }
}

/// Whether a word is the label.
fn is_label(word: &Name, label: &Lab) -> bool
    ensures { result ≡ same_lab (lab.Word word.now) label.now }
{
    match label {
        Lab::Num(_) => false,
        Lab::Word(other) => same_name(word, other),
    }
}

/// A breach where a later field has the label of an earlier one.
fn check_label_at(first: &PField, other: &PField, found: Option<Refusal>) -> Option<Refusal>
    ensures { result ≡ after found (label_at (field_breaches first.now).0 (field_breaches other.now).0) }
{
    let (again, place) = match (first, other) {
        (PField::Rest(p), _) | (_, PField::Rest(p)) => (false, *p),
        (PField::Named(_, x, _), PField::Named(_, y, _)) => (same_label(&y.1, &x.1), y.0),
        (PField::Named(_, x, _), PField::Pun(_, y, _, _)) => (is_label(&y.1, &x.1), y.0),
        (PField::Pun(_, x, _, _), PField::Named(_, y, _)) => (is_word(&y.1, &x.1), y.0),
        (PField::Pun(_, x, _, _), PField::Pun(_, y, _, _)) => (same_name(&y.1, &x.1), y.0),
    };
    if again {
        add(found, Code::Repeated, place)
    } else {
        found
    }
}

/// A breach at each field that has the label of the first.
#[tactic(auto, using(crate::proofs::After::breaches, crate::proofs::Folds::pats))]
fn check_field_again(
    first: &PField,
    others: &[PField],
    mut found: Option<Refusal>,
) -> Option<Refusal>
    ensures { result ≡ after found (field_again (field_breaches first.now).0 (map (λ f. f.0) (map field_breaches others.now))) }
{
    for other in others {
        found = check_label_at(first, other, found);
    }
    found
}

/// A breach at each field that has the label of an earlier one.
#[tactic(auto, using(crate::proofs::After::breaches, crate::proofs::Folds::pats))]
fn check_fields_twice(fields: &[PField], mut found: Option<Refusal>) -> Option<Refusal>
    ensures { result ≡ after found (fields_twice (map (λ f. f.0) (map field_breaches fields.now))) }
{
    let mut rest = fields;
    while let Some((field, others)) = rest.split_first() {
        found = check_field_again(field, others, found);
        rest = others;
    }
    found
}

/// The breaches in an atomic pattern.
#[cycle(check_pat)]
#[tactic(auto, using(crate::proofs::After::breaches, crate::proofs::Folds::pats))]
pub fn check_at_pat(pat: &AtPat, found: Option<Refusal>) -> Option<Refusal>
    ensures { result ≡ after found (at_pat_breaches pat.now) }
{
    match pat {
        AtPat::Any(..) | AtPat::PLit(..) | AtPat::PUnit(..) => found,
        AtPat::PId(_, _, long) => check_equals(long, found),
        AtPat::PFields(_, fields) => {
            let found = check_fields_twice(fields.items(), found);
            check_fields(fields.items(), found)
        },
        AtPat::PTuple(_, first, others) => {
            let found = check_pat(first.get(), found);
            check_pats(others.items(), found)
        },
        AtPat::PItems(_, items) => check_pats(items.items(), found),
        AtPat::PParen(_, inner) => check_pat(inner.get(), found),
    }
}

/// The breaches in a field of a record pattern.
#[cycle(check_pat)]
#[tactic(auto, using(crate::proofs::After::breaches, crate::proofs::Folds::pats))]
fn check_field(field: &PField, found: Option<Refusal>) -> Option<Refusal>
    ensures { result ≡ after found (field_breaches field.now).1 }
{
    match field {
        PField::Rest(..) => found,
        PField::Named(_, _, pat) => check_pat(pat, found),
        PField::Pun(_, x, ty, under) => match under {
            None => check_opt_ty(ty, found),
            Some(pat) => {
                let found = check_name(x, found);
                let found = check_opt_ty(ty, found);
                check_pat(pat, found)
            },
        },
    }
}

/// The breaches in a pattern.
#[cycle(check_pat)]
#[tactic(auto, using(crate::proofs::After::breaches, crate::proofs::Folds::pats))]
pub fn check_pat(pat: &Pat, found: Option<Refusal>) -> Option<Refusal>
    ensures { result ≡ after found (pat_breaches pat.now) }
{
    match pat {
        Pat::PAtom(_, atom) | Pat::PCon(_, _, _, atom) => check_at_pat(atom, found),
        Pat::PInfix(_, left, _, right) => {
            let found = check_pat(left.get(), found);
            check_pat(right.get(), found)
        },
        Pat::PTyped(_, inner, ty) => {
            let found = check_pat(inner.get(), found);
            check_ty(ty, found)
        },
        Pat::Layer(_, _, x, ty, inner) => {
            let found = check_name(x, found);
            let found = check_opt_ty(ty, found);
            check_pat(inner.get(), found)
        },
    }
}

/// The breaches in a row of patterns.
#[cycle(check_pat)]
#[tactic(auto, using(crate::proofs::After::breaches, crate::proofs::Folds::pats))]
fn check_pats(pats: &[Pat], mut found: Option<Refusal>) -> Option<Refusal>
    ensures { result ≡ after found (joined (map pat_breaches pats.now)) }
{
    for one in pats {
        found = check_pat(one, found);
    }
    found
}

/// The breaches in the fields of a record pattern.
#[cycle(check_pat)]
#[tactic(auto, using(crate::proofs::After::breaches, crate::proofs::Folds::pats))]
fn check_fields(fields: &[PField], mut found: Option<Refusal>) -> Option<Refusal>
    ensures { result ≡ after found (joined (map (λ f. f.1) (map field_breaches fields.now))) }
{
    for one in fields {
        found = check_field(one, found);
    }
    found
}

/// The breaches in a row of atomic patterns.
#[tactic(auto, using(crate::proofs::After::breaches, crate::proofs::Folds::pats))]
pub fn check_at_pats(pats: &[AtPat], mut found: Option<Refusal>) -> Option<Refusal>
    ensures { result ≡ after found (joined (map at_pat_breaches pats.now)) }
{
    for one in pats {
        found = check_at_pat(one, found);
    }
    found
}

/// Whether a type variable occurs in an atomic pattern.
#[cycle(occurs_in_pat)]
#[tactic(auto, using(crate::proofs::After::occurrences, crate::proofs::Folds::pats))]
pub fn occurs_in_at_pat(pat: &AtPat, name: &Name) -> bool
    ensures { result ≡ contains name.now (at_pat_tyvars pat.now) }
{
    match pat {
        AtPat::Any(..) | AtPat::PLit(..) | AtPat::PId(..) | AtPat::PUnit(..) => false,
        AtPat::PFields(_, fields) => occurs_in_fields(fields.items(), name),
        AtPat::PTuple(_, first, others) => {
            occurs_in_pat(first.get(), name) || occurs_in_pats(others.items(), name)
        },
        AtPat::PItems(_, items) => occurs_in_pats(items.items(), name),
        AtPat::PParen(_, inner) => occurs_in_pat(inner.get(), name),
    }
}

/// Whether it occurs in a field of a record pattern.
#[cycle(occurs_in_pat)]
#[tactic(auto, using(crate::proofs::After::occurrences, crate::proofs::Folds::pats))]
fn occurs_in_field(field: &PField, name: &Name) -> bool
    ensures { result ≡ contains name.now (field_tyvars field.now) }
{
    match field {
        PField::Rest(..) => false,
        PField::Named(_, _, pat) => occurs_in_pat(pat, name),
        PField::Pun(_, _, ty, under) => match under {
            None => occurs_in_opt_ty(ty, name),
            Some(pat) => occurs_in_opt_ty(ty, name) || occurs_in_pat(pat, name),
        },
    }
}

/// Whether it occurs in a pattern.
#[cycle(occurs_in_pat)]
#[tactic(auto, using(crate::proofs::After::occurrences, crate::proofs::Folds::pats))]
pub fn occurs_in_pat(pat: &Pat, name: &Name) -> bool
    ensures { result ≡ contains name.now (pat_tyvars pat.now) }
{
    match pat {
        Pat::PAtom(_, atom) | Pat::PCon(_, _, _, atom) => occurs_in_at_pat(atom, name),
        Pat::PInfix(_, left, _, right) => {
            occurs_in_pat(left.get(), name) || occurs_in_pat(right.get(), name)
        },
        Pat::PTyped(_, inner, ty) => occurs_in_pat(inner.get(), name) || occurs_in_ty(ty, name),
        Pat::Layer(_, _, _, ty, inner) => {
            occurs_in_opt_ty(ty, name) || occurs_in_pat(inner.get(), name)
        },
    }
}

/// Whether it occurs in a row of patterns.
#[cycle(occurs_in_pat)]
#[tactic(auto, using(crate::proofs::After::occurrences, crate::proofs::Folds::pats))]
fn occurs_in_pats(pats: &[Pat], name: &Name) -> bool
    ensures { result ≡ contains name.now (joined (map pat_tyvars pats.now)) }
{
    for one in pats {
        if occurs_in_pat(one, name) {
            return true;
        }
    }
    false
}

/// Whether it occurs in the fields of a record pattern.
#[cycle(occurs_in_pat)]
#[tactic(auto, using(crate::proofs::After::occurrences, crate::proofs::Folds::pats))]
fn occurs_in_fields(fields: &[PField], name: &Name) -> bool
    ensures { result ≡ contains name.now (joined (map field_tyvars fields.now)) }
{
    for one in fields {
        if occurs_in_field(one, name) {
            return true;
        }
    }
    false
}

/// Whether it occurs in a row of atomic patterns.
#[tactic(auto, using(crate::proofs::After::occurrences, crate::proofs::Folds::pats))]
pub fn occurs_in_at_pats(pats: &[AtPat], name: &Name) -> bool
    ensures { result ≡ contains name.now (joined (map at_pat_tyvars pats.now)) }
{
    for one in pats {
        if occurs_in_at_pat(one, name) {
            return true;
        }
    }
    false
}

/// The identifier of a path of one part.
fn single_of(long: &LongIdent) -> Option<(Place, &Name)>
    ensures { option_map (λ v. (v.0, v.1.now)) result ≡ single long.now }
{
    match long.1.parts() {
        [name] => Some((long.0, name)),
        _ => None,
    }
}

/// The variable that an atomic pattern is.
#[cycle(variable_of)]
fn at_pat_variable_of(pat: &AtPat) -> Option<(Place, &Name)>
    ensures { option_map (λ v. (v.0, v.1.now)) result ≡ at_pat_variable pat.now }
{
    match pat {
        AtPat::PId(_, _, long) => single_of(long),
        AtPat::PParen(_, inner) => variable_of(inner.get()),
        AtPat::Any(..)
        | AtPat::PLit(..)
        | AtPat::PFields(..)
        | AtPat::PUnit(..)
        | AtPat::PTuple(..)
        | AtPat::PItems(..) => None,
    }
}

/// The variable that a pattern is, with its place: parentheses and constraints may stand round it.
#[cycle(variable_of)]
pub fn variable_of(pat: &Pat) -> Option<(Place, &Name)>
    ensures { option_map (λ v. (v.0, v.1.now)) result ≡ pat_variable pat.now }
{
    match pat {
        Pat::PAtom(_, atom) => at_pat_variable_of(atom),
        Pat::PTyped(_, inner, _) => variable_of(inner.get()),
        Pat::PCon(..) | Pat::PInfix(..) | Pat::Layer(..) => None,
    }
}
