//! Forms that stand for a match: `case`, `if`, `andalso`, `orelse` and `#`.

ghost use Rattle.std.specs.Prelude.{◌≡◌, IfOk};
ghost use Rattle.sml_ast.specs.declared.bare_exp.BareAtExp.TheVariants as at_exp;
ghost use Rattle.sml_derive_forms.specs.Expressions as spec;

use crate::phrases::{atom, false_exp, lambda, new_exp, new_pat, paren, true_exp};
use crate::rows::two;
use sml_ast::{BareAtExp, BareAtPat, BareExp, BarePField, BarePat, BareRule, Label};
use sml_derive_core::{copy_label, variable};
use std::alloc::Global;
use tl_text::{List, Name, NoMemory, Place};

/// The record pattern `{label = v, ...}`.
fn picked(alloc: Global, place: Place, label: &Label) -> Result<BarePat, NoMemory>
    ensures { IfOk result (λ q. q ≡ spec.picked place label.now) }
{
    let pat = new_pat(alloc, place)?;
    let label = copy_label(alloc, label)?;
    let field = BarePField::Named(place, label, pat);
    let fields = two(alloc, field, BarePField::Rest(place))?;
    Ok(BarePat::PAtom(place, BareAtPat::PFields(place, fields)))
}

/// `#label`: `fn {label = v, ...} => v`.
pub fn pick(alloc: Global, place: Place, label: &Label) -> Result<BareAtExp, NoMemory>
    ensures { IfOk result (λ a. a ≡ at_exp.Paren place (spec.picker place label.now)) }
{
    let exp = new_exp(alloc, place)?;
    let exp = atom(alloc, place, exp)?;
    let pat = picked(alloc, place, label)?;
    let picker = lambda(alloc, place, pat, exp)?;
    paren(alloc, place, picker)
}

/// `case exp of rules`: `(fn rules) exp`.
pub fn case_of(
    alloc: Global,
    place: Place,
    exp: BareExp,
    rules: List<BareRule>,
) -> Result<BareExp, NoMemory>
    ensures { IfOk result (λ e. e ≡ spec.case_of place exp rules) }
{
    let exp = paren(alloc, place, exp)?;
    let rules = paren(alloc, place, BareExp::Fn(place, rules))?;
    let atoms = two(alloc, rules, exp)?;
    Ok(BareExp::Apply(place, atoms))
}

/// The rule `true => exp`.
fn true_rule(alloc: Global, place: Place, exp: BareExp) -> Result<BareRule, NoMemory>
    ensures { IfOk result (λ r. r ≡ spec.true_rule place exp) }
{
    let name = Name::new(alloc, b"true")?;
    let pat = variable(alloc, place, &(place, name))?;
    Ok(BareRule::Arm(place, pat, exp))
}

/// The rule `false => exp`.
fn false_rule(alloc: Global, place: Place, exp: BareExp) -> Result<BareRule, NoMemory>
    ensures { IfOk result (λ r. r ≡ spec.false_rule place exp) }
{
    let name = Name::new(alloc, b"false")?;
    let pat = variable(alloc, place, &(place, name))?;
    Ok(BareRule::Arm(place, pat, exp))
}

/// The rules `true => first | false => other`.
fn branches(
    alloc: Global,
    place: Place,
    first: BareExp,
    other: BareExp,
) -> Result<List<BareRule>, NoMemory>
    ensures { IfOk result (λ rs. rs ≡ spec.branches place first other) }
{
    let first = true_rule(alloc, place, first)?;
    let other = false_rule(alloc, place, other)?;
    two(alloc, first, other)
}

/// `if test then first else other`: `case test of true => first | false => other`.
pub fn choice(
    alloc: Global,
    place: Place,
    test: BareExp,
    first: BareExp,
    other: BareExp,
) -> Result<BareExp, NoMemory>
    ensures { IfOk result (λ e. e ≡ spec.choice place test first other) }
{
    let rules = branches(alloc, place, first, other)?;
    case_of(alloc, place, test, rules)
}

/// `left andalso right`: `if left then right else false`.
pub fn both(alloc: Global, place: Place, left: BareExp, right: BareExp) -> Result<BareExp, NoMemory>
    ensures { IfOk result (λ e. e ≡ spec.both place left right) }
{
    let other = false_exp(alloc, place)?;
    choice(alloc, place, left, right, other)
}

/// `left orelse right`: `if left then true else right`.
pub fn either(
    alloc: Global,
    place: Place,
    left: BareExp,
    right: BareExp,
) -> Result<BareExp, NoMemory>
    ensures { IfOk result (λ e. e ≡ spec.either place left right) }
{
    let first = true_exp(alloc, place)?;
    choice(alloc, place, left, first, right)
}
