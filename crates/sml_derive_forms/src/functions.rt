//! What a function with its clauses stands for.

ghost use Rattle.std.specs.Prelude.{◌≡◌, ◌++◌, IfOk, OnOk, map};
ghost use Rattle.sml_derive_forms.specs.Functions as spec;

use crate::arguments::argument_pat;
use crate::clause::BareClause;
use crate::phrases::{atom, paren, unit};
use crate::rows::{number_exps, two};
use sml_ast::{BareAtExp, BareAtPat, BareExp, BarePat, BareRule, BareTy, Ident};
use sml_derive_core::{fresh, long_of};
use std::alloc::Global;
use tl_text::{Boxed, List, NoMemory, Place};

/// A new name as an expression.
fn variable_exp(alloc: Global, place: Place, name: &Ident) -> Result<BareExp, NoMemory>
    ensures { IfOk result (λ e. e ≡ spec.variable_exp place name.now) }
{
    let long = long_of(alloc, name)?;
    atom(alloc, place, BareAtExp::Id(place, false, long))
}

/// New names as expressions.
fn variable_exps(alloc: Global, place: Place, names: &[Ident]) -> Result<List<BareExp>, NoMemory>
    ensures { IfOk result (λ es. es ≡ map (spec.variable_exp place) names.now) }
{
    let mut done = List::new(alloc);
    for one in names {
        done.push(variable_exp(alloc, place, one)?)?;
    }
    Ok(done)
}

/// `(e, .., f)`
fn tuple_exp(alloc: Global, place: Place, exps: List<BareExp>) -> Result<BareAtExp, NoMemory>
    ensures { IfOk result (λ a. a ≡ spec.tuple_exp place exps) }
{
    match exps.items() {
        [] => Ok(unit(alloc, place)),
        [_] => {
            let mut items = exps.into_vec();
            let only = items.remove(0);
            paren(alloc, place, only)
        },
        [_, _, ..] => Ok(BareAtExp::Fields(place, number_exps(alloc, place, exps)?)),
    }
}

/// Adds a new name for each argument to `done`, from a number on.
fn add_variables(
    alloc: Global,
    place: Place,
    mut number: u32,
    args: &[BareAtPat],
    done: &mut List<Ident>,
) -> Result<(), NoMemory>
    ensures { OnOk result (done.new ≡ done.old ++ spec.variables place number args.now) }
{
    for arg in args {
        let _ = arg;
        let name = fresh(alloc, number)?;
        done.push((place, name))?;
        number = number.checked_add(1).ok_or(NoMemory)?;
    }
    Ok(())
}

/// The new names of a function, one for each argument.
fn variables(alloc: Global, place: Place, clause: &BareClause) -> Result<List<Ident>, NoMemory>
    ensures { IfOk result (λ vs. vs ≡ spec.variables place 1 (spec.arguments place clause.now)) }
{
    let mut done = List::new(alloc);
    match &clause.pair {
        None => {
            add_variables(alloc, place, 1, clause.args.items(), &mut done)?;
            Ok(done)
        },
        Some(_) => {
            let name = fresh(alloc, 1)?;
            done.push((place, name))?;
            add_variables(alloc, place, 2, clause.args.items(), &mut done)?;
            Ok(done)
        },
    }
}

/// A body with its type, where one is written.
fn constrained(
    alloc: Global,
    place: Place,
    ty: Option<BareTy>,
    body: BareExp,
) -> Result<BareExp, NoMemory>
    ensures { IfOk result (λ e. e ≡ spec.constrained place ty body) }
{
    match ty {
        None => Ok(body),
        Some(ty) => Ok(BareExp::Typed(place, Boxed::new(alloc, body)?, ty)),
    }
}

/// The rule of a clause.
fn clause_rule(alloc: Global, place: Place, clause: BareClause) -> Result<BareRule, NoMemory>
    ensures { IfOk result (λ r. r ≡ spec.clause_rule place clause) }
{
    let BareClause {
        place: at,
        op: _,
        name: _name,
        pair,
        args,
        ty,
        body,
    } = clause;
    let body = constrained(alloc, place, ty, body)?;
    let pat = argument_pat(alloc, place, pair, args)?;
    Ok(BareRule::Arm(at, pat, body))
}

/// The rules of the clauses of a function.
fn clause_rules(
    alloc: Global,
    place: Place,
    clauses: List<BareClause>,
) -> Result<List<BareRule>, NoMemory>
    ensures { IfOk result (λ rs. rs ≡ map (spec.clause_rule place) clauses) }
{
    let mut done = List::new(alloc);
    for one in clauses.into_vec() {
        done.push(clause_rule(alloc, place, one)?)?;
    }
    Ok(done)
}

/// `case (v, .., w) of rules`, whose `fn` stands at `at`.
fn matched(
    alloc: Global,
    place: Place,
    at: Place,
    names: &[Ident],
    rules: List<BareRule>,
) -> Result<BareExp, NoMemory>
    ensures { IfOk result (λ e. e ≡ spec.matched place at names.now rules) }
{
    let rules = paren(alloc, place, BareExp::Fn(at, rules))?;
    let exps = variable_exps(alloc, place, names)?;
    let tuple = tuple_exp(alloc, place, exps)?;
    let atoms = two(alloc, rules, tuple)?;
    Ok(BareExp::Apply(place, atoms))
}

/// `fn v => .. fn w => case (v, .., w) of rules`, whose `fn` with the rules stands at `at`.
fn curried(
    alloc: Global,
    place: Place,
    at: Place,
    names: List<Ident>,
    clauses: List<BareClause>,
) -> Result<BareExp, NoMemory>
    ensures { IfOk result (λ e. e ≡ spec.curried place at names (map (spec.clause_rule place) clauses)) }
{
    let rules = clause_rules(alloc, place, clauses)?;
    let body = matched(alloc, place, at, names.items(), rules)?;
    Ok(BareExp::Curried(place, names, Boxed::new(alloc, body)?))
}

/// The pattern of a function's name.
fn name_pat(alloc: Global, place: Place, clause: &BareClause) -> Result<BarePat, NoMemory>
    ensures { IfOk result (λ q. q ≡ spec.name_pat place clause.now) }
{
    let long = long_of(alloc, &clause.name)?;
    Ok(BarePat::PAtom(place, BareAtPat::PId(place, clause.op, long)))
}

/// No function, as no source has one without a clause.
fn no_function(alloc: Global, place: Place) -> Result<(BarePat, BareExp), NoMemory>
    ensures { IfOk result (λ b. b ≡ spec.no_function place) }
{
    let exp = atom(alloc, place, unit(alloc, place))?;
    Ok((BarePat::PAtom(place, BareAtPat::Any(place)), exp))
}

/// The binding of a function by its clauses.
pub fn function(
    alloc: Global,
    place: Place,
    clauses: List<BareClause>,
) -> Result<(BarePat, BareExp), NoMemory>
    ensures { IfOk result (λ b. b ≡ spec.function place clauses) }
{
    match clauses.items() {
        [] => no_function(alloc, place),
        [first, ..] => {
            let at = first.name.0;
            let pat = name_pat(alloc, place, first)?;
            let names = variables(alloc, place, first)?;
            let exp = curried(alloc, place, at, names, clauses)?;
            Ok((pat, exp))
        },
    }
}
