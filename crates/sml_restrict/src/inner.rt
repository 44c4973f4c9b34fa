//! Type variables that a value declaration binds inside another one that scopes them already.

ghost use Rattle.std.specs.Prelude.{◌≡◌, map};
ghost use Rattle.tl_text.specs.Pairs.{map_second, seconds};
ghost use Rattle.sml_restrict_core.specs.Breaches.{after};
ghost use Rattle.sml_restrict.specs.Expressions.{all, at_exp_facts, bound, clause_facts, dec_facts, exp_facts, functions_facts, function_facts, rescoped, rule_facts};

use crate::uses::is_scoped;
use sml_ast::{AtExp, Clause, Dec, Exp, Ident, Label, Pat, Rule};
use sml_restrict_core::add;
use tl_text::{Code, List, Refusal};

/// A breach at each type variable of a sequence that the outer declaration scopes.
#[tactic(auto, using(crate::proofs::Scopes::scopes, crate::proofs::Folds::parts))]
fn in_vars(outer: &Dec, vars: &[Ident], mut found: Option<Refusal>) -> Option<Refusal>
    ensures { result ≡ after found (rescoped (dec_facts outer.now).scope vars.now) }
{
    for one in vars {
        if is_scoped(outer, &one.1) {
            found = add(found, Code::TyvarScope, one.0);
        }
    }
    found
}

/// The same of the value declarations in an atomic expression.
#[cycle(inner)]
#[tactic(auto, using(crate::proofs::Scopes::scopes, crate::proofs::Folds::parts))]
fn in_at_exp(outer: &Dec, exp: &AtExp, found: Option<Refusal>) -> Option<Refusal>
    ensures { result ≡ after found (rescoped (dec_facts outer.now).scope (at_exp_facts exp.now).binds) }
{
    match exp {
        AtExp::Lit(..) | AtExp::Id(..) | AtExp::Pick(..) | AtExp::Unit(..) => found,
        AtExp::Fields(_, fields) => in_fields(outer, fields.items(), found),
        AtExp::Tuple(_, first, others) => {
            let found = in_exp(outer, first.get(), found);
            in_exps(outer, others.items(), found)
        },
        AtExp::Items(_, items) => in_exps(outer, items.items(), found),
        AtExp::Seq(_, first, others) => {
            let found = in_exp(outer, first.get(), found);
            in_exps(outer, others.items(), found)
        },
        AtExp::Let(_, decs, exps) => {
            let found = in_decs(outer, decs.items(), found);
            in_exps(outer, exps.items(), found)
        },
        AtExp::Paren(_, inner) => in_exp(outer, inner.get(), found),
    }
}

/// The same of an expression.
#[cycle(inner)]
#[tactic(auto, using(crate::proofs::Scopes::scopes, crate::proofs::Folds::parts))]
fn in_exp(outer: &Dec, exp: &Exp, found: Option<Refusal>) -> Option<Refusal>
    ensures { result ≡ after found (rescoped (dec_facts outer.now).scope (exp_facts exp.now).binds) }
{
    match exp {
        Exp::Apply(_, atoms) => in_at_exps(outer, atoms.items(), found),
        Exp::Infix(_, left, _, right) => {
            let found = in_exp(outer, left.get(), found);
            in_exp(outer, right.get(), found)
        },
        Exp::Typed(_, inner, _) => in_exp(outer, inner.get(), found),
        Exp::AndAlso(_, left, right) => {
            let found = in_exp(outer, left.get(), found);
            in_exp(outer, right.get(), found)
        },
        Exp::OrElse(_, left, right) => {
            let found = in_exp(outer, left.get(), found);
            in_exp(outer, right.get(), found)
        },
        Exp::Handle(_, inner, rules) => {
            let found = in_exp(outer, inner.get(), found);
            in_rules(outer, rules.items(), found)
        },
        Exp::Raise(_, inner) => in_exp(outer, inner.get(), found),
        Exp::If(_, test, first, other) => {
            let found = in_exp(outer, test.get(), found);
            let found = in_exp(outer, first.get(), found);
            in_exp(outer, other.get(), found)
        },
        Exp::While(_, test, action) => {
            let found = in_exp(outer, test.get(), found);
            in_exp(outer, action.get(), found)
        },
        Exp::Case(_, inner, rules) => {
            let found = in_exp(outer, inner.get(), found);
            in_rules(outer, rules.items(), found)
        },
        Exp::Fn(_, rules) => in_rules(outer, rules.items(), found),
    }
}

/// The same of a declaration.
#[cycle(inner)]
#[tactic(auto, using(crate::proofs::Scopes::scopes, crate::proofs::Folds::parts))]
fn in_dec(outer: &Dec, dec: &Dec, found: Option<Refusal>) -> Option<Refusal>
    ensures { result ≡ after found (rescoped (dec_facts outer.now).scope (dec_facts dec.now).binds) }
{
    match dec {
        Dec::Vals(_, vars, _, binds) => {
            let found = in_vars(outer, vars.items(), found);
            in_binds(outer, binds.items(), found)
        },
        Dec::Funs(_, vars, functions) => {
            let found = in_vars(outer, vars.items(), found);
            in_functions(outer, functions.items(), found)
        },
        Dec::Local(_, hidden, decs) => {
            let found = in_decs(outer, hidden.items(), found);
            in_decs(outer, decs.items(), found)
        },
        Dec::Abs(_, _, _, decs) => in_decs(outer, decs.items(), found),
        Dec::Types(..)
        | Dec::Datas(..)
        | Dec::Copy(..)
        | Dec::Exns(..)
        | Dec::Opens(..)
        | Dec::Fix(..)
        | Dec::Nonfix(..) => found,
    }
}

/// The same of a clause.
#[cycle(inner)]
#[tactic(auto, using(crate::proofs::Scopes::scopes, crate::proofs::Folds::parts))]
fn in_clause(outer: &Dec, clause: &Clause, found: Option<Refusal>) -> Option<Refusal>
    ensures { result ≡ after found (rescoped (dec_facts outer.now).scope (clause_facts clause.now).facts.binds) }
{
    match clause {
        Clause::Prefix(_, _, _, _, _, exp) => in_exp(outer, exp, found),
        Clause::Mid(_, _, _, _, _, exp) => in_exp(outer, exp, found),
        Clause::MidMore(_, _, _, _, _, _, exp) => in_exp(outer, exp, found),
    }
}

/// The same of a row of atomic expressions.
#[cycle(inner)]
#[tactic(auto, using(crate::proofs::Scopes::scopes, crate::proofs::Folds::parts))]
fn in_at_exps(outer: &Dec, row: &[AtExp], mut found: Option<Refusal>) -> Option<Refusal>
    ensures { result ≡ after found (rescoped (dec_facts outer.now).scope (all (map at_exp_facts row.now)).binds) }
{
    for one in row {
        found = in_at_exp(outer, one, found);
    }
    found
}

/// The same of a row of expressions.
#[cycle(inner)]
#[tactic(auto, using(crate::proofs::Scopes::scopes, crate::proofs::Folds::parts))]
fn in_exps(outer: &Dec, row: &[Exp], mut found: Option<Refusal>) -> Option<Refusal>
    ensures { result ≡ after found (rescoped (dec_facts outer.now).scope (all (map exp_facts row.now)).binds) }
{
    for one in row {
        found = in_exp(outer, one, found);
    }
    found
}

/// The same of the fields of a record.
#[cycle(inner)]
#[tactic(auto, using(crate::proofs::Scopes::scopes, crate::proofs::Folds::parts))]
fn in_fields(outer: &Dec, row: &[(Label, Exp)], mut found: Option<Refusal>) -> Option<Refusal>
    ensures { result ≡ after found (rescoped (dec_facts outer.now).scope (all (seconds (map_second exp_facts row.now))).binds) }
{
    for one in row {
        found = in_exp(outer, &one.1, found);
    }
    found
}

/// The same of a row of rules.
#[cycle(inner)]
#[tactic(auto, using(crate::proofs::Scopes::scopes, crate::proofs::Folds::parts))]
fn in_rules(outer: &Dec, row: &[Rule], mut found: Option<Refusal>) -> Option<Refusal>
    ensures { result ≡ after found (rescoped (dec_facts outer.now).scope (all (map rule_facts row.now)).binds) }
{
    for one in row {
        let Rule::Arm(_, _, exp) = one;
        found = in_exp(outer, exp, found);
    }
    found
}

/// The same of a row of declarations.
#[cycle(inner)]
#[tactic(auto, using(crate::proofs::Scopes::scopes, crate::proofs::Folds::parts))]
fn in_decs(outer: &Dec, row: &[Dec], mut found: Option<Refusal>) -> Option<Refusal>
    ensures { result ≡ after found (rescoped (dec_facts outer.now).scope (all (map dec_facts row.now)).binds) }
{
    for one in row {
        found = in_dec(outer, one, found);
    }
    found
}

/// The same of the bindings of a value declaration.
#[cycle(inner)]
#[tactic(auto, using(crate::proofs::Scopes::scopes, crate::proofs::Folds::parts))]
pub(crate) fn in_binds(
    outer: &Dec,
    row: &[(Pat, Exp)],
    mut found: Option<Refusal>,
) -> Option<Refusal>
    ensures { result ≡ after found (rescoped (dec_facts outer.now).scope (all (map bound (map_second exp_facts row.now))).binds) }
{
    for one in row {
        found = in_exp(outer, &one.1, found);
    }
    found
}

/// The same of the functions of a declaration.
#[cycle(inner)]
#[tactic(auto, using(crate::proofs::Scopes::scopes, crate::proofs::Folds::parts))]
pub(crate) fn in_functions(
    outer: &Dec,
    row: &[List<Clause>],
    mut found: Option<Refusal>,
) -> Option<Refusal>
    ensures { result ≡ after found (rescoped (dec_facts outer.now).scope (functions_facts (map (map clause_facts) row.now)).binds) }
{
    for one in row {
        for clause in one.items() {
            found = in_clause(outer, clause, found);
        }
    }
    found
}
