//! The breaches in expressions and declarations.

ghost use Rattle.std.specs.Prelude.{◌≡◌, map};
ghost use Rattle.tl_text.specs.Pairs.{map_second, seconds};
ghost use Rattle.sml_restrict_core.specs.Breaches.{after};
ghost use Rattle.sml_restrict.specs.Expressions.{all, at_exp_facts, bound, clause_facts, dec_facts, exp_facts, function_facts, functions_facts, rule_facts};

use crate::function::{check_function_names, check_functions, check_recs};
use crate::inner;
use sml_ast::{AtExp, Clause, Dec, Exp, Label, Pat, Rule};
use sml_restrict_core::{
    check_at_pat, check_at_pats, check_datas, check_exns, check_labels, check_name, check_opt_ty,
    check_pat, check_twice, check_ty, check_types,
};
use tl_text::{List, Refusal};

/// The breaches in an atomic expression.
#[cycle(phrase)]
#[tactic(auto, using(sml_restrict_core::proofs::After::breaches, crate::proofs::Folds::parts, sml_restrict_core::proofs::Folds::labels_of_folded))]
fn check_at_exp(exp: &AtExp, found: Option<Refusal>) -> Option<Refusal>
    ensures { result ≡ after found (at_exp_facts exp.now).broken }
{
    match exp {
        AtExp::Lit(..) | AtExp::Id(..) | AtExp::Pick(..) | AtExp::Unit(..) => found,
        AtExp::Fields(_, fields) => {
            let found = check_labels(fields.items(), found);
            check_fields(fields.items(), found)
        },
        AtExp::Tuple(_, first, others) => {
            let found = check_exp(first.get(), found);
            check_exps(others.items(), found)
        },
        AtExp::Items(_, items) => check_exps(items.items(), found),
        AtExp::Seq(_, first, others) => {
            let found = check_exp(first.get(), found);
            check_exps(others.items(), found)
        },
        AtExp::Let(_, decs, exps) => {
            let found = check_decs(decs.items(), found);
            check_exps(exps.items(), found)
        },
        AtExp::Paren(_, inner) => check_exp(inner.get(), found),
    }
}

/// The breaches in an expression.
#[cycle(phrase)]
#[tactic(auto, using(sml_restrict_core::proofs::After::breaches, crate::proofs::Folds::parts, sml_restrict_core::proofs::Folds::labels_of_folded))]
pub(crate) fn check_exp(exp: &Exp, found: Option<Refusal>) -> Option<Refusal>
    ensures { result ≡ after found (exp_facts exp.now).broken }
{
    match exp {
        Exp::Apply(_, atoms) => check_at_exps(atoms.items(), found),
        Exp::Infix(_, left, _, right) => {
            let found = check_exp(left.get(), found);
            check_exp(right.get(), found)
        },
        Exp::Typed(_, inner, ty) => {
            let found = check_exp(inner.get(), found);
            check_ty(ty, found)
        },
        Exp::AndAlso(_, left, right) => {
            let found = check_exp(left.get(), found);
            check_exp(right.get(), found)
        },
        Exp::OrElse(_, left, right) => {
            let found = check_exp(left.get(), found);
            check_exp(right.get(), found)
        },
        Exp::Handle(_, inner, rules) => {
            let found = check_exp(inner.get(), found);
            check_rules(rules.items(), found)
        },
        Exp::Raise(_, inner) => check_exp(inner.get(), found),
        Exp::If(_, test, first, other) => {
            let found = check_exp(test.get(), found);
            let found = check_exp(first.get(), found);
            check_exp(other.get(), found)
        },
        Exp::While(_, test, action) => {
            let found = check_exp(test.get(), found);
            check_exp(action.get(), found)
        },
        Exp::Case(_, inner, rules) => {
            let found = check_exp(inner.get(), found);
            check_rules(rules.items(), found)
        },
        Exp::Fn(_, rules) => check_rules(rules.items(), found),
    }
}

/// The breaches in a rule.
#[cycle(phrase)]
#[tactic(auto, using(sml_restrict_core::proofs::After::breaches, crate::proofs::Folds::parts, sml_restrict_core::proofs::Folds::labels_of_folded))]
fn check_rule(rule: &Rule, found: Option<Refusal>) -> Option<Refusal>
    ensures { result ≡ after found (rule_facts rule.now).broken }
{
    match rule {
        Rule::Arm(_, pat, exp) => {
            let found = check_pat(pat, found);
            check_exp(exp, found)
        },
    }
}

/// The breaches in a declaration.
#[cycle(phrase)]
#[tactic(auto, using(sml_restrict_core::proofs::After::breaches, crate::proofs::Folds::parts, sml_restrict_core::proofs::Folds::labels_of_folded))]
pub(crate) fn check_dec(dec: &Dec, found: Option<Refusal>) -> Option<Refusal>
    ensures { result ≡ after found (dec_facts dec.now).broken }
{
    match dec {
        Dec::Vals(_, vars, is_rec, binds) => {
            let found = check_twice(vars.items(), found);
            let found = check_recs(*is_rec, binds.items(), found);
            let found = inner::in_binds(dec, binds.items(), found);
            check_binds(binds.items(), found)
        },
        Dec::Funs(_, vars, functions) => {
            let found = check_twice(vars.items(), found);
            let found = check_function_names(functions.items(), found);
            let found = check_functions(functions.items(), found);
            let found = inner::in_functions(dec, functions.items(), found);
            check_bodies(functions.items(), found)
        },
        Dec::Types(_, binds) => check_types(binds.items(), found),
        Dec::Datas(_, binds, tys) => check_datas(binds.items(), tys.items(), found),
        Dec::Exns(_, binds) => check_exns(binds.items(), found),
        Dec::Local(_, hidden, decs) => {
            let found = check_decs(hidden.items(), found);
            check_decs(decs.items(), found)
        },
        Dec::Abs(_, binds, tys, decs) => {
            let found = check_datas(binds.items(), tys.items(), found);
            check_decs(decs.items(), found)
        },
        Dec::Copy(..) | Dec::Opens(..) | Dec::Fix(..) | Dec::Nonfix(..) => found,
    }
}

/// The breaches in a clause.
#[cycle(phrase)]
#[tactic(auto, using(sml_restrict_core::proofs::After::breaches, crate::proofs::Folds::parts, sml_restrict_core::proofs::Folds::labels_of_folded))]
fn check_clause(clause: &Clause, found: Option<Refusal>) -> Option<Refusal>
    ensures { result ≡ after found (clause_facts clause.now).facts.broken }
{
    match clause {
        Clause::Prefix(_, _, name, args, ty, exp) => {
            let found = check_name(name, found);
            let found = check_at_pats(args.items(), found);
            let found = check_opt_ty(ty, found);
            check_exp(exp, found)
        },
        Clause::Mid(_, left, name, right, ty, exp) => {
            let found = check_name(name, found);
            let found = check_at_pat(left, found);
            let found = check_at_pat(right, found);
            let found = check_opt_ty(ty, found);
            check_exp(exp, found)
        },
        Clause::MidMore(_, left, name, right, args, ty, exp) => {
            let found = check_name(name, found);
            let found = check_at_pat(left, found);
            let found = check_at_pat(right, found);
            let found = check_at_pats(args.items(), found);
            let found = check_opt_ty(ty, found);
            check_exp(exp, found)
        },
    }
}

/// The breaches in a row of atomic expressions.
#[cycle(phrase)]
#[tactic(auto, using(sml_restrict_core::proofs::After::breaches, crate::proofs::Folds::parts, sml_restrict_core::proofs::Folds::labels_of_folded))]
fn check_at_exps(row: &[AtExp], mut found: Option<Refusal>) -> Option<Refusal>
    ensures { result ≡ after found (all (map at_exp_facts row.now)).broken }
{
    for one in row {
        found = check_at_exp(one, found);
    }
    found
}

/// The breaches in a row of expressions.
#[cycle(phrase)]
#[tactic(auto, using(sml_restrict_core::proofs::After::breaches, crate::proofs::Folds::parts, sml_restrict_core::proofs::Folds::labels_of_folded))]
fn check_exps(row: &[Exp], mut found: Option<Refusal>) -> Option<Refusal>
    ensures { result ≡ after found (all (map exp_facts row.now)).broken }
{
    for one in row {
        found = check_exp(one, found);
    }
    found
}

/// The breaches in the fields of a record.
#[cycle(phrase)]
#[tactic(auto, using(sml_restrict_core::proofs::After::breaches, crate::proofs::Folds::parts, sml_restrict_core::proofs::Folds::labels_of_folded))]
fn check_fields(row: &[(Label, Exp)], mut found: Option<Refusal>) -> Option<Refusal>
    ensures { result ≡ after found (all (seconds (map_second exp_facts row.now))).broken }
{
    for one in row {
        found = check_exp(&one.1, found);
    }
    found
}

/// The breaches in a row of rules.
#[cycle(phrase)]
#[tactic(auto, using(sml_restrict_core::proofs::After::breaches, crate::proofs::Folds::parts, sml_restrict_core::proofs::Folds::labels_of_folded))]
fn check_rules(row: &[Rule], mut found: Option<Refusal>) -> Option<Refusal>
    ensures { result ≡ after found (all (map rule_facts row.now)).broken }
{
    for one in row {
        found = check_rule(one, found);
    }
    found
}

/// The breaches in a row of declarations.
#[cycle(phrase)]
#[tactic(auto, using(sml_restrict_core::proofs::After::breaches, crate::proofs::Folds::parts, sml_restrict_core::proofs::Folds::labels_of_folded))]
fn check_decs(row: &[Dec], mut found: Option<Refusal>) -> Option<Refusal>
    ensures { result ≡ after found (all (map dec_facts row.now)).broken }
{
    for one in row {
        found = check_dec(one, found);
    }
    found
}

/// The breaches in the bindings of a value declaration.
#[cycle(phrase)]
#[tactic(auto, using(sml_restrict_core::proofs::After::breaches, crate::proofs::Folds::parts, sml_restrict_core::proofs::Folds::labels_of_folded))]
fn check_binds(row: &[(Pat, Exp)], mut found: Option<Refusal>) -> Option<Refusal>
    ensures { result ≡ after found (all (map bound (map_second exp_facts row.now))).broken }
{
    for one in row {
        found = check_pat(&one.0, found);
        found = check_exp(&one.1, found);
    }
    found
}

/// The breaches in the functions of a declaration.
#[cycle(phrase)]
#[tactic(auto, using(sml_restrict_core::proofs::After::breaches, crate::proofs::Folds::parts, sml_restrict_core::proofs::Folds::labels_of_folded))]
fn check_bodies(row: &[List<Clause>], mut found: Option<Refusal>) -> Option<Refusal>
    ensures { result ≡ after found (functions_facts (map (map clause_facts) row.now)).broken }
{
    for one in row {
        for clause in one.items() {
            found = check_clause(clause, found);
        }
    }
    found
}
