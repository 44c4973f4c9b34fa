//! Whether a type variable occurs unguarded in a phrase: in it, and in no value declaration inside it.

ghost use Rattle.std.specs.Prelude.{◌≡◌, ◌++◌, map};
ghost use Rattle.tl_text.specs.Pairs.{map_second, seconds};
ghost use Rattle.sml_restrict_core.specs.Breaches.{joined};
ghost use Rattle.sml_restrict_core.specs.Repeats.{contains};
ghost use Rattle.sml_restrict.specs.Expressions.{all, at_exp_facts, bound, clause_facts, dec_facts, ex_bind_tyvars, exp_facts, functions_facts, function_facts, rule_facts};

use sml_ast::{AtExp, Clause, Dec, ExBind, Exp, Label, Pat, Rule};
use sml_restrict_core::{
    has_name, occurs_in_at_pat, occurs_in_at_pats, occurs_in_opt_ty, occurs_in_pat, occurs_in_ty,
};
use tl_text::{List, Name};

/// Whether it occurs in the bindings of exceptions.
#[tactic(auto, using(sml_restrict_core::proofs::After::occurrences, crate::proofs::Folds::parts))]
fn in_ex_binds(binds: &[ExBind], name: &Name) -> bool
    ensures { result ≡ contains name.now (joined (map ex_bind_tyvars binds.now)) }
{
    for one in binds {
        if let ExBind::NewExn(_, _, _, ty) = one {
            if occurs_in_opt_ty(ty, name) {
                return true;
            }
        }
    }
    false
}

/// Whether it occurs in an atomic expression.
#[cycle(uses)]
#[tactic(auto, using(sml_restrict_core::proofs::After::occurrences, crate::proofs::Folds::parts))]
fn in_at_exp(exp: &AtExp, name: &Name) -> bool
    ensures { result ≡ contains name.now (at_exp_facts exp.now).uses }
{
    match exp {
        AtExp::Lit(..) | AtExp::Id(..) | AtExp::Pick(..) | AtExp::Unit(..) => false,
        AtExp::Fields(_, fields) => in_fields(fields.items(), name),
        AtExp::Tuple(_, first, others) => {
            in_exp(first.get(), name) || in_exps(others.items(), name)
        },
        AtExp::Items(_, items) => in_exps(items.items(), name),
        AtExp::Seq(_, first, others) => {
            in_exp(first.get(), name) || in_exps(others.items(), name)
        },
        AtExp::Let(_, decs, exps) => in_decs(decs.items(), name) || in_exps(exps.items(), name),
        AtExp::Paren(_, inner) => in_exp(inner.get(), name),
    }
}

/// Whether it occurs in an expression.
#[cycle(uses)]
#[tactic(auto, using(sml_restrict_core::proofs::After::occurrences, crate::proofs::Folds::parts))]
fn in_exp(exp: &Exp, name: &Name) -> bool
    ensures { result ≡ contains name.now (exp_facts exp.now).uses }
{
    match exp {
        Exp::Apply(_, atoms) => in_at_exps(atoms.items(), name),
        Exp::Infix(_, left, _, right) => in_exp(left.get(), name) || in_exp(right.get(), name),
        Exp::Typed(_, inner, ty) => in_exp(inner.get(), name) || occurs_in_ty(ty, name),
        Exp::AndAlso(_, left, right) => in_exp(left.get(), name) || in_exp(right.get(), name),
        Exp::OrElse(_, left, right) => in_exp(left.get(), name) || in_exp(right.get(), name),
        Exp::Handle(_, inner, rules) => {
            in_exp(inner.get(), name) || in_rules(rules.items(), name)
        },
        Exp::Raise(_, inner) => in_exp(inner.get(), name),
        Exp::If(_, test, first, other) => {
            in_exp(test.get(), name) || in_exp(first.get(), name) || in_exp(other.get(), name)
        },
        Exp::While(_, test, action) => in_exp(test.get(), name) || in_exp(action.get(), name),
        Exp::Case(_, inner, rules) => in_exp(inner.get(), name) || in_rules(rules.items(), name),
        Exp::Fn(_, rules) => in_rules(rules.items(), name),
    }
}

/// Whether it occurs in a rule.
#[cycle(uses)]
#[tactic(auto, using(sml_restrict_core::proofs::After::occurrences, crate::proofs::Folds::parts))]
fn in_rule(rule: &Rule, name: &Name) -> bool
    ensures { result ≡ contains name.now (rule_facts rule.now).uses }
{
    match rule {
        Rule::Arm(_, pat, exp) => occurs_in_pat(pat, name) || in_exp(exp, name),
    }
}

/// Whether it occurs in a declaration that is no value declaration.
#[cycle(uses_of_decs)]
#[tactic(auto, using(sml_restrict_core::proofs::After::occurrences, crate::proofs::Folds::parts))]
fn in_dec(dec: &Dec, name: &Name) -> bool
    ensures { result ≡ contains name.now (dec_facts dec.now).uses }
{
    match dec {
        Dec::Exns(_, binds) => in_ex_binds(binds.items(), name),
        Dec::Local(_, hidden, decs) => {
            in_decs(hidden.items(), name) || in_decs(decs.items(), name)
        },
        Dec::Abs(_, _, _, decs) => in_decs(decs.items(), name),
        Dec::Vals(..)
        | Dec::Funs(..)
        | Dec::Types(..)
        | Dec::Datas(..)
        | Dec::Copy(..)
        | Dec::Opens(..)
        | Dec::Fix(..)
        | Dec::Nonfix(..) => false,
    }
}

/// Whether it occurs in a clause.
#[tactic(auto, using(sml_restrict_core::proofs::After::occurrences, crate::proofs::Folds::parts))]
fn in_clause(clause: &Clause, name: &Name) -> bool
    ensures { result ≡ contains name.now (clause_facts clause.now).facts.uses }
{
    match clause {
        Clause::Prefix(_, _, _, args, ty, exp) => {
            occurs_in_at_pats(args.items(), name) || occurs_in_opt_ty(ty, name) || in_exp(exp, name)
        },
        Clause::Mid(_, left, _, right, ty, exp) => {
            occurs_in_at_pat(left, name)
                || occurs_in_at_pat(right, name)
                || occurs_in_opt_ty(ty, name)
                || in_exp(exp, name)
        },
        Clause::MidMore(_, left, _, right, args, ty, exp) => {
            occurs_in_at_pat(left, name)
                || occurs_in_at_pat(right, name)
                || occurs_in_at_pats(args.items(), name)
                || occurs_in_opt_ty(ty, name)
                || in_exp(exp, name)
        },
    }
}

/// Whether it occurs in a row of atomic expressions.
#[cycle(uses)]
#[tactic(auto, using(sml_restrict_core::proofs::After::occurrences, crate::proofs::Folds::parts))]
fn in_at_exps(row: &[AtExp], name: &Name) -> bool
    ensures { result ≡ contains name.now (all (map at_exp_facts row.now)).uses }
{
    for one in row {
        if in_at_exp(one, name) {
            return true;
        }
    }
    false
}

/// Whether it occurs in a row of expressions.
#[cycle(uses)]
#[tactic(auto, using(sml_restrict_core::proofs::After::occurrences, crate::proofs::Folds::parts))]
fn in_exps(row: &[Exp], name: &Name) -> bool
    ensures { result ≡ contains name.now (all (map exp_facts row.now)).uses }
{
    for one in row {
        if in_exp(one, name) {
            return true;
        }
    }
    false
}

/// Whether it occurs in the fields of a record.
#[cycle(uses)]
#[tactic(auto, using(sml_restrict_core::proofs::After::occurrences, crate::proofs::Folds::parts))]
fn in_fields(row: &[(Label, Exp)], name: &Name) -> bool
    ensures { result ≡ contains name.now (all (seconds (map_second exp_facts row.now))).uses }
{
    for one in row {
        if in_exp(&one.1, name) {
            return true;
        }
    }
    false
}

/// Whether it occurs in a row of rules.
#[cycle(uses)]
#[tactic(auto, using(sml_restrict_core::proofs::After::occurrences, crate::proofs::Folds::parts))]
fn in_rules(row: &[Rule], name: &Name) -> bool
    ensures { result ≡ contains name.now (all (map rule_facts row.now)).uses }
{
    for one in row {
        if in_rule(one, name) {
            return true;
        }
    }
    false
}

/// Whether it occurs in a row of declarations.
#[cycle(uses_of_decs)]
#[tactic(auto, using(sml_restrict_core::proofs::After::occurrences, crate::proofs::Folds::parts))]
fn in_decs(row: &[Dec], name: &Name) -> bool
    ensures { result ≡ contains name.now (all (map dec_facts row.now)).uses }
{
    for one in row {
        if in_dec(one, name) {
            return true;
        }
    }
    false
}

/// Whether it occurs in the bindings of a value declaration.
#[tactic(auto, using(sml_restrict_core::proofs::After::occurrences, crate::proofs::Folds::parts))]
fn in_binds(row: &[(Pat, Exp)], name: &Name) -> bool
    ensures { result ≡ contains name.now (all (map bound (map_second exp_facts row.now))).uses }
{
    for one in row {
        if occurs_in_pat(&one.0, name) || in_exp(&one.1, name) {
            return true;
        }
    }
    false
}

/// Whether it occurs in the clauses of a function.
#[tactic(auto, using(sml_restrict_core::proofs::After::occurrences, crate::proofs::Folds::parts))]
fn in_clauses(row: &[Clause], name: &Name) -> bool
    ensures { result ≡ contains name.now (function_facts (map clause_facts row.now)).uses }
{
    for one in row {
        if in_clause(one, name) {
            return true;
        }
    }
    false
}

/// Whether it occurs in the functions of a declaration.
#[tactic(auto, using(sml_restrict_core::proofs::After::occurrences, crate::proofs::Folds::parts))]
fn in_functions(row: &[List<Clause>], name: &Name) -> bool
    ensures { result ≡ contains name.now (functions_facts (map (map clause_facts) row.now)).uses }
{
    for one in row {
        if in_clauses(one.items(), name) {
            return true;
        }
    }
    false
}

/// Whether a value declaration scopes it: it is in its sequence, or it occurs unguarded in it.
#[tactic(auto, using(sml_restrict_core::proofs::After::occurrences, crate::proofs::Folds::parts))]
pub(crate) fn is_scoped(dec: &Dec, name: &Name) -> bool
    ensures { result ≡ contains name.now (dec_facts dec.now).scope }
{
    match dec {
        Dec::Vals(_, vars, _, binds) => {
            has_name(name, vars.items()) || in_binds(binds.items(), name)
        },
        Dec::Funs(_, vars, functions) => {
            has_name(name, vars.items()) || in_functions(functions.items(), name)
        },
        Dec::Types(..)
        | Dec::Datas(..)
        | Dec::Copy(..)
        | Dec::Exns(..)
        | Dec::Local(..)
        | Dec::Opens(..)
        | Dec::Fix(..)
        | Dec::Nonfix(..)
        | Dec::Abs(..) => false,
    }
}
