//! The height of expressions and declarations.

ghost use Rattle.std.specs.Prelude.{◌≡◌, ◌-◌, ◌^◌, min, max, map};
ghost use Rattle.tl_text.specs.Pairs.{seconds, map_second};
ghost use Rattle.sml_ast.specs.Heights.{at_exp_height, bindings_height, clause_height, dec_height, exp_height, greatest, rule_height};

use crate::exp::{AtExp, Clause, Dec, Exp, Rule};
use crate::height_data::{dat_binds_height, ex_binds_height};
use crate::height_pat::{at_pat_height, at_pats_height, pat_height};
use crate::height_ty::{opt_ty_height, ty_binds_height, ty_height};
use crate::name::Label;
use crate::pat::Pat;
use tl_text::List;

/// The height of an atomic expression.
#[cycle(exp_height)]
#[tactic(auto, using(crate::proofs::Levels::exp_fields))]
fn at_exp_height(exp: &AtExp) -> u32
    ensures { result ≡ min (at_exp_height exp.now) (2 ^ 32 - 1) }
{
    match exp {
        AtExp::Lit(..) | AtExp::Id(..) | AtExp::Pick(..) | AtExp::Unit(..) => 1,
        AtExp::Fields(_, fields) => exp_fields_height(fields.items()).saturating_add(1),
        AtExp::Tuple(_, first, others) => exp_height(first.get())
            .max(exps_height(others.items()))
            .saturating_add(1),
        AtExp::Items(_, items) => exps_height(items.items()).saturating_add(1),
        AtExp::Seq(_, first, others) => exp_height(first.get())
            .max(exps_height(others.items()))
            .saturating_add(1),
        AtExp::Let(_, decs, exps) => decs_height(decs.items())
            .max(exps_height(exps.items()))
            .saturating_add(1),
        AtExp::Paren(_, inner) => exp_height(inner.get()).saturating_add(1),
    }
}

/// The height of an expression.
#[cycle(exp_height)]
pub(crate) fn exp_height(exp: &Exp) -> u32
    ensures { result ≡ min (exp_height exp.now) (2 ^ 32 - 1) }
{
    match exp {
        Exp::Apply(_, atoms) => at_exps_height(atoms.items()).saturating_add(1),
        Exp::Infix(_, left, _, right) => exp_height(left.get())
            .max(exp_height(right.get()))
            .saturating_add(1),
        Exp::Typed(_, inner, ty) => exp_height(inner.get()).max(ty_height(ty)).saturating_add(1),
        Exp::AndAlso(_, left, right) => exp_height(left.get())
            .max(exp_height(right.get()))
            .saturating_add(1),
        Exp::OrElse(_, left, right) => exp_height(left.get())
            .max(exp_height(right.get()))
            .saturating_add(1),
        Exp::Handle(_, inner, rules) => exp_height(inner.get())
            .max(rules_height(rules.items()))
            .saturating_add(1),
        Exp::Raise(_, inner) => exp_height(inner.get()).saturating_add(1),
        Exp::If(_, test, left, right) => exp_height(test.get())
            .max(exp_height(left.get()).max(exp_height(right.get())))
            .saturating_add(1),
        Exp::While(_, left, right) => exp_height(left.get())
            .max(exp_height(right.get()))
            .saturating_add(1),
        Exp::Case(_, inner, rules) => exp_height(inner.get())
            .max(rules_height(rules.items()))
            .saturating_add(1),
        Exp::Fn(_, rules) => rules_height(rules.items()).saturating_add(1),
    }
}

/// The height of a rule.
#[cycle(exp_height)]
fn rule_height(rule: &Rule) -> u32
    ensures { result ≡ min (rule_height rule.now) (2 ^ 32 - 1) }
{
    match rule {
        Rule::Arm(_, pat, exp) => pat_height(pat).max(exp_height(exp)).saturating_add(1),
    }
}

/// The height of a declaration.
#[cycle(exp_height)]
#[tactic(auto, using(crate::proofs::Levels::dec_vals, crate::proofs::Levels::dec_funs))]
pub(crate) fn dec_height(dec: &Dec) -> u32
    ensures { result ≡ min (dec_height dec.now) (2 ^ 32 - 1) }
{
    match dec {
        Dec::Vals(_, _, _, binds) => {
            let mut most = 0;
            for one in binds.items() {
                most = most.max(pat_height(&one.0).max(exp_height(&one.1)));
            }
            most.saturating_add(1)
        },
        Dec::Funs(_, _, functions) => functions_height(functions.items()).saturating_add(1),
        Dec::Types(_, binds) => ty_binds_height(binds.items()).saturating_add(1),
        Dec::Datas(_, binds, tys) => dat_binds_height(binds.items())
            .max(ty_binds_height(tys.items()))
            .saturating_add(1),
        Dec::Exns(_, binds) => ex_binds_height(binds.items()).saturating_add(1),
        Dec::Local(_, hidden, decs) => decs_height(hidden.items())
            .max(decs_height(decs.items()))
            .saturating_add(1),
        Dec::Copy(..) | Dec::Opens(..) | Dec::Fix(..) | Dec::Nonfix(..) => 1,
        Dec::Abs(_, binds, tys, decs) => dat_binds_height(binds.items())
            .max(ty_binds_height(tys.items()).max(decs_height(decs.items())))
            .saturating_add(1),
    }
}

/// The height of a clause.
#[cycle(exp_height)]
fn clause_height(clause: &Clause) -> u32
    ensures { result ≡ min (clause_height clause.now) (2 ^ 32 - 1) }
{
    match clause {
        Clause::Prefix(_, _, _, args, ty, exp) => at_pats_height(args.items())
            .max(opt_ty_height(ty).max(exp_height(exp)))
            .saturating_add(1),
        Clause::Mid(_, left, _, right, ty, exp) => at_pat_height(left)
            .max(at_pat_height(right))
            .max(opt_ty_height(ty).max(exp_height(exp)))
            .saturating_add(1),
        Clause::MidMore(_, left, _, right, args, ty, exp) => at_pat_height(left)
            .max(at_pat_height(right))
            .max(at_pats_height(args.items()))
            .max(opt_ty_height(ty).max(exp_height(exp)))
            .saturating_add(1),
    }
}

/// The greatest height of a row of atomic expressions.
#[cycle(exp_height)]
fn at_exps_height(exps: &[AtExp]) -> u32
    ensures { result ≡ min (greatest (map at_exp_height exps.now)) (2 ^ 32 - 1) }
{
    let mut most = 0;
    for one in exps {
        most = most.max(at_exp_height(one));
    }
    most
}

/// The greatest height of a row of expressions.
#[cycle(exp_height)]
fn exps_height(exps: &[Exp]) -> u32
    ensures { result ≡ min (greatest (map exp_height exps.now)) (2 ^ 32 - 1) }
{
    let mut most = 0;
    for one in exps {
        most = most.max(exp_height(one));
    }
    most
}

/// The greatest height of the fields of a record.
#[cycle(exp_height)]
fn exp_fields_height(fields: &[(Label, Exp)]) -> u32
    ensures { result ≡ min (greatest (seconds (map_second exp_height fields.now))) (2 ^ 32 - 1) }
{
    let mut most = 0;
    for one in fields {
        most = most.max(exp_height(&one.1));
    }
    most
}

/// The greatest height of a row of rules.
#[cycle(exp_height)]
fn rules_height(rules: &[Rule]) -> u32
    ensures { result ≡ min (greatest (map rule_height rules.now)) (2 ^ 32 - 1) }
{
    let mut most = 0;
    for one in rules {
        most = most.max(rule_height(one));
    }
    most
}

/// The greatest height of a row of declarations.
#[cycle(exp_height)]
fn decs_height(decs: &[Dec]) -> u32
    ensures { result ≡ min (greatest (map dec_height decs.now)) (2 ^ 32 - 1) }
{
    let mut most = 0;
    for one in decs {
        most = most.max(dec_height(one));
    }
    most
}

/// The greatest height of the clauses of a row of functions.
#[cycle(exp_height)]
fn functions_height(functions: &[List<Clause>]) -> u32
    ensures { result ≡ min (greatest (map greatest (map (map clause_height) functions.now))) (2 ^ 32 - 1) }
{
    let mut most = 0;
    for function in functions {
        for clause in function.items() {
            most = most.max(clause_height(clause));
        }
    }
    most
}
