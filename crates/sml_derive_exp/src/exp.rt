//! Expressions and declarations.

ghost use Rattle.std.specs.Prelude.{◌≡◌, ◌∷◌, IfOk, map};
ghost use Rattle.tl_text.specs.Pairs.{map_second};
ghost use Rattle.sml_derive_core.specs.Patterns.{derived_pat};
ghost use Rattle.sml_derive_exp.specs.Declarations.{derived_at_exp, derived_clause, derived_dec, derived_exp, derived_rule};
ghost use Rattle.sml_derive_forms.specs.Expressions as forms;
ghost use Rattle.sml_derive_forms.specs.Functions as spec;
ghost use Rattle.sml_derive_core.specs.Types.{derived_ty};
ghost use Rattle.sml_ast.specs.declared.bare_exp.BareExp.TheVariants as made;

use crate::clauses::{clause, derive_pair};
use crate::phrases::{handle, infix, let_in, raise, seq, typed};
use sml_ast::{
    AtExp, BareAtExp, BareDec, BareExp, BarePat, BareRule, Clause, Dec, Exp, Ident, Label, Pat,
    Rule, Ty,
};
use sml_derive_core::{
    copy_ident, copy_idents, copy_label, copy_lit, copy_long, copy_longs, derive_ex_binds,
    derive_pat, derive_ty_binds,
};
use sml_derive_forms::{
    BareClause, both, case_of, choice, derive_datas, derive_hidden, either, function, number_exps,
    pick, repeat,
};
use std::alloc::Global;
use tl_text::{Boxed, List, NoMemory, Place};

/// The atomic expression without derived forms.
#[cycle(derive_exp)]
#[inline(never)]
fn derive_at_exp(alloc: Global, exp: &AtExp) -> Result<BareAtExp, NoMemory>
    ensures { IfOk result (λ a. a ≡ derived_at_exp exp.now) }
{
    match exp {
        AtExp::Lit(p, lit) => Ok(BareAtExp::Lit(*p, copy_lit(alloc, lit)?)),
        AtExp::Id(p, op, id) => Ok(BareAtExp::Id(*p, *op, copy_long(alloc, id)?)),
        AtExp::Fields(p, fields) => {
            Ok(BareAtExp::Fields(*p, derive_fields(alloc, fields.items())?))
        },
        AtExp::Pick(p, label) => pick(alloc, *p, label),
        AtExp::Unit(p) => Ok(BareAtExp::Fields(*p, List::new(alloc))),
        AtExp::Tuple(p, first, others) => {
            let exps = derive_some(alloc, first.get(), others.items())?;
            Ok(BareAtExp::Fields(*p, number_exps(alloc, *p, exps)?))
        },
        AtExp::Items(p, items) => Ok(BareAtExp::Row(*p, derive_exps(alloc, items.items())?)),
        AtExp::Seq(p, first, others) => {
            let first = derive_exp(alloc, first.get())?;
            let others = derive_exps(alloc, others.items())?;
            seq(alloc, *p, first, others)
        },
        AtExp::Let(p, decs, exps) => {
            let decs = derive_decs(alloc, decs.items())?;
            let exps = derive_exps(alloc, exps.items())?;
            let_in(alloc, *p, decs, exps)
        },
        AtExp::Paren(p, inner) => {
            let inner = derive_exp(alloc, inner.get())?;
            Ok(BareAtExp::Paren(*p, Boxed::new(alloc, inner)?))
        },
    }
}

/// The expression without derived forms. Each alternative is a function of its own, so that a level of nesting holds no more on
/// the stack than its own alternative needs.
#[cycle(derive_exp)]
pub fn derive_exp(alloc: Global, exp: &Exp) -> Result<BareExp, NoMemory>
    ensures { IfOk result (λ e. e ≡ derived_exp exp.now) }
{
    match exp {
        Exp::Apply(p, atoms) => derive_apply(alloc, *p, atoms.items()),
        Exp::Infix(p, left, name, right) => {
            derive_infix(alloc, *p, left.get(), name, right.get())
        },
        Exp::Typed(p, inner, ty) => derive_typed(alloc, *p, inner.get(), ty),
        Exp::AndAlso(p, left, right) => derive_both(alloc, *p, left.get(), right.get()),
        Exp::OrElse(p, left, right) => derive_either(alloc, *p, left.get(), right.get()),
        Exp::Handle(p, inner, rules) => derive_handle(alloc, *p, inner.get(), rules.items()),
        Exp::Raise(p, inner) => derive_raise(alloc, *p, inner.get()),
        Exp::If(p, test, first, other) => {
            derive_if(alloc, *p, test.get(), first.get(), other.get())
        },
        Exp::While(p, test, action) => derive_while(alloc, *p, test.get(), action.get()),
        Exp::Case(p, inner, rules) => derive_case(alloc, *p, inner.get(), rules.items()),
        Exp::Fn(p, rules) => derive_fn(alloc, *p, rules.items()),
    }
}

/// `f x y`
#[cycle(derive_exp)]
#[inline(never)]
fn derive_apply(alloc: Global, place: Place, atoms: &[AtExp]) -> Result<BareExp, NoMemory>
    ensures { IfOk result (λ e. e ≡ made.Apply place (map derived_at_exp atoms.now)) }
{
    Ok(BareExp::Apply(place, derive_at_exps(alloc, atoms)?))
}

/// `left name right`
#[cycle(derive_exp)]
#[inline(never)]
fn derive_infix(
    alloc: Global,
    place: Place,
    left: &Exp,
    name: &Ident,
    right: &Exp,
) -> Result<BareExp, NoMemory>
    ensures { IfOk result (λ e. e ≡ made.Infix place (derived_exp left.now) name.now (derived_exp right.now)) }
{
    let left = derive_exp(alloc, left)?;
    let right = derive_exp(alloc, right)?;
    infix(alloc, place, left, name, right)
}

/// `inner : ty`
#[cycle(derive_exp)]
#[inline(never)]
fn derive_typed(alloc: Global, place: Place, inner: &Exp, ty: &Ty) -> Result<BareExp, NoMemory>
    ensures { IfOk result (λ e. e ≡ made.Typed place (derived_exp inner.now) (derived_ty ty.now)) }
{
    let inner = derive_exp(alloc, inner)?;
    typed(alloc, place, inner, ty)
}

/// `left andalso right`
#[cycle(derive_exp)]
#[inline(never)]
fn derive_both(alloc: Global, place: Place, left: &Exp, right: &Exp) -> Result<BareExp, NoMemory>
    ensures { IfOk result (λ e. e ≡ forms.both place (derived_exp left.now) (derived_exp right.now)) }
{
    let left = derive_exp(alloc, left)?;
    let right = derive_exp(alloc, right)?;
    both(alloc, place, left, right)
}

/// `left orelse right`
#[cycle(derive_exp)]
#[inline(never)]
fn derive_either(alloc: Global, place: Place, left: &Exp, right: &Exp) -> Result<BareExp, NoMemory>
    ensures { IfOk result (λ e. e ≡ forms.either place (derived_exp left.now) (derived_exp right.now)) }
{
    let left = derive_exp(alloc, left)?;
    let right = derive_exp(alloc, right)?;
    either(alloc, place, left, right)
}

/// `inner handle rules`
#[cycle(derive_exp)]
#[inline(never)]
fn derive_handle(
    alloc: Global,
    place: Place,
    inner: &Exp,
    rules: &[Rule],
) -> Result<BareExp, NoMemory>
    ensures { IfOk result (λ e. e ≡ made.Handle place (derived_exp inner.now) (map derived_rule rules.now)) }
{
    let inner = derive_exp(alloc, inner)?;
    let rules = derive_rules(alloc, rules)?;
    handle(alloc, place, inner, rules)
}

/// `raise inner`
#[cycle(derive_exp)]
#[inline(never)]
fn derive_raise(alloc: Global, place: Place, inner: &Exp) -> Result<BareExp, NoMemory>
    ensures { IfOk result (λ e. e ≡ made.Raise place (derived_exp inner.now)) }
{
    let inner = derive_exp(alloc, inner)?;
    raise(alloc, place, inner)
}

/// `if test then first else other`
#[cycle(derive_exp)]
#[inline(never)]
fn derive_if(
    alloc: Global,
    place: Place,
    test: &Exp,
    first: &Exp,
    other: &Exp,
) -> Result<BareExp, NoMemory>
    ensures { IfOk result (λ e. e ≡ forms.choice place (derived_exp test.now) (derived_exp first.now) (derived_exp other.now)) }
{
    let test = derive_exp(alloc, test)?;
    let first = derive_exp(alloc, first)?;
    let other = derive_exp(alloc, other)?;
    choice(alloc, place, test, first, other)
}

/// `while test do action`
#[cycle(derive_exp)]
#[inline(never)]
fn derive_while(alloc: Global, place: Place, test: &Exp, action: &Exp) -> Result<BareExp, NoMemory>
    ensures { IfOk result (λ e. e ≡ forms.repeat place (derived_exp test.now) (derived_exp action.now)) }
{
    let test = derive_exp(alloc, test)?;
    let action = derive_exp(alloc, action)?;
    repeat(alloc, place, test, action)
}

/// `case inner of rules`
#[cycle(derive_exp)]
#[inline(never)]
fn derive_case(
    alloc: Global,
    place: Place,
    inner: &Exp,
    rules: &[Rule],
) -> Result<BareExp, NoMemory>
    ensures { IfOk result (λ e. e ≡ forms.case_of place (derived_exp inner.now) (map derived_rule rules.now)) }
{
    let inner = derive_exp(alloc, inner)?;
    let rules = derive_rules(alloc, rules)?;
    case_of(alloc, place, inner, rules)
}

/// `fn rules`
#[cycle(derive_exp)]
#[inline(never)]
fn derive_fn(alloc: Global, place: Place, rules: &[Rule]) -> Result<BareExp, NoMemory>
    ensures { IfOk result (λ e. e ≡ made.Fn place (map derived_rule rules.now)) }
{
    Ok(BareExp::Fn(place, derive_rules(alloc, rules)?))
}

/// The rule without derived forms.
#[cycle(derive_exp)]
#[inline(never)]
fn derive_rule(alloc: Global, rule: &Rule) -> Result<BareRule, NoMemory>
    ensures { IfOk result (λ r. r ≡ derived_rule rule.now) }
{
    match rule {
        Rule::Arm(p, pat, exp) => {
            let exp = derive_exp(alloc, exp)?;
            Ok(BareRule::Arm(*p, derive_pat(alloc, pat)?, exp))
        },
    }
}

/// The declaration without derived forms.
#[cycle(derive_exp)]
#[inline(never)]
pub fn derive_dec(alloc: Global, dec: &Dec) -> Result<BareDec, NoMemory>
    ensures { IfOk result (λ d. d ≡ derived_dec dec.now) }
{
    match dec {
        Dec::Vals(p, vars, rec, binds) => {
            let binds = derive_binds(alloc, binds.items())?;
            Ok(BareDec::Vals(*p, copy_idents(alloc, vars.items())?, *rec, binds))
        },
        Dec::Funs(p, vars, functions) => {
            let binds = derive_functions(alloc, *p, functions.items())?;
            Ok(BareDec::Vals(*p, copy_idents(alloc, vars.items())?, true, binds))
        },
        Dec::Types(p, binds) => Ok(BareDec::Types(*p, derive_ty_binds(alloc, binds.items())?)),
        Dec::Datas(p, binds, tys) => derive_datas(alloc, *p, binds.items(), tys.items()),
        Dec::Copy(p, name, old) => {
            let name = copy_ident(alloc, name)?;
            Ok(BareDec::Copy(*p, name, copy_long(alloc, old)?))
        },
        Dec::Exns(p, binds) => Ok(BareDec::Exns(*p, derive_ex_binds(alloc, binds.items())?)),
        Dec::Local(p, hidden, decs) => {
            let hidden = derive_decs(alloc, hidden.items())?;
            Ok(BareDec::Local(*p, hidden, derive_decs(alloc, decs.items())?))
        },
        Dec::Opens(p, longs) => Ok(BareDec::Opens(*p, copy_longs(alloc, longs.items())?)),
        Dec::Fix(p, right, digit, names) => {
            Ok(BareDec::Fix(*p, *right, *digit, copy_idents(alloc, names.items())?))
        },
        Dec::Nonfix(p, names) => Ok(BareDec::Nonfix(*p, copy_idents(alloc, names.items())?)),
        Dec::Abs(p, binds, tys, decs) => {
            let decs = derive_decs(alloc, decs.items())?;
            derive_hidden(alloc, *p, binds.items(), tys.items(), decs)
        },
    }
}

/// The clause with its parts derived.
#[cycle(derive_exp)]
#[inline(never)]
fn derive_clause(alloc: Global, syntax: &Clause) -> Result<BareClause, NoMemory>
    ensures { IfOk result (λ c. c ≡ derived_clause syntax.now) }
{
    match syntax {
        Clause::Prefix(p, op, name, args, ty, exp) => {
            let body = derive_exp(alloc, exp)?;
            clause(alloc, *p, *op, name, None, args.items(), ty, body)
        },
        Clause::Mid(p, left, name, right, ty, exp) => {
            let body = derive_exp(alloc, exp)?;
            let pair = derive_pair(alloc, left, right)?;
            clause(alloc, *p, true, name, Some(pair), &[], ty, body)
        },
        Clause::MidMore(p, left, name, right, args, ty, exp) => {
            let body = derive_exp(alloc, exp)?;
            let pair = derive_pair(alloc, left, right)?;
            clause(alloc, *p, true, name, Some(pair), args.items(), ty, body)
        },
    }
}

/// The atomic expressions of a row.
#[cycle(derive_exp)]
fn derive_at_exps(alloc: Global, exps: &[AtExp]) -> Result<List<BareAtExp>, NoMemory>
    ensures { IfOk result (λ es. es ≡ map derived_at_exp exps.now) }
{
    let mut done = List::new(alloc);
    for one in exps {
        done.push(derive_at_exp(alloc, one)?)?;
    }
    Ok(done)
}

/// The expressions of a row.
#[cycle(derive_exp)]
fn derive_exps(alloc: Global, exps: &[Exp]) -> Result<List<BareExp>, NoMemory>
    ensures { IfOk result (λ es. es ≡ map derived_exp exps.now) }
{
    let mut done = List::new(alloc);
    for one in exps {
        done.push(derive_exp(alloc, one)?)?;
    }
    Ok(done)
}

/// One expression and those after it.
#[cycle(derive_exp)]
fn derive_some(alloc: Global, first: &Exp, others: &[Exp]) -> Result<List<BareExp>, NoMemory>
    ensures { IfOk result (λ es. es ≡ derived_exp first.now ∷ map derived_exp others.now) }
{
    let mut done = List::new(alloc);
    done.push(derive_exp(alloc, first)?)?;
    for one in others {
        done.push(derive_exp(alloc, one)?)?;
    }
    Ok(done)
}

/// The fields of a record.
#[cycle(derive_exp)]
fn derive_fields(alloc: Global, fields: &[(Label, Exp)]) -> Result<List<(Label, BareExp)>, NoMemory>
    ensures { IfOk result (λ fs. fs ≡ map_second derived_exp fields.now) }
{
    let mut done = List::new(alloc);
    for one in fields {
        let exp = derive_exp(alloc, &one.1)?;
        done.push((copy_label(alloc, &one.0)?, exp))?;
    }
    Ok(done)
}

/// The rules of a match.
#[cycle(derive_exp)]
fn derive_rules(alloc: Global, rules: &[Rule]) -> Result<List<BareRule>, NoMemory>
    ensures { IfOk result (λ rs. rs ≡ map derived_rule rules.now) }
{
    let mut done = List::new(alloc);
    for one in rules {
        done.push(derive_rule(alloc, one)?)?;
    }
    Ok(done)
}

/// The declarations of a row.
#[cycle(derive_exp)]
fn derive_decs(alloc: Global, decs: &[Dec]) -> Result<List<BareDec>, NoMemory>
    ensures { IfOk result (λ ds. ds ≡ map derived_dec decs.now) }
{
    let mut done = List::new(alloc);
    for one in decs {
        done.push(derive_dec(alloc, one)?)?;
    }
    Ok(done)
}

/// The bindings of values of a row.
#[cycle(derive_exp)]
#[inline(never)]
fn derive_binds(alloc: Global, binds: &[(Pat, Exp)]) -> Result<List<(BarePat, BareExp)>, NoMemory>
    ensures { IfOk result (λ bs. bs ≡ map (λ b. (derived_pat b.0, b.1)) (map_second derived_exp binds.now)) }
{
    let mut done = List::new(alloc);
    for one in binds {
        let exp = derive_exp(alloc, &one.1)?;
        done.push((derive_pat(alloc, &one.0)?, exp))?;
    }
    Ok(done)
}

/// The functions of a declaration that stands at `place`.
#[cycle(derive_exp)]
#[inline(never)]
fn derive_functions(
    alloc: Global,
    place: Place,
    functions: &[List<Clause>],
) -> Result<List<(BarePat, BareExp)>, NoMemory>
    ensures { IfOk result (λ bs. bs ≡ map (spec.function place) (map (map derived_clause) functions.now)) }
{
    let mut done = List::new(alloc);
    for one in functions {
        let mut clauses = List::new(alloc);
        for clause in one.items() {
            clauses.push(derive_clause(alloc, clause)?)?;
        }
        done.push(function(alloc, place, clauses)?)?;
    }
    Ok(done)
}
