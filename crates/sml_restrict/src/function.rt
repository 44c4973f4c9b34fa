//! What `val rec` and `fun` ask of their bindings.

ghost use Rattle.std.specs.Prelude.{◌≡◌, map};
ghost use Rattle.tl_text.specs.Pairs.{map_second};
ghost use Rattle.sml_restrict_core.specs.Breaches.{after, joined};
ghost use Rattle.sml_restrict_core.specs.Patterns.{pat_variable};
ghost use Rattle.sml_restrict_core.specs.Repeats.{again, twice};
ghost use Rattle.sml_restrict.specs.Expressions.{at_exp_facts, clause_facts, clauses_breaches, disagrees, exp_facts, function_names, pat_place, rec_breach, rec_breaches};

use sml_ast::{AtExp, Clause, Exp, Ident, Pat};
use sml_restrict_core::{add, check_name_at, same_name, variable_of};
use tl_text::{Code, List, Name, Place, Refusal};

/// Whether an atomic expression is `fn` in parentheses.
#[cycle(function)]
fn is_function_atom(exp: &AtExp) -> bool
    ensures { result ≡ (at_exp_facts exp.now).function }
{
    match exp {
        AtExp::Paren(_, inner) => is_function(inner.get()),
        AtExp::Lit(..)
        | AtExp::Id(..)
        | AtExp::Fields(..)
        | AtExp::Pick(..)
        | AtExp::Unit(..)
        | AtExp::Tuple(..)
        | AtExp::Items(..)
        | AtExp::Seq(..)
        | AtExp::Let(..) => false,
    }
}

/// Whether an expression is `fn`, with parentheses and constraints round it.
#[cycle(function)]
fn is_function(exp: &Exp) -> bool
    ensures { result ≡ (exp_facts exp.now).function }
{
    match exp {
        Exp::Fn(..) => true,
        Exp::Typed(_, inner, _) => is_function(inner.get()),
        Exp::Apply(_, atoms) => match atoms.items() {
            [] => false,
            [atom] => is_function_atom(atom),
            [_, _, ..] => false,
        },
        Exp::Infix(..)
        | Exp::AndAlso(..)
        | Exp::OrElse(..)
        | Exp::Handle(..)
        | Exp::Raise(..)
        | Exp::If(..)
        | Exp::While(..)
        | Exp::Case(..) => false,
    }
}

/// The place of a pattern.
fn place_of(pat: &Pat) -> Place
    ensures { result ≡ pat_place pat.now }
{
    match pat {
        Pat::PAtom(p, _) => *p,
        Pat::PCon(p, _, _, _) => *p,
        Pat::PInfix(p, _, _, _) => *p,
        Pat::PTyped(p, _, _) => *p,
        Pat::Layer(p, _, _, _, _) => *p,
    }
}

/// A breach where `val rec` binds what is no variable, or binds it to what is no `fn`.
#[tactic(auto, using(sml_restrict_core::proofs::After::breaches))]
fn check_rec(pat: &Pat, exp: &Exp, found: Option<Refusal>) -> Option<Refusal>
    ensures { result ≡ after found (rec_breach (pat_place pat.now) (pat_variable pat.now) (exp_facts exp.now).function) }
{
    match variable_of(pat) {
        None => add(found, Code::RecNotFn, place_of(pat)),
        Some((place, name)) => {
            let found = check_name_at(place, name, found);
            if is_function(exp) {
                found
            } else {
                add(found, Code::RecNotFn, place_of(pat))
            }
        },
    }
}

/// The same of the bindings of a value declaration, where `rec` is there.
pub(crate) fn check_recs(
    is_rec: bool,
    binds: &[(Pat, Exp)],
    found: Option<Refusal>,
) -> Option<Refusal>
    ensures { result ≡ after found (rec_breaches is_rec (map_second exp_facts binds.now)) }
{
    if is_rec {
        check_rec_binds(binds, found)
    } else {
        found
    }
}

/// The same of the bindings of a `val rec`.
#[tactic(auto, using(sml_restrict_core::proofs::After::breaches))]
fn check_rec_binds(binds: &[(Pat, Exp)], mut found: Option<Refusal>) -> Option<Refusal>
    ensures { result ≡ after found (joined (map (λ b. rec_breach (pat_place b.0) (pat_variable b.0) b.1.function) (map_second exp_facts binds.now))) }
{
    for one in binds {
        found = check_rec(&one.0, &one.1, found);
    }
    found
}

/// The name of a function as a clause has it.
fn name_of(clause: &Clause) -> &Ident
    ensures { result.now ≡ (clause_facts clause.now).name }
{
    match clause {
        Clause::Prefix(_, _, name, _, _, _) => name,
        Clause::Mid(_, _, name, _, _, _) => name,
        Clause::MidMore(_, _, name, _, _, _, _) => name,
    }
}

/// The place of a clause.
fn place_of_clause(clause: &Clause) -> Place
    ensures { result ≡ (clause_facts clause.now).place }
{
    match clause {
        Clause::Prefix(p, _, _, _, _, _) => *p,
        Clause::Mid(p, _, _, _, _, _) => *p,
        Clause::MidMore(p, _, _, _, _, _, _) => *p,
    }
}

/// The number of arguments of a clause.
fn count_of(clause: &Clause) -> u128
    ensures { result ≡ (clause_facts clause.now).count }
{
    match clause {
        Clause::Prefix(_, _, _, args, _, _) => args.items().len() as u128,
        Clause::Mid(..) => 1,
        Clause::MidMore(_, _, _, _, args, _, _) => args.items().len() as u128 + 1,
    }
}

/// A breach where a clause has another name than the first, or another number of arguments.
fn check_agrees(first: &Clause, other: &Clause, found: Option<Refusal>) -> Option<Refusal>
    ensures { result ≡ after found (disagrees (clause_facts first.now) (clause_facts other.now)) }
{
    if same_name(&name_of(other).1, &name_of(first).1) && count_of(other) == count_of(first) {
        found
    } else {
        add(found, Code::Clauses, place_of_clause(other))
    }
}

/// The same of the clauses after the first.
#[tactic(auto, using(sml_restrict_core::proofs::After::breaches))]
fn check_others(first: &Clause, others: &[Clause], mut found: Option<Refusal>) -> Option<Refusal>
    ensures { result ≡ after found (joined (map (disagrees (clause_facts first.now)) (map clause_facts others.now))) }
{
    for one in others {
        found = check_agrees(first, one, found);
    }
    found
}

/// The same of the clauses of a function.
fn check_clauses(clauses: &[Clause], found: Option<Refusal>) -> Option<Refusal>
    ensures { result ≡ after found (clauses_breaches (map clause_facts clauses.now)) }
{
    match clauses {
        [] => found,
        [first, others @ ..] => check_others(first, others, found),
    }
}

/// The same of the functions of a declaration.
#[tactic(auto, using(sml_restrict_core::proofs::After::breaches))]
pub(crate) fn check_functions(
    functions: &[List<Clause>],
    mut found: Option<Refusal>,
) -> Option<Refusal>
    ensures { result ≡ after found (joined (map clauses_breaches (map (map clause_facts) functions.now))) }
{
    for one in functions {
        found = check_clauses(one.items(), found);
    }
    found
}

/// A breach at each function that has the name.
#[tactic(auto, using(sml_restrict_core::proofs::After::breaches))]
fn check_name_again(
    name: &Name,
    functions: &[List<Clause>],
    mut found: Option<Refusal>,
) -> Option<Refusal>
    ensures { result ≡ after found (again name.now (function_names (map (map clause_facts) functions.now))) }
{
    for one in functions {
        if let Some(first) = one.items().first() {
            let other = name_of(first);
            if same_name(&other.1, name) {
                found = add(found, Code::Repeated, other.0);
            }
        }
    }
    found
}

/// A breach at each function of a declaration that has the name of an earlier one.
#[tactic(auto, using(sml_restrict_core::proofs::After::breaches))]
pub(crate) fn check_function_names(
    functions: &[List<Clause>],
    mut found: Option<Refusal>,
) -> Option<Refusal>
    ensures { result ≡ after found (twice (function_names (map (map clause_facts) functions.now))) }
{
    let mut rest = functions;
    while let Some((one, others)) = rest.split_first() {
        if let Some(first) = one.items().first() {
            found = check_name_again(&name_of(first).1, others, found);
        }
        rest = others;
    }
    found
}
