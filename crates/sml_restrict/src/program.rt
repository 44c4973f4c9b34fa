//! Structures, functors and whole sources.

ghost use Rattle.std.specs.Prelude.{◌≡◌, [], ◌++◌, map, IfErr, MatchResult};
ghost use Rattle.tl_text.specs.Pairs.{seconds};
ghost use Rattle.sml_restrict_core.specs.Breaches.{IsFirst, after, first, joined};
ghost use Rattle.sml_restrict_core.specs.Repeats.{again, twice};
ghost use Rattle.sml_restrict.specs.Programs.{Breaks, breaches, fun_bind_breaches, sig_bind_breaches, str_bind_breaches, str_dec_breaches, str_exp_breaches, top_breaches};

use crate::phrase::{check_dec, check_exp};
use crate::sig::{check_ascribe, check_opt_ascribe, check_sig, check_specs};
use sml_ast::{FunBind, Program, SigBind, StrBind, StrDec, StrExp, Top};
use sml_restrict_core::{add, check_twice, same_name};
use tl_text::{Code, Name, Refusal};

/// The breaches in a structure expression.
#[cycle(structure)]
#[tactic(auto, using(sml_restrict_core::proofs::After::breaches, crate::proofs::Modules::modules))]
fn check_str(exp: &StrExp, found: Option<Refusal>) -> Option<Refusal>
    ensures { result ≡ after found (str_exp_breaches exp.now) }
{
    match exp {
        StrExp::Body(_, decs) => check_str_decs(decs.items(), found),
        StrExp::At(..) => found,
        StrExp::Seal(_, inner, ascribe) => {
            let found = check_str(inner.get(), found);
            check_ascribe(ascribe, found)
        },
        StrExp::Call(_, _, inner) => check_str(inner.get(), found),
        StrExp::CallBody(_, _, decs) => check_str_decs(decs.items(), found),
        StrExp::LetStr(_, decs, inner) => {
            let found = check_str_decs(decs.items(), found);
            check_str(inner.get(), found)
        },
    }
}

/// The breaches in a declaration at structure level.
#[cycle(structure)]
#[tactic(auto, using(sml_restrict_core::proofs::After::breaches, crate::proofs::Modules::modules))]
fn check_str_dec(dec: &StrDec, found: Option<Refusal>) -> Option<Refusal>
    ensures { result ≡ after found (str_dec_breaches dec.now) }
{
    match dec {
        StrDec::Core(_, dec) => check_dec(dec, found),
        StrDec::Structs(_, binds) => {
            let found = check_str_names(binds.items(), found);
            check_str_binds(binds.items(), found)
        },
        StrDec::LocalStr(_, hidden, decs) => {
            let found = check_str_decs(hidden.items(), found);
            check_str_decs(decs.items(), found)
        },
    }
}

/// The breaches in a row of declarations at structure level.
#[cycle(structure)]
#[tactic(auto, using(sml_restrict_core::proofs::After::breaches, crate::proofs::Modules::modules))]
fn check_str_decs(decs: &[StrDec], mut found: Option<Refusal>) -> Option<Refusal>
    ensures { result ≡ after found (joined (map str_dec_breaches decs.now)) }
{
    for one in decs {
        found = check_str_dec(one, found);
    }
    found
}

/// The breaches in the bindings of structures, but for names that stand twice.
#[cycle(structure)]
#[tactic(auto, using(sml_restrict_core::proofs::After::breaches, crate::proofs::Modules::modules))]
fn check_str_binds(binds: &[StrBind], mut found: Option<Refusal>) -> Option<Refusal>
    ensures { result ≡ after found (joined (seconds (map str_bind_breaches binds.now))) }
{
    for one in binds {
        found = check_str_bind(one, found);
    }
    found
}

/// The breaches in a binding of a structure.
#[cycle(structure)]
#[tactic(auto, using(sml_restrict_core::proofs::After::breaches, crate::proofs::Modules::modules))]
fn check_str_bind(bind: &StrBind, found: Option<Refusal>) -> Option<Refusal>
    ensures { result ≡ after found (str_bind_breaches bind.now).1 }
{
    match bind {
        StrBind::Bind(_, _, ascribe, exp) => {
            let found = check_opt_ascribe(ascribe, found);
            check_str(exp, found)
        },
    }
}

/// A breach at each structure that has the name.
#[tactic(auto, using(sml_restrict_core::proofs::After::breaches, crate::proofs::Modules::modules))]
fn check_str_again(name: &Name, binds: &[StrBind], mut found: Option<Refusal>) -> Option<Refusal>
    ensures { result ≡ after found (again name.now (map (λ b. b.0) (map str_bind_breaches binds.now))) }
{
    for one in binds {
        let StrBind::Bind(_, other, _, _) = one;
        if same_name(&other.1, name) {
            found = add(found, Code::Repeated, other.0);
        }
    }
    found
}

/// A breach at each structure that has the name of an earlier one.
#[tactic(auto, using(sml_restrict_core::proofs::After::breaches, crate::proofs::Modules::modules))]
fn check_str_names(binds: &[StrBind], mut found: Option<Refusal>) -> Option<Refusal>
    ensures { result ≡ after found (twice (map (λ b. b.0) (map str_bind_breaches binds.now))) }
{
    let mut rest = binds;
    while let Some((one, others)) = rest.split_first() {
        let StrBind::Bind(_, name, _, _) = one;
        found = check_str_again(&name.1, others, found);
        rest = others;
    }
    found
}

/// The breaches in the bindings of signatures, but for names that stand twice.
#[tactic(auto, using(sml_restrict_core::proofs::After::breaches, crate::proofs::Modules::modules))]
fn check_sig_binds(binds: &[SigBind], mut found: Option<Refusal>) -> Option<Refusal>
    ensures { result ≡ after found (joined (map sig_bind_breaches binds.now)) }
{
    for one in binds {
        let SigBind::SigAs(_, _, sig) = one;
        found = check_sig(sig, found);
    }
    found
}

/// The breaches in a binding of a functor.
#[tactic(auto, using(sml_restrict_core::proofs::After::breaches, crate::proofs::Modules::modules))]
fn check_functor(bind: &FunBind, found: Option<Refusal>) -> Option<Refusal>
    ensures { result ≡ after found (fun_bind_breaches bind.now) }
{
    match bind {
        FunBind::FunOf(_, _, _, sig, ascribe, exp) => {
            let found = check_sig(sig, found);
            let found = check_opt_ascribe(ascribe, found);
            check_str(exp, found)
        },
        FunBind::FunSpecs(_, _, specs, ascribe, exp) => {
            let found = check_specs(specs.items(), found);
            let found = check_opt_ascribe(ascribe, found);
            check_str(exp, found)
        },
    }
}

/// The breaches in the bindings of functors, but for names that stand twice.
#[tactic(auto, using(sml_restrict_core::proofs::After::breaches, crate::proofs::Modules::modules))]
fn check_functors(binds: &[FunBind], mut found: Option<Refusal>) -> Option<Refusal>
    ensures { result ≡ after found (joined (map fun_bind_breaches binds.now)) }
{
    for one in binds {
        found = check_functor(one, found);
    }
    found
}

/// The breaches in a top-level declaration.
#[tactic(auto, using(sml_restrict_core::proofs::After::breaches, crate::proofs::Modules::modules))]
fn check_top(top: &Top, found: Option<Refusal>) -> Option<Refusal>
    ensures { result ≡ after found (top_breaches top.now) }
{
    match top {
        Top::Strs(_, dec) => check_str_dec(dec, found),
        Top::Sigs(_, binds) => {
            let found = check_twice(binds.items(), found);
            check_sig_binds(binds.items(), found)
        },
        Top::Funs(_, binds) => {
            let found = check_twice(binds.items(), found);
            check_functors(binds.items(), found)
        },
        Top::Run(_, exp) => check_exp(exp, found),
    }
}

/// The breaches in the top-level declarations of a source.
#[tactic(auto, using(sml_restrict_core::proofs::After::breaches, crate::proofs::Modules::modules))]
fn check_tops(tops: &[Top], mut found: Option<Refusal>) -> Option<Refusal>
    ensures { result ≡ after found (joined (map top_breaches tops.now)) }
{
    for one in tops {
        found = check_top(one, found);
    }
    found
}

/// Ok where nothing in a source breaks a rule that form alone shows, and else the refusal of the phrase that stands first
/// among those that break one, with codes 13 to 17 (the Definition, sections 2.9, 3.5 and 4.6). It takes no memory.
pub fn restrict(program: &Program) -> Result<(), Refusal>
    ensures exact { MatchResult result (λ _. breaches program.now ≡ [])
        (λ r. Breaks program.now r.place r.code) }
    ensures stands_first { IfErr result (λ r. IsFirst r (breaches program.now)) }
{
    let Program::Tops(_, tops) = program;
    match check_tops(tops.items(), None) {
        None => Ok(()),
        Some(refusal) => Err(refusal),
    }
}
