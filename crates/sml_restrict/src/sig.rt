//! The breaches in signatures and specifications.

ghost use Rattle.std.specs.Prelude.{◌≡◌, ◌++◌, map};
ghost use Rattle.tl_text.specs.Pairs.{map_second, seconds};
ghost use Rattle.sml_restrict_core.specs.Breaches.{after, joined};
ghost use Rattle.sml_restrict_core.specs.Repeats.{twice};
ghost use Rattle.sml_restrict.specs.Programs.{ascribe_breaches, exn_breaches, opt_ascribe_breaches, sig_breaches, spec_breaches, tys_breaches, val_breaches};

use sml_ast::{Ascribe, Ident, SigExp, Spec, Ty, Tyvars};
use sml_restrict_core::{
    check_closed, check_con_name, check_descs, check_name, check_opt_ty, check_twice, check_ty,
    check_types,
};
use tl_text::Refusal;

/// The breaches in a signature expression.
#[cycle(sig)]
#[tactic(auto, using(sml_restrict_core::proofs::After::breaches, crate::proofs::Modules::modules))]
pub(crate) fn check_sig(sig: &SigExp, found: Option<Refusal>) -> Option<Refusal>
    ensures { result ≡ after found (sig_breaches sig.now) }
{
    match sig {
        SigExp::Specs(_, specs) => check_specs(specs.items(), found),
        SigExp::SigAt(..) => found,
        SigExp::Real(_, _, inner, vars, _, ty) => {
            let found = check_sig(inner.get(), found);
            let found = check_twice(vars.items(), found);
            check_closed(vars.items(), ty, found)
        },
    }
}

/// The breaches in a specification.
#[cycle(sig)]
#[tactic(auto, using(sml_restrict_core::proofs::After::breaches, crate::proofs::Modules::modules))]
fn check_spec(spec: &Spec, found: Option<Refusal>) -> Option<Refusal>
    ensures { result ≡ after found (spec_breaches spec.now) }
{
    match spec {
        Spec::ValSpec(_, vals) => {
            let found = check_twice(vals.items(), found);
            check_vals(vals.items(), found)
        },
        Spec::TySpec(_, tys) => check_tys(tys.items(), found),
        Spec::EqSpec(_, tys) => check_tys(tys.items(), found),
        Spec::SynSpec(_, binds) => check_types(binds.items(), found),
        Spec::DataSpec(_, descs) => check_descs(descs.items(), found),
        Spec::ExnSpec(_, exns) => {
            let found = check_twice(exns.items(), found);
            check_exns(exns.items(), found)
        },
        Spec::StrSpec(_, strs) => {
            let found = check_twice(strs.items(), found);
            check_strs(strs.items(), found)
        },
        Spec::Incl(_, sig) => check_sig(sig.get(), found),
        Spec::CopySpec(..) | Spec::Incls(..) | Spec::ShareTy(..) | Spec::ShareStr(..) => found,
    }
}

/// The breaches in a row of specifications.
#[cycle(sig)]
#[tactic(auto, using(sml_restrict_core::proofs::After::breaches, crate::proofs::Modules::modules))]
pub(crate) fn check_specs(specs: &[Spec], mut found: Option<Refusal>) -> Option<Refusal>
    ensures { result ≡ after found (joined (map spec_breaches specs.now)) }
{
    for one in specs {
        found = check_spec(one, found);
    }
    found
}

/// The breaches in the structures of a specification.
#[cycle(sig)]
#[tactic(auto, using(sml_restrict_core::proofs::After::breaches, crate::proofs::Modules::modules))]
fn check_strs(strs: &[(Ident, SigExp)], mut found: Option<Refusal>) -> Option<Refusal>
    ensures { result ≡ after found (joined (seconds (map_second sig_breaches strs.now))) }
{
    for one in strs {
        found = check_sig(&one.1, found);
    }
    found
}

/// The breaches in the values of a specification, but for names that stand twice.
#[tactic(auto, using(sml_restrict_core::proofs::After::breaches, crate::proofs::Modules::modules))]
fn check_vals(vals: &[(Ident, Ty)], mut found: Option<Refusal>) -> Option<Refusal>
    ensures { result ≡ after found (joined (map val_breaches vals.now)) }
{
    for one in vals {
        found = check_name(&one.0, found);
        found = check_ty(&one.1, found);
    }
    found
}

/// The breaches in the exceptions of a specification, but for names that stand twice.
#[tactic(auto, using(sml_restrict_core::proofs::After::breaches, crate::proofs::Modules::modules))]
fn check_exns(exns: &[(Ident, Option<Ty>)], mut found: Option<Refusal>) -> Option<Refusal>
    ensures { result ≡ after found (joined (map exn_breaches exns.now)) }
{
    for one in exns {
        found = check_con_name(&one.0, found);
        found = check_opt_ty(&one.1, found);
    }
    found
}

/// A breach at each type variable that stands twice before one of these types.
#[tactic(auto, using(sml_restrict_core::proofs::After::breaches, crate::proofs::Modules::modules))]
fn check_vars(tys: &[(Tyvars, Ident)], mut found: Option<Refusal>) -> Option<Refusal>
    ensures { result ≡ after found (joined (map (λ x. twice x.0) tys.now)) }
{
    for one in tys {
        found = check_twice(one.0.items(), found);
    }
    found
}

/// The breaches in one `type` or `eqtype` specification.
#[tactic(auto, using(sml_restrict_core::proofs::After::breaches, crate::proofs::Modules::modules))]
fn check_tys(tys: &[(Tyvars, Ident)], found: Option<Refusal>) -> Option<Refusal>
    ensures { result ≡ after found (tys_breaches tys.now) }
{
    let found = check_twice(tys, found);
    check_vars(tys, found)
}

/// The breaches in an ascription that may be missing.
pub(crate) fn check_opt_ascribe(
    ascribe: &Option<Ascribe>,
    found: Option<Refusal>,
) -> Option<Refusal>
    ensures { result ≡ after found (opt_ascribe_breaches ascribe.now) }
{
    match ascribe {
        None => found,
        Some(ascribe) => check_ascribe(ascribe, found),
    }
}

/// The breaches in an ascription.
pub(crate) fn check_ascribe(ascribe: &Ascribe, found: Option<Refusal>) -> Option<Refusal>
    ensures { result ≡ after found (ascribe_breaches ascribe.now) }
{
    match ascribe {
        Ascribe::Clear(_, sig) => check_sig(sig, found),
        Ascribe::Opaque(_, sig) => check_sig(sig, found),
    }
}
