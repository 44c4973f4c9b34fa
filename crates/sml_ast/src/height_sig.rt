//! The height of signatures and specifications.

ghost use Rattle.std.specs.Prelude.{◌≡◌, ◌-◌, ◌^◌, min, max, map};
ghost use Rattle.tl_text.specs.Pairs.{seconds, map_second};
ghost use Rattle.sml_ast.specs.Heights.{ascribe_height, greatest, opt_ascribe_height, sig_height, spec_height, ty_height};

use crate::height_data::{dat_descs_height, described_height};
use crate::height_ty::{ty_binds_height, ty_height};
use crate::name::Ident;
use crate::sig::{Ascribe, SigExp, Spec};
use crate::ty::Ty;

/// The height of a signature expression.
#[cycle(sig_height)]
pub(crate) fn sig_height(exp: &SigExp) -> u32
    ensures { result ≡ min (sig_height exp.now) (2 ^ 32 - 1) }
{
    match exp {
        SigExp::Specs(_, specs) => sig_specs_height(specs.items()).saturating_add(1),
        SigExp::SigAt(..) => 1,
        SigExp::Real(_, _, inner, _, _, ty) => sig_height(inner.get())
            .max(ty_height(ty))
            .saturating_add(1),
    }
}

/// The height of a specification.
#[cycle(sig_height)]
#[tactic(auto, using(crate::proofs::Levels::spec_strs))]
fn spec_height(spec: &Spec) -> u32
    ensures { result ≡ min (spec_height spec.now) (2 ^ 32 - 1) }
{
    match spec {
        Spec::ValSpec(_, vals) => vals_height(vals.items()).saturating_add(1),
        Spec::SynSpec(_, binds) => ty_binds_height(binds.items()).saturating_add(1),
        Spec::DataSpec(_, descs) => dat_descs_height(descs.items()).saturating_add(1),
        Spec::ExnSpec(_, exns) => described_height(exns.items()).saturating_add(1),
        Spec::StrSpec(_, strs) => strs_height(strs.items()).saturating_add(1),
        Spec::Incl(_, inner) => sig_height(inner.get()).saturating_add(1),
        Spec::TySpec(..) | Spec::EqSpec(..) | Spec::CopySpec(..) | Spec::Incls(..) => 1,
        Spec::ShareTy(..) | Spec::ShareStr(..) => 1,
    }
}

/// The greatest height of the specifications of a signature.
#[cycle(sig_height)]
fn sig_specs_height(specs: &[Spec]) -> u32
    ensures { result ≡ min (greatest (map spec_height specs.now)) (2 ^ 32 - 1) }
{
    let mut most = 0;
    for one in specs {
        most = most.max(spec_height(one));
    }
    most
}

/// The greatest height of a row of specified structures.
#[cycle(sig_height)]
fn strs_height(strs: &[(Ident, SigExp)]) -> u32
    ensures { result ≡ min (greatest (seconds (map_second sig_height strs.now))) (2 ^ 32 - 1) }
{
    let mut most = 0;
    for one in strs {
        most = most.max(sig_height(&one.1));
    }
    most
}

/// The greatest height of a row of specified values.
fn vals_height(vals: &[(Ident, Ty)]) -> u32
    ensures { result ≡ min (greatest (map (λ x. ty_height x.1) vals.now)) (2 ^ 32 - 1) }
{
    let mut most = 0;
    for one in vals {
        most = most.max(ty_height(&one.1));
    }
    most
}

/// The greatest height of a row of specifications.
pub(crate) fn specs_height(specs: &[Spec]) -> u32
    ensures { result ≡ min (greatest (map spec_height specs.now)) (2 ^ 32 - 1) }
{
    let mut most = 0;
    for one in specs {
        most = most.max(spec_height(one));
    }
    most
}

/// The height of an ascription.
pub(crate) fn ascribe_height(ascribe: &Ascribe) -> u32
    ensures { result ≡ min (ascribe_height ascribe.now) (2 ^ 32 - 1) }
{
    match ascribe {
        Ascribe::Clear(_, exp) | Ascribe::Opaque(_, exp) => sig_height(exp).saturating_add(1),
    }
}

/// The height of an ascription that may be missing.
pub(crate) fn opt_ascribe_height(ascribe: &Option<Ascribe>) -> u32
    ensures { result ≡ min (opt_ascribe_height ascribe.now) (2 ^ 32 - 1) }
{
    match ascribe {
        None => 0,
        Some(ascribe) => ascribe_height(ascribe),
    }
}
