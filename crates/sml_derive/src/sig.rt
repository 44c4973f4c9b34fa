//! Signatures, specifications and ascriptions.

ghost use Rattle.std.specs.Prelude.{◌≡◌, IfOk, map};
ghost use Rattle.tl_text.specs.Pairs.{map_second};
ghost use Rattle.sml_derive.specs.Signatures.{derived_ascribe, derived_sig, derived_spec, joined};

use crate::rows::join;
use crate::spec::{
    copy_spec, data_spec, eq_spec, exn_spec, incl_spec, inclusions, real, share_strs, share_tys,
    str_spec, synonyms, ty_spec, val_spec,
};
use sml_ast::{Ascribe, BareAscribe, BareSigExp, BareSpec, Ident, SigExp, Spec};
use sml_derive_core::{copy_ident, copy_long};
use std::alloc::Global;
use tl_text::{List, NoMemory};

/// The signature expression without derived forms.
#[cycle(derive_sig)]
pub(crate) fn derive_sig(alloc: Global, sig: &SigExp) -> Result<BareSigExp, NoMemory>
    ensures { IfOk result (λ s. s ≡ derived_sig sig.now) }
{
    match sig {
        SigExp::Specs(p, specs) => Ok(BareSigExp::Specs(*p, derive_specs(alloc, specs.items())?)),
        SigExp::SigAt(p, name) => Ok(BareSigExp::SigAt(*p, copy_ident(alloc, name)?)),
        SigExp::Real(p, at, inner, vars, con, ty) => {
            let inner = derive_sig(alloc, inner.get())?;
            let con = copy_long(alloc, con)?;
            real(alloc, *p, *at, inner, vars.items(), con, ty)
        },
    }
}

/// What a specification stands for.
#[cycle(derive_sig)]
fn derive_spec(alloc: Global, spec: &Spec) -> Result<List<BareSpec>, NoMemory>
    ensures { IfOk result (λ ss. ss ≡ derived_spec spec.now) }
{
    match spec {
        Spec::ValSpec(p, vals) => val_spec(alloc, *p, vals.items()),
        Spec::TySpec(p, tys) => ty_spec(alloc, *p, tys.items()),
        Spec::EqSpec(p, tys) => eq_spec(alloc, *p, tys.items()),
        Spec::SynSpec(p, binds) => synonyms(alloc, *p, binds.items()),
        Spec::DataSpec(p, descs) => data_spec(alloc, *p, descs.items()),
        Spec::CopySpec(p, name, old) => copy_spec(alloc, *p, name, old),
        Spec::ExnSpec(p, exns) => exn_spec(alloc, *p, exns.items()),
        Spec::StrSpec(p, strs) => {
            let strs = derive_strs(alloc, strs.items())?;
            str_spec(alloc, *p, strs)
        },
        Spec::Incl(p, sig) => {
            let sig = derive_sig(alloc, sig.get())?;
            incl_spec(alloc, *p, sig)
        },
        Spec::Incls(p, names) => inclusions(alloc, *p, names.items()),
        Spec::ShareTy(p, first, others) => share_tys(alloc, *p, first, others.items()),
        Spec::ShareStr(p, first, others) => share_strs(alloc, *p, first, others.items()),
    }
}

/// The specifications of a row.
#[cycle(derive_sig)]
pub(crate) fn derive_specs(alloc: Global, specs: &[Spec]) -> Result<List<BareSpec>, NoMemory>
    ensures { IfOk result (λ ss. ss ≡ joined (map derived_spec specs.now)) }
{
    let mut parts = List::new(alloc);
    for one in specs {
        parts.push(derive_spec(alloc, one)?)?;
    }
    join(alloc, parts)
}

/// The structures of a specification.
#[cycle(derive_sig)]
fn derive_strs(
    alloc: Global,
    strs: &[(Ident, SigExp)],
) -> Result<List<(Ident, BareSigExp)>, NoMemory>
    ensures { IfOk result (λ ss. ss ≡ map_second derived_sig strs.now) }
{
    let mut done = List::new(alloc);
    for one in strs {
        let sig = derive_sig(alloc, &one.1)?;
        done.push((copy_ident(alloc, &one.0)?, sig))?;
    }
    Ok(done)
}

/// The ascription without derived forms.
pub(crate) fn derive_ascribe(alloc: Global, ascribe: &Ascribe) -> Result<BareAscribe, NoMemory>
    ensures { IfOk result (λ a. a ≡ derived_ascribe ascribe.now) }
{
    match ascribe {
        Ascribe::Clear(p, sig) => Ok(BareAscribe::Clear(*p, derive_sig(alloc, sig)?)),
        Ascribe::Opaque(p, sig) => Ok(BareAscribe::Opaque(*p, derive_sig(alloc, sig)?)),
    }
}
