//! Specifications whose signatures have no derived forms any more.

ghost use Rattle.std.specs.Prelude.{◌≡◌, [], ◌∷◌, IfOk, map};
ghost use Rattle.sml_ast.specs.declared.bare_sig.BareSigExp.TheVariants as bare_sig;
ghost use Rattle.sml_ast.specs.declared.bare_sig.BareSpec.TheVariants as bare_spec;
ghost use Rattle.sml_derive_core.specs.Bindings.{derived_dat_desc, described_con};
ghost use Rattle.sml_derive_core.specs.Types.{derived_ty};
ghost use Rattle.sml_derive.specs.Signatures as signatures;
ghost use Rattle.sml_derive.specs.Signatures.{included, synonym};

use sml_ast::{BareSigExp, BareSpec, BareTy, DatDesc, Ident, LongIdent, Ty, TyBind, Tyvars};
use sml_derive_core::{
    copy_ident, copy_idents, copy_long, copy_longs, derive_dat_descs, derive_described, derive_ty,
    long_of,
};
use sml_derive_forms::one;
use std::alloc::Global;
use tl_text::{Boxed, List, NoMemory, Place};

/// `sig where type con = ty`
pub(crate) fn real(
    alloc: Global,
    place: Place,
    at: Place,
    sig: BareSigExp,
    vars: &[Ident],
    con: LongIdent,
    ty: &Ty,
) -> Result<BareSigExp, NoMemory>
    ensures { IfOk result (λ s. s ≡ bare_sig.Real place at sig vars.now con (derived_ty ty.now)) }
{
    let sig = Boxed::new(alloc, sig)?;
    let vars = copy_idents(alloc, vars)?;
    Ok(BareSigExp::Real(place, at, sig, vars, con, derive_ty(alloc, ty)?))
}

/// `include sig`
fn inclusion(alloc: Global, place: Place, sig: BareSigExp) -> Result<BareSpec, NoMemory>
    ensures { IfOk result (λ s. s ≡ bare_spec.Incl place sig) }
{
    Ok(BareSpec::Incl(place, Boxed::new(alloc, sig)?))
}

/// `val` with its values
pub(crate) fn val_spec(
    alloc: Global,
    place: Place,
    vals: &[(Ident, Ty)],
) -> Result<List<BareSpec>, NoMemory>
    ensures { IfOk result (λ ss. ss ≡ bare_spec.ValSpec place (map (λ x. (x.0, derived_ty x.1)) vals.now) ∷ []) }
{
    let vals = derive_vals(alloc, vals)?;
    one(alloc, BareSpec::ValSpec(place, vals))
}

/// `type` with its types
pub(crate) fn ty_spec(
    alloc: Global,
    place: Place,
    tys: &[(Tyvars, Ident)],
) -> Result<List<BareSpec>, NoMemory>
    ensures { IfOk result (λ ss. ss ≡ bare_spec.TySpec place tys.now ∷ []) }
{
    let tys = copy_tys(alloc, tys)?;
    one(alloc, BareSpec::TySpec(place, tys))
}

/// `eqtype` with its types
pub(crate) fn eq_spec(
    alloc: Global,
    place: Place,
    tys: &[(Tyvars, Ident)],
) -> Result<List<BareSpec>, NoMemory>
    ensures { IfOk result (λ ss. ss ≡ bare_spec.EqSpec place tys.now ∷ []) }
{
    let tys = copy_tys(alloc, tys)?;
    one(alloc, BareSpec::EqSpec(place, tys))
}

/// `datatype` with its descriptions
pub(crate) fn data_spec(
    alloc: Global,
    place: Place,
    descs: &[DatDesc],
) -> Result<List<BareSpec>, NoMemory>
    ensures { IfOk result (λ ss. ss ≡ bare_spec.DataSpec place (map derived_dat_desc descs.now) ∷ []) }
{
    let descs = derive_dat_descs(alloc, descs)?;
    one(alloc, BareSpec::DataSpec(place, descs))
}

/// `datatype name = datatype old`
pub(crate) fn copy_spec(
    alloc: Global,
    place: Place,
    name: &Ident,
    old: &LongIdent,
) -> Result<List<BareSpec>, NoMemory>
    ensures { IfOk result (λ ss. ss ≡ bare_spec.CopySpec place name.now old.now ∷ []) }
{
    let name = copy_ident(alloc, name)?;
    let old = copy_long(alloc, old)?;
    one(alloc, BareSpec::CopySpec(place, name, old))
}

/// `exception` with its constructors
pub(crate) fn exn_spec(
    alloc: Global,
    place: Place,
    exns: &[(Ident, Option<Ty>)],
) -> Result<List<BareSpec>, NoMemory>
    ensures { IfOk result (λ ss. ss ≡ bare_spec.ExnSpec place (map described_con exns.now) ∷ []) }
{
    let exns = derive_described(alloc, exns)?;
    one(alloc, BareSpec::ExnSpec(place, exns))
}

/// `structure` with its structures
pub(crate) fn str_spec(
    alloc: Global,
    place: Place,
    strs: List<(Ident, BareSigExp)>,
) -> Result<List<BareSpec>, NoMemory>
    ensures { IfOk result (λ ss. ss ≡ bare_spec.StrSpec place strs ∷ []) }
{
    one(alloc, BareSpec::StrSpec(place, strs))
}

/// `include sig`, in a row of its own
pub(crate) fn incl_spec(
    alloc: Global,
    place: Place,
    sig: BareSigExp,
) -> Result<List<BareSpec>, NoMemory>
    ensures { IfOk result (λ ss. ss ≡ bare_spec.Incl place sig ∷ []) }
{
    let spec = inclusion(alloc, place, sig)?;
    one(alloc, spec)
}

/// `sharing type first = .. = others`
pub(crate) fn share_tys(
    alloc: Global,
    place: Place,
    first: &LongIdent,
    others: &[LongIdent],
) -> Result<List<BareSpec>, NoMemory>
    ensures { IfOk result (λ ss. ss ≡ bare_spec.ShareTy place first.now others.now ∷ []) }
{
    let first = copy_long(alloc, first)?;
    let others = copy_longs(alloc, others)?;
    one(alloc, BareSpec::ShareTy(place, first, others))
}

/// `sharing first = .. = others`
pub(crate) fn share_strs(
    alloc: Global,
    place: Place,
    first: &LongIdent,
    others: &[LongIdent],
) -> Result<List<BareSpec>, NoMemory>
    ensures { IfOk result (λ ss. ss ≡ bare_spec.ShareStr place first.now others.now ∷ []) }
{
    let first = copy_long(alloc, first)?;
    let others = copy_longs(alloc, others)?;
    one(alloc, BareSpec::ShareStr(place, first, others))
}

/// The values of a specification.
fn derive_vals(alloc: Global, vals: &[(Ident, Ty)]) -> Result<List<(Ident, BareTy)>, NoMemory>
    ensures { IfOk result (λ vs. vs ≡ map (λ x. (x.0, derived_ty x.1)) vals.now) }
{
    let mut done = List::new(alloc);
    for one in vals {
        let ty = derive_ty(alloc, &one.1)?;
        done.push((copy_ident(alloc, &one.0)?, ty))?;
    }
    Ok(done)
}

/// The same types of a specification.
fn copy_tys(alloc: Global, tys: &[(Tyvars, Ident)]) -> Result<List<(Tyvars, Ident)>, NoMemory>
    ensures { IfOk result (λ ts. ts ≡ tys.now) }
{
    let mut done = List::new(alloc);
    for one in tys {
        let vars = copy_idents(alloc, one.0.items())?;
        done.push((vars, copy_ident(alloc, &one.1)?))?;
    }
    Ok(done)
}

/// `type t` between `sig` and `end`.
fn declared(alloc: Global, place: Place, bind: &TyBind) -> Result<BareSigExp, NoMemory>
    ensures { IfOk result (λ s. s ≡ signatures.declared place bind.now) }
{
    let vars = copy_idents(alloc, bind.0.items())?;
    let tys = one(alloc, (vars, copy_ident(alloc, &bind.1)?))?;
    Ok(BareSigExp::Specs(place, one(alloc, BareSpec::TySpec(place, tys))?))
}

/// `type t = u` as a specification.
fn derive_synonym(alloc: Global, place: Place, bind: &TyBind) -> Result<BareSpec, NoMemory>
    ensures { IfOk result (λ s. s ≡ synonym place bind.now) }
{
    let sig = declared(alloc, place, bind)?;
    let con = long_of(alloc, &bind.1)?;
    let sig = real(alloc, place, place, sig, bind.0.items(), con, &bind.2)?;
    inclusion(alloc, place, sig)
}

/// What `type t = u and v = w` stands for.
pub(crate) fn synonyms(
    alloc: Global,
    place: Place,
    binds: &[TyBind],
) -> Result<List<BareSpec>, NoMemory>
    ensures { IfOk result (λ ss. ss ≡ map (synonym place) binds.now) }
{
    let mut done = List::new(alloc);
    for one in binds {
        done.push(derive_synonym(alloc, place, one)?)?;
    }
    Ok(done)
}

/// One of the signatures of `include A B`.
fn derive_included(alloc: Global, place: Place, name: &Ident) -> Result<BareSpec, NoMemory>
    ensures { IfOk result (λ s. s ≡ included place name.now) }
{
    let sig = BareSigExp::SigAt(place, copy_ident(alloc, name)?);
    inclusion(alloc, place, sig)
}

/// What `include A B` stands for.
pub(crate) fn inclusions(
    alloc: Global,
    place: Place,
    names: &[Ident],
) -> Result<List<BareSpec>, NoMemory>
    ensures { IfOk result (λ ss. ss ≡ map (included place) names.now) }
{
    let mut done = List::new(alloc);
    for one in names {
        done.push(derive_included(alloc, place, one)?)?;
    }
    Ok(done)
}
