//! Bindings of functors.

ghost use Rattle.std.specs.Prelude.{◌≡◌, [], ◌∷◌, IfOk, map};
ghost use Rattle.sml_ast.specs.declared.bare_program.BareFunBind.TheVariants as fun_bind;
ghost use Rattle.sml_derive_core.specs.Names.{fresh_name};
ghost use Rattle.sml_derive.specs.Programs as spec;
ghost use Rattle.sml_derive.specs.Programs.{derived_fun_bind, derived_str, opened, sealed};

use crate::phrases::{ascribed, let_in};
use crate::sig::{derive_sig, derive_specs};
use crate::structures::derive_str;
use sml_ast::{
    Ascribe, BareDec, BareFunBind, BareSigExp, BareStrDec, BareStrExp, FunBind, Ident, SigExp,
    Spec, StrExp,
};
use sml_derive_core::{copy_ident, fresh};
use sml_derive_forms::one;
use std::alloc::Global;
use tl_text::{List, NoMemory, Path, Place};

/// `open v`, as a declaration at structure level.
fn open_new(alloc: Global, place: Place) -> Result<BareStrDec, NoMemory>
    ensures { IfOk result (λ d. d ≡ spec.open_new place) }
{
    let mut path = Path::new(alloc);
    path.push(fresh(alloc, 1)?)?;
    let paths = one(alloc, (place, path))?;
    Ok(BareStrDec::Core(place, BareDec::Opens(place, paths)))
}

/// `open v`, as the one declaration of a row
fn opening(alloc: Global, place: Place) -> Result<List<BareStrDec>, NoMemory>
    ensures { IfOk result (λ ds. ds ≡ spec.open_new place ∷ []) }
{
    let dec = open_new(alloc, place)?;
    one(alloc, dec)
}

/// `let open v in exp end`
fn open_in(alloc: Global, place: Place, exp: BareStrExp) -> Result<BareStrExp, NoMemory>
    ensures { IfOk result (λ e. e ≡ opened place exp) }
{
    let decs = opening(alloc, place)?;
    let_in(alloc, place, decs, exp)
}

/// The body of a functor with the ascription of its result, where one is written.
fn derive_body(
    alloc: Global,
    place: Place,
    ascribe: &Option<Ascribe>,
    exp: &StrExp,
) -> Result<BareStrExp, NoMemory>
    ensures { IfOk result (λ e. e ≡ sealed place ascribe.now (derived_str exp.now)) }
{
    let exp = derive_str(alloc, exp)?;
    ascribed(alloc, place, ascribe, exp)
}

/// `sig specs end`
fn signature_of(alloc: Global, place: Place, specs: &[Spec]) -> Result<BareSigExp, NoMemory>
    ensures { IfOk result (λ s. s ≡ spec.signature_of place specs.now) }
{
    let specs = derive_specs(alloc, specs)?;
    Ok(BareSigExp::Specs(place, specs))
}

/// The names of a functor and of its parameter.
fn names(alloc: Global, functor: &Ident, name: &Ident) -> Result<(Ident, Ident), NoMemory>
    ensures { IfOk result (λ n. n ≡ (functor.now, name.now)) }
{
    let functor = copy_ident(alloc, functor)?;
    let name = copy_ident(alloc, name)?;
    Ok((functor, name))
}

/// The name of a functor, and a new one for its parameter.
fn new_names(alloc: Global, place: Place, functor: &Ident) -> Result<(Ident, Ident), NoMemory>
    ensures { IfOk result (λ n. n ≡ (functor.now, (place, fresh_name 1))) }
{
    let functor = copy_ident(alloc, functor)?;
    let name = fresh(alloc, 1)?;
    Ok((functor, (place, name)))
}

/// `functor (name : sig) = exp`
fn with_name(
    alloc: Global,
    place: Place,
    functor: &Ident,
    name: &Ident,
    sig: BareSigExp,
    exp: BareStrExp,
) -> Result<BareFunBind, NoMemory>
    ensures { IfOk result (λ b. b ≡ fun_bind.FunOf place functor.now name.now sig exp) }
{
    let (functor, name) = names(alloc, functor, name)?;
    Ok(BareFunBind::FunOf(place, functor, name, sig, exp))
}

/// `functor (v : sig) = exp`, with a new name v
fn with_new(
    alloc: Global,
    place: Place,
    functor: &Ident,
    sig: BareSigExp,
    exp: BareStrExp,
) -> Result<BareFunBind, NoMemory>
    ensures { IfOk result (λ b. b ≡ spec.with_new place functor.now sig exp) }
{
    let (functor, name) = new_names(alloc, place, functor)?;
    Ok(BareFunBind::FunOf(place, functor, name, sig, exp))
}

/// A functor whose parameter has a name.
fn derive_named(
    alloc: Global,
    place: Place,
    functor: &Ident,
    name: &Ident,
    sig: &SigExp,
    exp: BareStrExp,
) -> Result<BareFunBind, NoMemory>
    ensures { IfOk result (λ b. b ≡ spec.of_name place functor.now name.now sig.now exp) }
{
    let sig = derive_sig(alloc, sig)?;
    with_name(alloc, place, functor, name, sig, exp)
}

/// A functor whose parameter is given by specifications.
fn derive_unnamed(
    alloc: Global,
    place: Place,
    functor: &Ident,
    specs: &[Spec],
    exp: BareStrExp,
) -> Result<BareFunBind, NoMemory>
    ensures { IfOk result (λ b. b ≡ spec.of_specs place functor.now specs.now exp) }
{
    let exp = open_in(alloc, place, exp)?;
    let sig = signature_of(alloc, place, specs)?;
    with_new(alloc, place, functor, sig, exp)
}

/// The binding of a functor without derived forms.
fn derive_fun_bind(alloc: Global, bind: &FunBind) -> Result<BareFunBind, NoMemory>
    ensures { IfOk result (λ b. b ≡ derived_fun_bind bind.now) }
{
    match bind {
        FunBind::FunOf(p, functor, name, sig, ascribe, exp) => {
            let exp = derive_body(alloc, *p, ascribe, exp)?;
            derive_named(alloc, *p, functor, name, sig, exp)
        },
        FunBind::FunSpecs(p, functor, specs, ascribe, exp) => {
            let exp = derive_body(alloc, *p, ascribe, exp)?;
            derive_unnamed(alloc, *p, functor, specs.items(), exp)
        },
    }
}

/// The bindings of functors of a row.
pub(crate) fn derive_fun_binds(
    alloc: Global,
    binds: &[FunBind],
) -> Result<List<BareFunBind>, NoMemory>
    ensures { IfOk result (λ bs. bs ≡ map derived_fun_bind binds.now) }
{
    let mut done = List::new(alloc);
    for one in binds {
        done.push(derive_fun_bind(alloc, one)?)?;
    }
    Ok(done)
}
