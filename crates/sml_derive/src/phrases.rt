//! Structure expressions that are made of parts without derived forms.

ghost use Rattle.std.specs.Prelude.{◌≡◌, IfOk};
ghost use Rattle.sml_ast.specs.declared.bare_program.BareStrExp.TheVariants as str_exp;
ghost use Rattle.sml_derive.specs.Programs.{sealed};
ghost use Rattle.sml_derive.specs.Signatures.{derived_ascribe};

use crate::sig::derive_ascribe;
use sml_ast::{Ascribe, BareStrDec, BareStrExp, Ident};
use sml_derive_core::copy_ident;
use std::alloc::Global;
use tl_text::{Boxed, List, NoMemory, Place};

/// `exp ascribe`
pub(crate) fn seal(
    alloc: Global,
    place: Place,
    exp: BareStrExp,
    ascribe: &Ascribe,
) -> Result<BareStrExp, NoMemory>
    ensures { IfOk result (λ e. e ≡ str_exp.Seal place exp (derived_ascribe ascribe.now)) }
{
    let exp = Boxed::new(alloc, exp)?;
    Ok(BareStrExp::Seal(place, exp, derive_ascribe(alloc, ascribe)?))
}

/// The expression with the ascription of its binding, where one is written.
pub(crate) fn ascribed(
    alloc: Global,
    place: Place,
    ascribe: &Option<Ascribe>,
    exp: BareStrExp,
) -> Result<BareStrExp, NoMemory>
    ensures { IfOk result (λ e. e ≡ sealed place ascribe.now exp) }
{
    match ascribe {
        None => Ok(exp),
        Some(ascribe) => seal(alloc, place, exp, ascribe),
    }
}

/// `functor (exp)`
pub(crate) fn call(
    alloc: Global,
    place: Place,
    functor: &Ident,
    exp: BareStrExp,
) -> Result<BareStrExp, NoMemory>
    ensures { IfOk result (λ e. e ≡ str_exp.Call place functor.now exp) }
{
    let exp = Boxed::new(alloc, exp)?;
    Ok(BareStrExp::Call(place, copy_ident(alloc, functor)?, exp))
}

/// `let decs in exp end`
pub(crate) fn let_in(
    alloc: Global,
    place: Place,
    decs: List<BareStrDec>,
    exp: BareStrExp,
) -> Result<BareStrExp, NoMemory>
    ensures { IfOk result (λ e. e ≡ str_exp.LetStr place decs exp) }
{
    Ok(BareStrExp::LetStr(place, decs, Boxed::new(alloc, exp)?))
}
