//! Phrases that are no derived forms, made of parts that have none any more.

ghost use Rattle.std.specs.Prelude.{◌≡◌, IfOk};
ghost use Rattle.sml_ast.specs.declared.bare_exp.BareAtExp.TheVariants as at_exp;
ghost use Rattle.sml_ast.specs.declared.bare_exp.BareExp.TheVariants as exp;
ghost use Rattle.sml_derive_core.specs.Types.{derived_ty};
ghost use Rattle.sml_derive_forms.specs.Expressions.{body};

use sml_ast::{BareAtExp, BareDec, BareExp, BareRule, Ident, Ty};
use sml_derive_core::{copy_ident, derive_ty};
use sml_derive_forms::sequence;
use std::alloc::Global;
use tl_text::{Boxed, List, NoMemory, Place};

/// `left name right`
pub(crate) fn infix(
    alloc: Global,
    place: Place,
    left: BareExp,
    name: &Ident,
    right: BareExp,
) -> Result<BareExp, NoMemory>
    ensures { IfOk result (λ e. e ≡ exp.Infix place left name.now right) }
{
    let left = Boxed::new(alloc, left)?;
    let right = Boxed::new(alloc, right)?;
    Ok(BareExp::Infix(place, left, copy_ident(alloc, name)?, right))
}

/// `inner : ty`
pub(crate) fn typed(
    alloc: Global,
    place: Place,
    inner: BareExp,
    ty: &Ty,
) -> Result<BareExp, NoMemory>
    ensures { IfOk result (λ e. e ≡ exp.Typed place inner (derived_ty ty.now)) }
{
    let inner = Boxed::new(alloc, inner)?;
    Ok(BareExp::Typed(place, inner, derive_ty(alloc, ty)?))
}

/// `inner handle rules`
pub(crate) fn handle(
    alloc: Global,
    place: Place,
    inner: BareExp,
    rules: List<BareRule>,
) -> Result<BareExp, NoMemory>
    ensures { IfOk result (λ e. e ≡ exp.Handle place inner rules) }
{
    Ok(BareExp::Handle(place, Boxed::new(alloc, inner)?, rules))
}

/// `raise inner`
pub(crate) fn raise(alloc: Global, place: Place, inner: BareExp) -> Result<BareExp, NoMemory>
    ensures { IfOk result (λ e. e ≡ exp.Raise place inner) }
{
    Ok(BareExp::Raise(place, Boxed::new(alloc, inner)?))
}

/// `(first; others)`
pub(crate) fn seq(
    alloc: Global,
    place: Place,
    first: BareExp,
    others: List<BareExp>,
) -> Result<BareAtExp, NoMemory>
    ensures { IfOk result (λ a. a ≡ at_exp.Seq place first others) }
{
    Ok(BareAtExp::Seq(place, Boxed::new(alloc, first)?, others))
}

/// `let decs in exps end`
pub(crate) fn let_in(
    alloc: Global,
    place: Place,
    decs: List<BareDec>,
    exps: List<BareExp>,
) -> Result<BareAtExp, NoMemory>
    ensures { IfOk result (λ a. a ≡ at_exp.Let place decs (body place exps)) }
{
    let exp = sequence(alloc, place, exps)?;
    Ok(BareAtExp::Let(place, decs, Boxed::new(alloc, exp)?))
}
