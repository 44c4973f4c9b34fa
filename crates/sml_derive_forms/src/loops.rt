//! What `while` stands for.

ghost use Rattle.std.specs.Prelude.{◌≡◌, IfOk};
ghost use Rattle.sml_derive_forms.specs.Expressions as spec;

use crate::choices::choice;
use crate::phrases::{atom, lambda, new_exp, new_pat, unit};
use crate::rows::{one, two};
use sml_ast::{BareAtExp, BareAtPat, BareDec, BareExp, BarePat};
use std::alloc::Global;
use tl_text::{Boxed, List, NoMemory, Place};

/// `v ()`
fn call(alloc: Global, place: Place) -> Result<BareExp, NoMemory>
    ensures { IfOk result (λ e. e ≡ spec.call place) }
{
    let name = new_exp(alloc, place)?;
    let atoms = two(alloc, name, unit(alloc, place))?;
    Ok(BareExp::Apply(place, atoms))
}

/// `(action; v ())`
fn again(alloc: Global, place: Place, action: BareExp) -> Result<BareExp, NoMemory>
    ensures { IfOk result (λ e. e ≡ spec.again place action) }
{
    let action = Boxed::new(alloc, action)?;
    let call = call(alloc, place)?;
    let others = one(alloc, call)?;
    atom(alloc, place, BareAtExp::Seq(place, action, others))
}

/// `if test then (action; v ()) else ()`
fn round(alloc: Global, place: Place, test: BareExp, action: BareExp) -> Result<BareExp, NoMemory>
    ensures { IfOk result (λ e. e ≡ spec.round place test action) }
{
    let again = again(alloc, place, action)?;
    let done = atom(alloc, place, unit(alloc, place))?;
    choice(alloc, place, test, again, done)
}

/// `fn () => exp`
fn suspended(alloc: Global, place: Place, exp: BareExp) -> Result<BareExp, NoMemory>
    ensures { IfOk result (λ e. e ≡ spec.suspended place exp) }
{
    let pat = BarePat::PAtom(place, BareAtPat::PFields(place, List::new(alloc)));
    lambda(alloc, place, pat, exp)
}

/// `val rec v = exp`
fn recursive(alloc: Global, place: Place, exp: BareExp) -> Result<BareDec, NoMemory>
    ensures { IfOk result (λ d. d ≡ spec.recursive place exp) }
{
    let pat = new_pat(alloc, place)?;
    let bind = one(alloc, (pat, exp))?;
    Ok(BareDec::Vals(place, List::new(alloc), true, bind))
}

/// `let dec in v () end`
fn started(alloc: Global, place: Place, dec: BareDec) -> Result<BareExp, NoMemory>
    ensures { IfOk result (λ e. e ≡ spec.started place dec) }
{
    let decs = one(alloc, dec)?;
    let call = call(alloc, place)?;
    let call = Boxed::new(alloc, call)?;
    atom(alloc, place, BareAtExp::Let(place, decs, call))
}

/// `while test do action`: `let val rec v = fn () => if test then (action; v ()) else () in v () end`.
pub fn repeat(
    alloc: Global,
    place: Place,
    test: BareExp,
    action: BareExp,
) -> Result<BareExp, NoMemory>
    ensures { IfOk result (λ e. e ≡ spec.repeat place test action) }
{
    let exp = round(alloc, place, test, action)?;
    let exp = suspended(alloc, place, exp)?;
    let dec = recursive(alloc, place, exp)?;
    started(alloc, place, dec)
}
