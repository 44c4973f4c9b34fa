//! Rows: short ones, and those under numbers.

ghost use Rattle.std.specs.Prelude.{◌≡◌, [], ◌∷◌, IfOk};
ghost use Rattle.sml_derive_core.specs.Names.{numbered};
ghost use Rattle.sml_derive_core.specs.Patterns.{numbered_fields};

use sml_ast::{BareExp, BarePField, BarePat, Lab, Label};
use std::alloc::Global;
use tl_text::{List, NoMemory, Place};

/// A row of one.
pub fn one<T: Drop>(alloc: Global, item: T) -> Result<List<T>, NoMemory>
    ensures { IfOk result (λ all. all ≡ item ∷ []) }
{
    let mut all = List::new(alloc);
    all.push(item)?;
    Ok(all)
}

/// A row of two.
pub fn two<T: Drop>(alloc: Global, first: T, then: T) -> Result<List<T>, NoMemory>
    ensures { IfOk result (λ all. all ≡ first ∷ then ∷ []) }
{
    let mut all = List::new(alloc);
    all.push(first)?;
    all.push(then)?;
    Ok(all)
}

/// A row of expressions under the labels from 1 on.
pub fn number_exps(
    alloc: Global,
    place: Place,
    exps: List<BareExp>,
) -> Result<List<(Label, BareExp)>, NoMemory>
    ensures { IfOk result (λ fs. fs ≡ numbered place 1 exps) }
{
    let mut done = List::new(alloc);
    let mut number = 1u32;
    for one in exps.into_vec() {
        done.push(((place, Lab::Num(number)), one))?;
        number = number.checked_add(1).ok_or(NoMemory)?;
    }
    Ok(done)
}

/// A row of patterns under the labels from 1 on.
pub(crate) fn number_pats(
    alloc: Global,
    place: Place,
    pats: List<BarePat>,
) -> Result<List<BarePField>, NoMemory>
    ensures { IfOk result (λ fs. fs ≡ numbered_fields place 1 pats) }
{
    let mut done = List::new(alloc);
    let mut number = 1u32;
    for one in pats.into_vec() {
        done.push(BarePField::Named(place, (place, Lab::Num(number)), one))?;
        number = number.checked_add(1).ok_or(NoMemory)?;
    }
    Ok(done)
}
