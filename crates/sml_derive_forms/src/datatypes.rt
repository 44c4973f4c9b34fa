//! Datatypes with a `withtype`.

ghost use Rattle.std.specs.Prelude.{◌≡◌, ◌∷◌, IfOk};
ghost use Rattle.sml_derive_forms.specs.Datatypes as spec;
ghost use Rattle.sml_derive_forms.specs.Datatypes.{datas, hidden_datas};

use crate::rows::two;
use sml_ast::{BareDatBind, BareDec, DatBind, TyBind};
use sml_derive_core::{derive_dat_binds, derive_ty_binds, expand_dat_binds};
use std::alloc::Global;
use tl_text::{List, NoMemory, Place};

/// The datatypes, in whose constructors the types of a `withtype` are put in place.
#[tactic(auto, unfolding(crate::specs::Datatypes::in_place))]
fn in_place(alloc: Global, binds: &[DatBind], tys: &[TyBind]) -> Result<List<BareDatBind>, NoMemory>
    ensures { IfOk result (λ bs. bs ≡ spec.in_place binds.now tys.now) }
{
    let tys = derive_ty_binds(alloc, tys)?;
    expand_dat_binds(alloc, binds, tys.items())
}

/// The types of a `withtype` as a declaration.
#[tactic(auto, unfolding(crate::specs::Datatypes::types))]
fn types(alloc: Global, place: Place, tys: &[TyBind]) -> Result<BareDec, NoMemory>
    ensures { IfOk result (λ d. d ≡ spec.types place tys.now) }
{
    let tys = derive_ty_binds(alloc, tys)?;
    Ok(BareDec::Types(place, tys))
}

/// Datatypes with the types of a `withtype`: these are put in place, and then declared.
pub fn derive_datas(
    alloc: Global,
    place: Place,
    binds: &[DatBind],
    tys: &[TyBind],
) -> Result<BareDec, NoMemory>
    ensures { IfOk result (λ d. d ≡ datas place binds.now tys.now) }
{
    match tys {
        [] => Ok(BareDec::Datas(place, derive_dat_binds(alloc, binds)?)),
        [_, ..] => {
            let datas = in_place(alloc, binds, tys)?;
            let types = types(alloc, place, tys)?;
            let decs = two(alloc, BareDec::Datas(place, datas), types)?;
            Ok(BareDec::Local(place, List::new(alloc), decs))
        },
    }
}

/// The declarations of an `abstype` after its types.
fn with_types(alloc: Global, types: BareDec, decs: List<BareDec>) -> Result<List<BareDec>, NoMemory>
    ensures { IfOk result (λ ds. ds ≡ types ∷ decs) }
{
    let mut done = List::new(alloc);
    done.push(types)?;
    for one in decs.into_vec() {
        done.push(one)?;
    }
    Ok(done)
}

/// The same of an `abstype`, whose declarations begin with the types.
pub fn derive_hidden(
    alloc: Global,
    place: Place,
    binds: &[DatBind],
    tys: &[TyBind],
    decs: List<BareDec>,
) -> Result<BareDec, NoMemory>
    ensures { IfOk result (λ d. d ≡ hidden_datas place binds.now tys.now decs) }
{
    match tys {
        [] => Ok(BareDec::Abs(place, derive_dat_binds(alloc, binds)?, decs)),
        [_, ..] => {
            let datas = in_place(alloc, binds, tys)?;
            let types = types(alloc, place, tys)?;
            let decs = with_types(alloc, types, decs)?;
            Ok(BareDec::Abs(place, datas, decs))
        },
    }
}
