//! Bindings of types, datatypes and exceptions.

ghost use Rattle.std.specs.Prelude.{◌≡◌, IfOk, map};
ghost use Rattle.sml_derive_core.specs.Bindings.{derived_con, derived_dat_bind, derived_dat_desc, derived_ex_bind, derived_ty_bind, described_con};

use crate::copy::{copy_ident, copy_idents, copy_long};
use crate::ty::{derive_opt_ty, derive_ty};
use sml_ast::{
    BareDatBind, BareDatDesc, BareExBind, BareTy, BareTyBind, DatBind, DatDesc, ExBind, Ident, Ty,
    TyBind,
};
use std::alloc::Global;
use tl_text::{List, NoMemory};

/// The binding of a type without derived forms.
fn derive_ty_bind(alloc: Global, bind: &TyBind) -> Result<BareTyBind, NoMemory>
    ensures { IfOk result (λ b. b ≡ derived_ty_bind bind.now) }
{
    let vars = copy_idents(alloc, bind.0.items())?;
    let name = copy_ident(alloc, &bind.1)?;
    let ty = derive_ty(alloc, &bind.2)?;
    Ok((vars, name, ty))
}

/// The bindings of types of a row.
pub fn derive_ty_binds(alloc: Global, binds: &[TyBind]) -> Result<List<BareTyBind>, NoMemory>
    ensures { IfOk result (λ bs. bs ≡ map derived_ty_bind binds.now) }
{
    let mut done = List::new(alloc);
    for one in binds {
        done.push(derive_ty_bind(alloc, one)?)?;
    }
    Ok(done)
}

/// The constructors of a datatype.
fn derive_cons(
    alloc: Global,
    cons: &[(bool, Ident, Option<Ty>)],
) -> Result<List<(bool, Ident, Option<BareTy>)>, NoMemory>
    ensures { IfOk result (λ cs. cs ≡ map derived_con cons.now) }
{
    let mut done = List::new(alloc);
    for one in cons {
        let name = copy_ident(alloc, &one.1)?;
        let ty = derive_opt_ty(alloc, &one.2)?;
        done.push((one.0, name, ty))?;
    }
    Ok(done)
}

/// The binding of a datatype without derived forms.
fn derive_dat_bind(alloc: Global, bind: &DatBind) -> Result<BareDatBind, NoMemory>
    ensures { IfOk result (λ b. b ≡ derived_dat_bind bind.now) }
{
    let DatBind::Data(p, vars, name, cons) = bind;
    let vars = copy_idents(alloc, vars.items())?;
    let name = copy_ident(alloc, name)?;
    let cons = derive_cons(alloc, cons.items())?;
    Ok(BareDatBind::Data(*p, vars, name, cons))
}

/// The bindings of datatypes of a row.
pub fn derive_dat_binds(alloc: Global, binds: &[DatBind]) -> Result<List<BareDatBind>, NoMemory>
    ensures { IfOk result (λ bs. bs ≡ map derived_dat_bind binds.now) }
{
    let mut done = List::new(alloc);
    for one in binds {
        done.push(derive_dat_bind(alloc, one)?)?;
    }
    Ok(done)
}

/// Names of constructors or exceptions, each with the type of its argument where it has one.
pub fn derive_described(
    alloc: Global,
    cons: &[(Ident, Option<Ty>)],
) -> Result<List<(Ident, Option<BareTy>)>, NoMemory>
    ensures { IfOk result (λ cs. cs ≡ map described_con cons.now) }
{
    let mut done = List::new(alloc);
    for one in cons {
        let name = copy_ident(alloc, &one.0)?;
        let ty = derive_opt_ty(alloc, &one.1)?;
        done.push((name, ty))?;
    }
    Ok(done)
}

/// The description of a datatype without derived forms.
fn derive_dat_desc(alloc: Global, desc: &DatDesc) -> Result<BareDatDesc, NoMemory>
    ensures { IfOk result (λ d. d ≡ derived_dat_desc desc.now) }
{
    let DatDesc::Desc(p, vars, name, cons) = desc;
    let vars = copy_idents(alloc, vars.items())?;
    let name = copy_ident(alloc, name)?;
    let cons = derive_described(alloc, cons.items())?;
    Ok(BareDatDesc::Desc(*p, vars, name, cons))
}

/// The descriptions of datatypes of a row.
pub fn derive_dat_descs(alloc: Global, descs: &[DatDesc]) -> Result<List<BareDatDesc>, NoMemory>
    ensures { IfOk result (λ ds. ds ≡ map derived_dat_desc descs.now) }
{
    let mut done = List::new(alloc);
    for one in descs {
        done.push(derive_dat_desc(alloc, one)?)?;
    }
    Ok(done)
}

/// The binding of an exception without derived forms.
fn derive_ex_bind(alloc: Global, bind: &ExBind) -> Result<BareExBind, NoMemory>
    ensures { IfOk result (λ b. b ≡ derived_ex_bind bind.now) }
{
    match bind {
        ExBind::NewExn(p, op, name, ty) => {
            let name = copy_ident(alloc, name)?;
            Ok(BareExBind::NewExn(*p, *op, name, derive_opt_ty(alloc, ty)?))
        },
        ExBind::SameExn(p, op, name, old_op, old) => {
            let name = copy_ident(alloc, name)?;
            Ok(BareExBind::SameExn(*p, *op, name, *old_op, copy_long(alloc, old)?))
        },
    }
}

/// The bindings of exceptions of a row.
pub fn derive_ex_binds(alloc: Global, binds: &[ExBind]) -> Result<List<BareExBind>, NoMemory>
    ensures { IfOk result (λ bs. bs ≡ map derived_ex_bind binds.now) }
{
    let mut done = List::new(alloc);
    for one in binds {
        done.push(derive_ex_bind(alloc, one)?)?;
    }
    Ok(done)
}
