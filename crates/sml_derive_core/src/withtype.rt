//! The types of a `withtype`, put in place in the constructors of its datatypes.

ghost use Rattle.std.specs.Prelude.{◌≡◌, IfOk, map, option_map};
ghost use Rattle.tl_text.specs.Pairs.{map_second};
ghost use Rattle.sml_derive_core.specs.Withtype.{applied, bound, definition, expanded, expanded_con, expanded_dat_bind, expanded_opt, untypable};

use crate::copy::{copy_ident, copy_idents, copy_label, copy_long, copy_name};
use crate::fill::fill;
use crate::room::{MOST_LEVELS, MOST_NODES, descend};
use crate::ty::derive_ty;
use sml_ast::{BareDatBind, BareTy, BareTyBind, DatBind, Ident, Label, LongIdent, Ty};
use std::alloc::Global;
use tl_text::{Boxed, List, Name, NoMemory, Path, Place};

/// The binding of a type's name.
fn bound_to<'a>(binds: &'a [BareTyBind], name: &Name) -> Option<&'a BareTyBind>
    ensures { option_map (λ b. b.now) result ≡ bound name.now binds.now }
{
    for one in binds {
        if one.1.1 == *name {
            return Some(one);
        }
    }
    None
}

/// The binding of a type's name, which has no more than one part.
fn definition_of<'a>(binds: &'a [BareTyBind], path: &Path) -> Option<&'a BareTyBind>
    ensures { option_map (λ b. b.now) result ≡ definition path.now binds.now }
{
    match path.parts() {
        [name] => bound_to(binds, name),
        _ => None,
    }
}

/// A type that has no typing: the datatype itself with a wrong number of arguments.
fn untypable_ty(
    alloc: Global,
    place: Place,
    params: &[Ident],
    name: &Name,
) -> Result<BareTy, NoMemory>
    ensures { IfOk result (λ t. t ≡ untypable place params.now name.now) }
{
    let mut path = Path::new(alloc);
    path.push(copy_name(alloc, name)?)?;
    let mut args = List::new(alloc);
    if params.is_empty() {
        args.push(BareTy::TFields(place, List::new(alloc)))?;
    }
    Ok(BareTy::TCon(place, args, (place, path)))
}

/// An application of a type's name in the datatype `name` with the parameters `params`.
fn apply(
    alloc: Global,
    binds: &[BareTyBind],
    params: &[Ident],
    name: &Name,
    place: Place,
    args: List<BareTy>,
    con: &LongIdent,
    levels: u32,
    nodes: &mut u32,
) -> Result<BareTy, NoMemory>
    ensures { IfOk result (λ t. t ≡ applied params.now name.now place args con.now (definition con.now.1 binds.now)) }
{
    match definition_of(binds, &con.1) {
        None => Ok(BareTy::TCon(place, args, copy_long(alloc, con)?)),
        Some(bind) => {
            if bind.0.items().len() == args.items().len() {
                fill(alloc, bind.0.items(), args.items(), &bind.2, levels, nodes)
            } else {
                untypable_ty(alloc, place, params, name)
            }
        },
    }
}

/// The type with the bindings put in place.
#[cycle(expand)]
fn expand(
    alloc: Global,
    binds: &[BareTyBind],
    params: &[Ident],
    name: &Name,
    ty: &BareTy,
    levels: u32,
    nodes: &mut u32,
) -> Result<BareTy, NoMemory>
    ensures { IfOk result (λ t. t ≡ expanded binds.now params.now name.now ty.now) }
{
    let below = descend(levels, nodes)?;
    match ty {
        BareTy::Tyvar(p, v) => Ok(BareTy::Tyvar(*p, copy_ident(alloc, v)?)),
        BareTy::TFields(p, fields) => {
            let fields = expand_fields(alloc, binds, params, name, fields.items(), below, nodes)?;
            Ok(BareTy::TFields(*p, fields))
        },
        BareTy::TCon(p, args, con) => {
            let args = expand_tys(alloc, binds, params, name, args.items(), below, nodes)?;
            apply(alloc, binds, params, name, *p, args, con, levels, nodes)
        },
        BareTy::Arrow(p, from, to) => {
            let from = expand(alloc, binds, params, name, from.get(), below, nodes)?;
            let from = Boxed::new(alloc, from)?;
            let to = expand(alloc, binds, params, name, to.get(), below, nodes)?;
            Ok(BareTy::Arrow(*p, from, Boxed::new(alloc, to)?))
        },
        BareTy::TParen(p, inner) => {
            let inner = expand(alloc, binds, params, name, inner.get(), below, nodes)?;
            Ok(BareTy::TParen(*p, Boxed::new(alloc, inner)?))
        },
    }
}

/// The types of a row with the bindings put in place.
#[cycle(expand)]
fn expand_tys(
    alloc: Global,
    binds: &[BareTyBind],
    params: &[Ident],
    name: &Name,
    tys: &[BareTy],
    levels: u32,
    nodes: &mut u32,
) -> Result<List<BareTy>, NoMemory>
    ensures { IfOk result (λ ts. ts ≡ map (expanded binds.now params.now name.now) tys.now) }
{
    let mut done = List::new(alloc);
    for one in tys {
        done.push(expand(alloc, binds, params, name, one, levels, nodes)?)?;
    }
    Ok(done)
}

/// The types of a record's fields with the bindings put in place.
#[cycle(expand)]
fn expand_fields(
    alloc: Global,
    binds: &[BareTyBind],
    params: &[Ident],
    name: &Name,
    fields: &[(Label, BareTy)],
    levels: u32,
    nodes: &mut u32,
) -> Result<List<(Label, BareTy)>, NoMemory>
    ensures { IfOk result (λ fs. fs ≡ map_second (expanded binds.now params.now name.now) fields.now) }
{
    let mut done = List::new(alloc);
    for one in fields {
        let label = copy_label(alloc, &one.0)?;
        let ty = expand(alloc, binds, params, name, &one.1, levels, nodes)?;
        done.push((label, ty))?;
    }
    Ok(done)
}

/// The argument of a constructor, which may be missing, with the bindings put in place.
fn expand_opt(
    alloc: Global,
    binds: &[BareTyBind],
    params: &[Ident],
    name: &Name,
    ty: &Option<Ty>,
    nodes: &mut u32,
) -> Result<Option<BareTy>, NoMemory>
    ensures { IfOk result (λ t. t ≡ expanded_opt binds.now params.now name.now ty.now) }
{
    match ty {
        None => Ok(None),
        Some(ty) => {
            let ty = derive_ty(alloc, ty)?;
            Ok(Some(expand(alloc, binds, params, name, &ty, MOST_LEVELS, nodes)?))
        },
    }
}

/// The constructors of a datatype with the bindings put in place.
fn expand_cons(
    alloc: Global,
    binds: &[BareTyBind],
    params: &[Ident],
    name: &Name,
    cons: &[(bool, Ident, Option<Ty>)],
    nodes: &mut u32,
) -> Result<List<(bool, Ident, Option<BareTy>)>, NoMemory>
    ensures { IfOk result (λ cs. cs ≡ map (expanded_con binds.now params.now name.now) cons.now) }
{
    let mut done = List::new(alloc);
    for one in cons {
        let con = copy_ident(alloc, &one.1)?;
        let ty = expand_opt(alloc, binds, params, name, &one.2, nodes)?;
        done.push((one.0, con, ty))?;
    }
    Ok(done)
}

/// The datatype with the bindings put in place.
fn expand_dat_bind(
    alloc: Global,
    binds: &[BareTyBind],
    bind: &DatBind,
    nodes: &mut u32,
) -> Result<BareDatBind, NoMemory>
    ensures { IfOk result (λ b. b ≡ expanded_dat_bind binds.now bind.now) }
{
    let DatBind::Data(p, vars, name, cons) = bind;
    let cons = expand_cons(alloc, binds, vars.items(), &name.1, cons.items(), nodes)?;
    let vars = copy_idents(alloc, vars.items())?;
    Ok(BareDatBind::Data(*p, vars, copy_ident(alloc, name)?, cons))
}

/// The datatypes of a declaration, in whose constructors the types of its `withtype` are put in place.
pub fn expand_dat_binds(
    alloc: Global,
    datas: &[DatBind],
    binds: &[BareTyBind],
) -> Result<List<BareDatBind>, NoMemory>
    ensures { IfOk result (λ ds. ds ≡ map (expanded_dat_bind binds.now) datas.now) }
{
    let mut nodes = MOST_NODES;
    let mut done = List::new(alloc);
    for one in datas {
        done.push(expand_dat_bind(alloc, binds, one, &mut nodes)?)?;
    }
    Ok(done)
}
