//! Types in which arguments go in the place of parameters.

ghost use Rattle.std.specs.Prelude.{◌≡◌, IfOk, map, option_map};
ghost use Rattle.tl_text.specs.Pairs.{map_second};
ghost use Rattle.sml_derive_core.specs.Withtype.{argument, filled};

use crate::copy::{copy_ident, copy_label, copy_long};
use crate::room::descend;
use sml_ast::{BareTy, Ident, Label};
use std::alloc::Global;
use tl_text::{Boxed, List, Name, NoMemory};

/// The same type, as far as there is room.
#[cycle(copy_ty)]
fn copy_ty(alloc: Global, ty: &BareTy, levels: u32, nodes: &mut u32) -> Result<BareTy, NoMemory>
    ensures { IfOk result (λ t. t ≡ ty.now) }
{
    let levels = descend(levels, nodes)?;
    match ty {
        BareTy::Tyvar(p, v) => Ok(BareTy::Tyvar(*p, copy_ident(alloc, v)?)),
        BareTy::TFields(p, fields) => {
            let fields = copy_ty_fields(alloc, fields.items(), levels, nodes)?;
            Ok(BareTy::TFields(*p, fields))
        },
        BareTy::TCon(p, args, con) => {
            let args = copy_tys(alloc, args.items(), levels, nodes)?;
            Ok(BareTy::TCon(*p, args, copy_long(alloc, con)?))
        },
        BareTy::Arrow(p, from, to) => {
            let from = Boxed::new(alloc, copy_ty(alloc, from.get(), levels, nodes)?)?;
            let to = Boxed::new(alloc, copy_ty(alloc, to.get(), levels, nodes)?)?;
            Ok(BareTy::Arrow(*p, from, to))
        },
        BareTy::TParen(p, inner) => {
            let inner = copy_ty(alloc, inner.get(), levels, nodes)?;
            Ok(BareTy::TParen(*p, Boxed::new(alloc, inner)?))
        },
    }
}

/// The same types.
#[cycle(copy_ty)]
fn copy_tys(
    alloc: Global,
    tys: &[BareTy],
    levels: u32,
    nodes: &mut u32,
) -> Result<List<BareTy>, NoMemory>
    ensures { IfOk result (λ ts. ts ≡ tys.now) }
{
    let mut done = List::new(alloc);
    for one in tys {
        done.push(copy_ty(alloc, one, levels, nodes)?)?;
    }
    Ok(done)
}

/// The same fields.
#[cycle(copy_ty)]
fn copy_ty_fields(
    alloc: Global,
    fields: &[(Label, BareTy)],
    levels: u32,
    nodes: &mut u32,
) -> Result<List<(Label, BareTy)>, NoMemory>
    ensures { IfOk result (λ fs. fs ≡ fields.now) }
{
    let mut done = List::new(alloc);
    for one in fields {
        let label = copy_label(alloc, &one.0)?;
        let ty = copy_ty(alloc, &one.1, levels, nodes)?;
        done.push((label, ty))?;
    }
    Ok(done)
}

/// The argument of a parameter.
fn argument_of<'a>(params: &[Ident], args: &'a [BareTy], name: &Name) -> Option<&'a BareTy>
    ensures { option_map (λ t. t.now) result ≡ argument params.now args.now name.now }
{
    for (i, param) in params.iter().enumerate() {
        if i >= args.len() {
            return None;
        }
        if param.1 == *name {
            return Some(&args[i]);
        }
    }
    None
}

/// The type with the arguments in the place of the parameters.
#[cycle(fill)]
pub(crate) fn fill(
    alloc: Global,
    params: &[Ident],
    args: &[BareTy],
    ty: &BareTy,
    levels: u32,
    nodes: &mut u32,
) -> Result<BareTy, NoMemory>
    ensures { IfOk result (λ t. t ≡ filled params.now args.now ty.now) }
{
    match ty {
        BareTy::Tyvar(p, v) => match argument_of(params, args, &v.1) {
            None => Ok(BareTy::Tyvar(*p, copy_ident(alloc, v)?)),
            Some(arg) => copy_ty(alloc, arg, levels, nodes),
        },
        BareTy::TFields(p, fields) => {
            let levels = descend(levels, nodes)?;
            let fields = fill_fields(alloc, params, args, fields.items(), levels, nodes)?;
            Ok(BareTy::TFields(*p, fields))
        },
        BareTy::TCon(p, parts, con) => {
            let levels = descend(levels, nodes)?;
            let parts = fill_tys(alloc, params, args, parts.items(), levels, nodes)?;
            Ok(BareTy::TCon(*p, parts, copy_long(alloc, con)?))
        },
        BareTy::Arrow(p, from, to) => {
            let levels = descend(levels, nodes)?;
            let from = fill(alloc, params, args, from.get(), levels, nodes)?;
            let from = Boxed::new(alloc, from)?;
            let to = fill(alloc, params, args, to.get(), levels, nodes)?;
            Ok(BareTy::Arrow(*p, from, Boxed::new(alloc, to)?))
        },
        BareTy::TParen(p, inner) => {
            let levels = descend(levels, nodes)?;
            let inner = fill(alloc, params, args, inner.get(), levels, nodes)?;
            Ok(BareTy::TParen(*p, Boxed::new(alloc, inner)?))
        },
    }
}

/// The types of a row with the arguments in the place of the parameters.
#[cycle(fill)]
fn fill_tys(
    alloc: Global,
    params: &[Ident],
    args: &[BareTy],
    tys: &[BareTy],
    levels: u32,
    nodes: &mut u32,
) -> Result<List<BareTy>, NoMemory>
    ensures { IfOk result (λ ts. ts ≡ map (filled params.now args.now) tys.now) }
{
    let mut done = List::new(alloc);
    for one in tys {
        done.push(fill(alloc, params, args, one, levels, nodes)?)?;
    }
    Ok(done)
}

/// The types of a record's fields with the arguments in the place of the parameters.
#[cycle(fill)]
fn fill_fields(
    alloc: Global,
    params: &[Ident],
    args: &[BareTy],
    fields: &[(Label, BareTy)],
    levels: u32,
    nodes: &mut u32,
) -> Result<List<(Label, BareTy)>, NoMemory>
    ensures { IfOk result (λ fs. fs ≡ map_second (filled params.now args.now) fields.now) }
{
    let mut done = List::new(alloc);
    for one in fields {
        let label = copy_label(alloc, &one.0)?;
        let ty = fill(alloc, params, args, &one.1, levels, nodes)?;
        done.push((label, ty))?;
    }
    Ok(done)
}
