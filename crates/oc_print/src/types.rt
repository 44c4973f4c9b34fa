ghost use Rattle.std.specs.Prelude.{◌≡◌, OnOk, map};
ghost use Rattle.oc_ast.specs.View.{plain_part, plain_type, plain_arg, plain_cons, plain_manifest, plain_def, row_of_types, row_of_parts};
ghost use Rattle.oc_layout.specs.Layout as layout;

use crate::names::{params, path};
use crate::pen::Pen;
use oc_ast::{ATy, OTy, TDef};
use tl_text::{Name, NoMemory};

/// A type that may stand as an argument.
#[cycle(types)]
pub fn part(pen: &mut Pen, ty: &ATy) -> Result<(), NoMemory>
    ensures { OnOk result (pen.new ≡ layout.part (plain_part ty.now) pen.old) }
{
    match ty {
        ATy::TVar(name) => pen.tyvar(name.bytes()),
        ATy::TCon(given, name) => {
            args(pen, given.items())?;
            path(pen, name)
        }
        ATy::TParen(inner) => {
            pen.mark(b"(")?;
            type_of(pen, inner.get())?;
            pen.mark(b")")
        }
    }
}

/// The arguments before a type's name: none, one, or several in parentheses.
#[cycle(types)]
fn args(pen: &mut Pen, types: &[OTy]) -> Result<(), NoMemory>
    ensures { OnOk result (pen.new ≡ layout.args (row_of_types (map plain_type types.now)) pen.old) }
{
    match types.split_first() {
        None => Ok(()),
        Some((first, rest)) => {
            if rest.is_empty() {
                return type_of(pen, first);
            }
            pen.mark(b"(")?;
            type_of(pen, first)?;
            for ty in rest {
                pen.mark(b",")?;
                type_of(pen, ty)?;
            }
            pen.mark(b")")
        }
    }
}

/// A type.
#[cycle(types)]
pub fn type_of(pen: &mut Pen, ty: &OTy) -> Result<(), NoMemory>
    ensures { OnOk result (pen.new ≡ layout.type_of (plain_type ty.now) pen.old) }
{
    match ty {
        OTy::TAt(inner) => part(pen, inner),
        OTy::TArrow(from, to) => {
            part(pen, from.get())?;
            pen.mark(b"->")?;
            type_of(pen, to.get())
        }
        OTy::TTuple(first, rest) => {
            part(pen, first.get())?;
            factors(pen, rest.items())
        }
    }
}

/// The further parts of a tuple's type.
#[cycle(types)]
fn factors(pen: &mut Pen, types: &[ATy]) -> Result<(), NoMemory>
    ensures { OnOk result (pen.new ≡ layout.factors (row_of_parts (map plain_part types.now)) pen.old) }
{
    for ty in types {
        pen.mark(b"*")?;
        part(pen, ty)?;
    }
    Ok(())
}

/// A constructor or exception, and its argument's type where it has one.
pub fn constructor(pen: &mut Pen, name: &Name, arg: &Option<ATy>) -> Result<(), NoMemory>
    ensures { OnOk result (pen.new ≡ layout.cons name.now (plain_arg arg.now) pen.old) }
{
    pen.name(name.bytes())?;
    match arg {
        None => Ok(()),
        Some(ty) => {
            pen.name(b"of")?;
            part(pen, ty)
        }
    }
}

/// The constructors of a variant, with bars between.
fn variants(pen: &mut Pen, rows: &[(Name, Option<ATy>)]) -> Result<(), NoMemory>
    ensures { OnOk result (pen.new ≡ layout.variants (plain_cons rows.now) pen.old) }
{
    match rows.split_first() {
        None => Ok(()),
        Some((first, rest)) => {
            constructor(pen, &first.0, &first.1)?;
            more_variants(pen, rest)
        }
    }
}

/// Further constructors, each behind a bar.
fn more_variants(pen: &mut Pen, rows: &[(Name, Option<ATy>)]) -> Result<(), NoMemory>
    ensures { OnOk result (pen.new ≡ layout.more_cons (plain_cons rows.now) pen.old) }
{
    for row in rows {
        pen.mark(b"|")?;
        constructor(pen, &row.0, &row.1)?;
    }
    Ok(())
}

/// The type that a variant copies, where there is one.
fn manifest(pen: &mut Pen, ty: &Option<OTy>) -> Result<(), NoMemory>
    ensures { OnOk result (pen.new ≡ layout.manifest (plain_manifest ty.now) pen.old) }
{
    match ty {
        None => Ok(()),
        Some(ty) => {
            pen.mark(b"=")?;
            type_of(pen, ty)
        }
    }
}

/// The definition of one type.
fn definition(pen: &mut Pen, def: &TDef) -> Result<(), NoMemory>
    ensures { OnOk result (pen.new ≡ layout.definition (plain_def def.now) pen.old) }
{
    match def {
        TDef::Alias(vars, name, ty) => {
            params(pen, vars.items())?;
            pen.name(name.bytes())?;
            pen.mark(b"=")?;
            type_of(pen, ty)
        }
        TDef::Variant(vars, name, copied, rows) => {
            params(pen, vars.items())?;
            pen.name(name.bytes())?;
            manifest(pen, copied)?;
            pen.mark(b"=")?;
            variants(pen, rows.items())
        }
    }
}

/// `type` and the definitions of types, with `and` between.
pub fn definitions(pen: &mut Pen, defs: &[TDef]) -> Result<(), NoMemory>
    ensures { OnOk result (pen.new ≡ layout.definitions (map plain_def defs.now) pen.old) }
{
    pen.name(b"type")?;
    match defs.split_first() {
        None => Ok(()),
        Some((first, rest)) => {
            definition(pen, first)?;
            more_definitions(pen, rest)
        }
    }
}

/// Further definitions, each behind `and`.
fn more_definitions(pen: &mut Pen, defs: &[TDef]) -> Result<(), NoMemory>
    ensures { OnOk result (pen.new ≡ layout.more_definitions (map plain_def defs.now) pen.old) }
{
    for def in defs {
        pen.name(b"and")?;
        definition(pen, def)?;
    }
    Ok(())
}
