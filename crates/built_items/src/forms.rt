//! Which declarations are of a form that is built, and what each of them is.

ghost use Rattle.std.specs.Prelude.{◌≡◌, [], IfOk, if◌then◌else◌};
ghost use Rattle.sml_ast.specs.declared.bare_pat.BareAtPat.{out-BareAtPat};
ghost use Rattle.sml_ast.specs.declared.bare_pat.BarePat.{out-BarePat};
ghost use Rattle.sml_ast.specs.declared.bare_exp.BareAtExp.{out-BareAtExp};
ghost use Rattle.sml_ast.specs.declared.bare_exp.BareExp.{out-BareExp};
ghost use Rattle.sml_ast.specs.declared.bare_exp.BareDec.{out-BareDec};
ghost use Rattle.sml_ast.specs.declared.bare_program.BareStrDec.{out-BareStrDec};
ghost use Rattle.built_items.specs.Built as spec;
ghost use Rattle.built_items.specs.Readings.{items_of_binding, items_read};

use crate::item::{SourceItem, Target, Value};
use crate::literals::{bytes_fit, copy_lit, is_literal};
use crate::names::{all_known, is_free, is_print};
use sml_ast::{BareAtExp, BareAtPat, BareDec, BareExp, BarePat, BareStrDec, BareTop, Ident};
use std::alloc::Global;
use tl_text::{Lit, Name, NoMemory, Place};

/// What a declaration is.
#[derive(Drop)]
pub enum Reading {
    /// `val pat = exp`
    Item(SourceItem),
    /// A directive.
    Directive,
    /// None of the forms that are built.
    Unbuilt,
}

/// An atomic pattern that is `_` or a variable.
fn target_in(alloc: Global, pat: &BareAtPat) -> Result<Option<Target>, NoMemory>
    ensures { IfOk result (λ t. t ≡ spec.target_in (out-BareAtPat pat.now)) }
{
    match pat {
        BareAtPat::Any(_) => Ok(Some(Target::Wild)),
        BareAtPat::PId(_, _, long) => match long.1.parts() {
            [name] => {
                if is_free(name.bytes()) {
                    Ok(Some(Target::Var(Name::new(alloc, name.bytes())?)))
                } else {
                    Ok(None)
                }
            },
            _ => Ok(None),
        },
        _ => Ok(None),
    }
}

/// A pattern that is `_` or a variable.
fn target_of(alloc: Global, pat: &BarePat) -> Result<Option<Target>, NoMemory>
    ensures { IfOk result (λ t. t ≡ spec.target_of (out-BarePat pat.now)) }
{
    match pat {
        BarePat::PAtom(_, pat) => target_in(alloc, pat),
        _ => Ok(None),
    }
}

/// An atomic expression that is a literal.
fn literal_in(alloc: Global, exp: &BareAtExp) -> Result<Option<Value>, NoMemory>
    ensures { IfOk result (λ v. v ≡ spec.literal_in (out-BareAtExp exp.now)) }
{
    match exp {
        BareAtExp::Lit(_, lit) => {
            if is_literal(lit) {
                Ok(Some(Value::Literal(copy_lit(alloc, lit)?)))
            } else {
                Ok(None)
            }
        },
        _ => Ok(None),
    }
}

/// Whether an atomic expression is `print`.
fn is_print_at(exp: &BareAtExp) -> bool
    ensures { result ≡ spec.is_print (out-BareAtExp exp.now) }
{
    match exp {
        BareAtExp::Id(_, _, long) => match long.1.parts() {
            [name] => is_print(name.bytes()),
            _ => false,
        },
        _ => false,
    }
}

/// An atomic expression that is a string, as what is printed.
fn printed_in(alloc: Global, exp: &BareAtExp) -> Result<Option<Value>, NoMemory>
    ensures { IfOk result (λ v. v ≡ spec.printed_in (out-BareAtExp exp.now)) }
{
    match exp {
        BareAtExp::Lit(_, Lit::Text(text)) => {
            bytes_fit(text.bytes());
            Ok(Some(Value::Printed(Name::new(alloc, text.bytes())?)))
        },
        _ => Ok(None),
    }
}

/// An expression that is a literal, or `print` applied to a string.
fn value_of(alloc: Global, exp: &BareExp) -> Result<Option<Value>, NoMemory>
    ensures { IfOk result (λ v. v ≡ spec.value_of (out-BareExp exp.now)) }
{
    match exp {
        BareExp::Apply(_, parts) => match parts.items() {
            [exp] => literal_in(alloc, exp),
            [function, argument] => {
                if is_print_at(function) {
                    printed_in(alloc, argument)
                } else {
                    Ok(None)
                }
            },
            _ => Ok(None),
        },
        _ => Ok(None),
    }
}

/// The item of `val pat = exp`.
fn read_binding(alloc: Global, pat: &BarePat, exp: &BareExp) -> Result<Reading, NoMemory>
    ensures { IfOk result (λ r. items_read r ≡ items_of_binding pat.now exp.now) }
{
    let Some(target) = target_of(alloc, pat)? else {
        return Ok(Reading::Unbuilt);
    };
    let Some(value) = value_of(alloc, exp)? else {
        return Ok(Reading::Unbuilt);
    };
    Ok(Reading::Item(SourceItem { target, value }))
}

/// A directive for these names.
fn read_directive(names: &[Ident]) -> Reading
    ensures { items_read result ≡ (if spec.all_known names.now then Some [] else None) }
{
    if all_known(names) {
        Reading::Directive
    } else {
        Reading::Unbuilt
    }
}

/// A declaration of the core.
fn read_dec(alloc: Global, dec: &BareDec) -> Result<Reading, NoMemory>
    ensures { IfOk result (λ r. items_read r ≡ spec.items_of_dec (out-BareDec dec.now)) }
{
    match dec {
        BareDec::Vals(_, tyvars, is_rec, binds) => {
            match (tyvars.items(), *is_rec, binds.items()) {
                ([], false, [bind]) => read_binding(alloc, &bind.0, &bind.1),
                _ => Ok(Reading::Unbuilt),
            }
        },
        BareDec::Fix(_, _, _, names) | BareDec::Nonfix(_, names) => {
            Ok(read_directive(names.items()))
        },
        _ => Ok(Reading::Unbuilt),
    }
}

/// A declaration at structure level.
fn read_str_dec(alloc: Global, dec: &BareStrDec) -> Result<Reading, NoMemory>
    ensures { IfOk result (λ r. items_read r ≡ spec.items_of_strdec (out-BareStrDec dec.now)) }
{
    match dec {
        BareStrDec::Core(_, dec) => read_dec(alloc, dec),
        _ => Ok(Reading::Unbuilt),
    }
}

/// A top-level declaration.
pub fn read_top(alloc: Global, top: &BareTop) -> Result<Reading, NoMemory>
    ensures { IfOk result (λ r. items_read r ≡ spec.items_of_top top.now) }
{
    match top {
        BareTop::Strs(_, dec) => read_str_dec(alloc, dec),
        _ => Ok(Reading::Unbuilt),
    }
}

/// The place of the first token of a top-level declaration.
pub fn place_of(top: &BareTop) -> Place
    ensures { result ≡ spec.place_of top.now }
{
    match top {
        BareTop::Strs(place, _) | BareTop::Sigs(place, _) | BareTop::Funs(place, _) => *place,
    }
}
