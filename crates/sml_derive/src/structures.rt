//! Structure expressions, and declarations at structure level.

ghost use Rattle.std.specs.Prelude.{◌≡◌, IfOk, map};
ghost use Rattle.sml_derive.specs.Programs.{derived_str, derived_str_bind, derived_str_dec};

use crate::phrases::{ascribed, call, let_in, seal};
use sml_ast::{BareStrBind, BareStrDec, BareStrExp, StrBind, StrDec, StrExp};
use sml_derive_core::{copy_ident, copy_long};
use sml_derive_exp::derive_dec;
use std::alloc::Global;
use tl_text::{List, NoMemory};

/// The structure expression without derived forms.
#[cycle(derive_str)]
pub(crate) fn derive_str(alloc: Global, exp: &StrExp) -> Result<BareStrExp, NoMemory>
    ensures { IfOk result (λ e. e ≡ derived_str exp.now) }
{
    match exp {
        StrExp::Body(p, decs) => Ok(BareStrExp::Body(*p, derive_str_decs(alloc, decs.items())?)),
        StrExp::At(p, long) => Ok(BareStrExp::At(*p, copy_long(alloc, long)?)),
        StrExp::Seal(p, inner, ascribe) => {
            let inner = derive_str(alloc, inner.get())?;
            seal(alloc, *p, inner, ascribe)
        },
        StrExp::Call(p, functor, inner) => {
            let inner = derive_str(alloc, inner.get())?;
            call(alloc, *p, functor, inner)
        },
        StrExp::CallBody(p, functor, decs) => {
            let decs = derive_str_decs(alloc, decs.items())?;
            call(alloc, *p, functor, BareStrExp::Body(*p, decs))
        },
        StrExp::LetStr(p, decs, inner) => {
            let inner = derive_str(alloc, inner.get())?;
            let decs = derive_str_decs(alloc, decs.items())?;
            let_in(alloc, *p, decs, inner)
        },
    }
}

/// The declaration at structure level without derived forms.
#[cycle(derive_str)]
pub(crate) fn derive_str_dec(alloc: Global, dec: &StrDec) -> Result<BareStrDec, NoMemory>
    ensures { IfOk result (λ d. d ≡ derived_str_dec dec.now) }
{
    match dec {
        StrDec::Core(p, dec) => Ok(BareStrDec::Core(*p, derive_dec(alloc, dec)?)),
        StrDec::Structs(p, binds) => {
            Ok(BareStrDec::Structs(*p, derive_str_binds(alloc, binds.items())?))
        },
        StrDec::LocalStr(p, hidden, decs) => {
            let hidden = derive_str_decs(alloc, hidden.items())?;
            Ok(BareStrDec::LocalStr(*p, hidden, derive_str_decs(alloc, decs.items())?))
        },
    }
}

/// The binding of a structure without derived forms.
#[cycle(derive_str)]
fn derive_str_bind(alloc: Global, bind: &StrBind) -> Result<BareStrBind, NoMemory>
    ensures { IfOk result (λ b. b ≡ derived_str_bind bind.now) }
{
    match bind {
        StrBind::Bind(p, name, ascribe, exp) => {
            let exp = derive_str(alloc, exp)?;
            let exp = ascribed(alloc, *p, ascribe, exp)?;
            Ok(BareStrBind::Bind(*p, copy_ident(alloc, name)?, exp))
        },
    }
}

/// The declarations at structure level of a row.
#[cycle(derive_str)]
fn derive_str_decs(alloc: Global, decs: &[StrDec]) -> Result<List<BareStrDec>, NoMemory>
    ensures { IfOk result (λ ds. ds ≡ map derived_str_dec decs.now) }
{
    let mut done = List::new(alloc);
    for one in decs {
        done.push(derive_str_dec(alloc, one)?)?;
    }
    Ok(done)
}

/// The bindings of structures of a row.
#[cycle(derive_str)]
fn derive_str_binds(alloc: Global, binds: &[StrBind]) -> Result<List<BareStrBind>, NoMemory>
    ensures { IfOk result (λ bs. bs ≡ map derived_str_bind binds.now) }
{
    let mut done = List::new(alloc);
    for one in binds {
        done.push(derive_str_bind(alloc, one)?)?;
    }
    Ok(done)
}
