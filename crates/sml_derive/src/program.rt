//! Whole sources.

ghost use Rattle.std.specs.Prelude.{◌≡◌, IfOk, map};
ghost use Rattle.sml_derive.specs.Programs as spec;
ghost use Rattle.sml_derive.specs.Programs.{Derived, derived_sig_bind, derived_top};

use crate::functors::derive_fun_binds;
use crate::sig::derive_sig;
use crate::structures::derive_str_dec;
use sml_ast::{
    BareDec, BarePat, BareProgram, BareSigBind, BareStrDec, BareTop, Exp, Program, SigBind, Top,
};
use sml_derive_core::{copy_ident, variable};
use sml_derive_exp::derive_exp;
use sml_derive_forms::one;
use std::alloc::Global;
use tl_text::{List, Name, NoMemory, Place};

/// The binding of a signature without derived forms.
fn derive_sig_bind(alloc: Global, bind: &SigBind) -> Result<BareSigBind, NoMemory>
    ensures { IfOk result (λ b. b ≡ derived_sig_bind bind.now) }
{
    match bind {
        SigBind::SigAs(p, name, sig) => {
            let sig = derive_sig(alloc, sig)?;
            Ok(BareSigBind::SigAs(*p, copy_ident(alloc, name)?, sig))
        },
    }
}

/// The bindings of signatures of a row.
fn derive_sig_binds(alloc: Global, binds: &[SigBind]) -> Result<List<BareSigBind>, NoMemory>
    ensures { IfOk result (λ bs. bs ≡ map derived_sig_bind binds.now) }
{
    let mut done = List::new(alloc);
    for one in binds {
        done.push(derive_sig_bind(alloc, one)?)?;
    }
    Ok(done)
}

/// The pattern `it`.
fn it_pat(alloc: Global, place: Place) -> Result<BarePat, NoMemory>
    ensures { IfOk result (λ q. q ≡ spec.it_pat place) }
{
    let name = Name::new(alloc, b"it")?;
    variable(alloc, place, &(place, name))
}

/// `exp;`: `val it = exp`.
fn derive_run(alloc: Global, place: Place, exp: &Exp) -> Result<BareDec, NoMemory>
    ensures { IfOk result (λ d. d ≡ spec.ran place exp.now) }
{
    let exp = derive_exp(alloc, exp)?;
    let pat = it_pat(alloc, place)?;
    Ok(BareDec::Vals(place, List::new(alloc), false, one(alloc, (pat, exp))?))
}

/// The top-level declaration without derived forms.
fn derive_top(alloc: Global, top: &Top) -> Result<BareTop, NoMemory>
    ensures { IfOk result (λ t. t ≡ derived_top top.now) }
{
    match top {
        Top::Strs(p, dec) => Ok(BareTop::Strs(*p, derive_str_dec(alloc, dec)?)),
        Top::Sigs(p, binds) => Ok(BareTop::Sigs(*p, derive_sig_binds(alloc, binds.items())?)),
        Top::Funs(p, binds) => Ok(BareTop::Funs(*p, derive_fun_binds(alloc, binds.items())?)),
        Top::Run(p, exp) => {
            let dec = derive_run(alloc, *p, exp)?;
            Ok(BareTop::Strs(*p, BareStrDec::Core(*p, dec)))
        },
    }
}

/// The top-level declarations of a source.
fn derive_tops(alloc: Global, tops: &[Top]) -> Result<List<BareTop>, NoMemory>
    ensures { IfOk result (λ ts. ts ≡ map derived_top tops.now) }
{
    let mut done = List::new(alloc);
    for one in tops {
        done.push(derive_top(alloc, one)?)?;
    }
    Ok(done)
}

/// The source without derived forms (the Definition, appendix A). NoMemory where none is left, and where a `withtype` makes
/// a type larger or deeper than any source could write it.
pub fn derive(alloc: Global, program: &Program) -> Result<BareProgram, NoMemory>
    ensures { IfOk result (λ p. p ≡ Derived program.now) }
{
    match program {
        Program::Tops(p, tops) => Ok(BareProgram::Tops(*p, derive_tops(alloc, tops.items())?)),
    }
}
