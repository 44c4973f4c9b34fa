//! Clauses of functions, whose bodies have no derived forms any more.

ghost use Rattle.std.specs.Prelude.{◌≡◌, IfOk, map};
ghost use Rattle.sml_derive_core.specs.Patterns.{derived_at_pat};
ghost use Rattle.sml_derive_exp.specs.Declarations as spec;

use sml_ast::{AtPat, BareAtPat, BareExp, Ident, Ty};
use sml_derive_core::{copy_ident, derive_at_pat, derive_opt_ty};
use sml_derive_forms::BareClause;
use std::alloc::Global;
use tl_text::{List, NoMemory, Place};

/// The arguments after the name of a function.
fn derive_at_pats(alloc: Global, pats: &[AtPat]) -> Result<List<BareAtPat>, NoMemory>
    ensures { IfOk result (λ qs. qs ≡ map derived_at_pat pats.now) }
{
    let mut done = List::new(alloc);
    for one in pats {
        done.push(derive_at_pat(alloc, one)?)?;
    }
    Ok(done)
}

/// The two sides of an infix clause.
pub(crate) fn derive_pair(
    alloc: Global,
    left: &AtPat,
    right: &AtPat,
) -> Result<(BareAtPat, BareAtPat), NoMemory>
    ensures { IfOk result (λ ab. ab ≡ (derived_at_pat left.now, derived_at_pat right.now)) }
{
    let left = derive_at_pat(alloc, left)?;
    let right = derive_at_pat(alloc, right)?;
    Ok((left, right))
}

/// A clause with the two sides of its name, where it is written between them, and with its body.
pub(crate) fn clause(
    alloc: Global,
    place: Place,
    op: bool,
    name: &Ident,
    pair: Option<(BareAtPat, BareAtPat)>,
    args: &[AtPat],
    ty: &Option<Ty>,
    body: BareExp,
) -> Result<BareClause, NoMemory>
    ensures { IfOk result (λ c. c ≡ spec.clause place op name.now pair args.now ty.now body) }
{
    let args = derive_at_pats(alloc, args)?;
    let ty = derive_opt_ty(alloc, ty)?;
    let name = copy_ident(alloc, name)?;
    Ok(BareClause {
        place,
        op,
        name,
        pair,
        args,
        ty,
        body,
    })
}
