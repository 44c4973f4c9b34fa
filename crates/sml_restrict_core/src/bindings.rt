//! Bindings of types, datatypes and exceptions.

ghost use Rattle.std.specs.Prelude.{◌≡◌, ◌++◌, map};
ghost use Rattle.sml_restrict_core.specs.Bindings as spec;
ghost use Rattle.sml_restrict_core.specs.Breaches.{after, joined};
ghost use Rattle.sml_restrict_core.specs.Repeats.{again, crossed, twice};

use crate::fixed::check_con_name;
use crate::named::{check_again, check_twice};
use crate::ty::{check_opt_ty, check_ty, check_unbound};
use sml_ast::{DatBind, ExBind, Ident, Ty, TyBind};
use tl_text::{Name, Refusal};

/// The breaches in a type whose type variables are parameters.
#[tactic(auto, using(crate::proofs::After::breaches))]
pub fn check_closed(params: &[Ident], ty: &Ty, found: Option<Refusal>) -> Option<Refusal>
    ensures { result ≡ after found (spec.closed params.now ty.now) }
{
    let found = check_ty(ty, found);
    check_unbound(params, ty, found)
}

/// The same of a type that may be missing.
#[tactic(auto, using(crate::proofs::After::breaches))]
pub(crate) fn check_opt_closed(
    params: &[Ident],
    ty: &Option<Ty>,
    found: Option<Refusal>,
) -> Option<Refusal>
    ensures { result ≡ after found (spec.opt_closed params.now ty.now) }
{
    match ty {
        None => found,
        Some(ty) => check_closed(params, ty, found),
    }
}

/// The breaches in a row of bindings of types, but for names that stand twice.
#[tactic(auto, using(crate::proofs::After::breaches))]
fn check_ty_binds(binds: &[TyBind], mut found: Option<Refusal>) -> Option<Refusal>
    ensures { result ≡ after found (joined (map spec.ty_bind_breaches binds.now)) }
{
    for one in binds {
        found = check_twice(one.0.items(), found);
        found = check_closed(one.0.items(), &one.2, found);
    }
    found
}

/// The breaches in the bindings of one `type` declaration or specification.
#[tactic(auto, using(crate::proofs::After::breaches))]
pub fn check_types(binds: &[TyBind], found: Option<Refusal>) -> Option<Refusal>
    ensures { result ≡ after found (spec.types_breaches binds.now) }
{
    let found = check_twice(binds, found);
    check_ty_binds(binds, found)
}

/// The breaches in the constructors of a datatype.
#[tactic(auto, using(crate::proofs::After::breaches))]
fn check_cons(
    params: &[Ident],
    cons: &[(bool, Ident, Option<Ty>)],
    mut found: Option<Refusal>,
) -> Option<Refusal>
    ensures { result ≡ after found (joined (map (spec.con_breaches params.now) cons.now)) }
{
    for one in cons {
        found = check_con_name(&one.1, found);
        found = check_opt_closed(params, &one.2, found);
    }
    found
}

/// The breaches in a binding of a datatype.
#[tactic(auto, using(crate::proofs::After::breaches))]
fn check_dat_bind(bind: &DatBind, found: Option<Refusal>) -> Option<Refusal>
    ensures { result ≡ after found (spec.dat_bind_breaches bind.now) }
{
    let DatBind::Data(_, params, _, cons) = bind;
    let found = check_twice(params.items(), found);
    check_cons(params.items(), cons.items(), found)
}

/// The breaches in a row of bindings of datatypes, but for names that stand twice.
#[tactic(auto, using(crate::proofs::After::breaches))]
fn check_dat_binds(binds: &[DatBind], mut found: Option<Refusal>) -> Option<Refusal>
    ensures { result ≡ after found (joined (map spec.dat_bind_breaches binds.now)) }
{
    for one in binds {
        found = check_dat_bind(one, found);
    }
    found
}

/// A breach at each name of a type that stands twice in a `datatype` declaration with its `withtype`.
#[tactic(auto, using(crate::proofs::After::repeats))]
fn check_ty_names(binds: &[DatBind], tys: &[TyBind], mut found: Option<Refusal>) -> Option<Refusal>
    ensures { result ≡ after found (twice (map spec.dat_bind_name binds.now ++ map (λ b. b.1) tys.now)) }
{
    let mut rest = binds;
    while let Some((one, others)) = rest.split_first() {
        let DatBind::Data(_, _, name, _) = one;
        found = check_again(&name.1, others, found);
        found = check_again(&name.1, tys, found);
        rest = others;
    }
    check_twice(tys, found)
}

/// A breach at each constructor of the datatypes that has the name.
#[tactic(auto, using(crate::proofs::After::repeats))]
fn check_con_again(name: &Name, binds: &[DatBind], mut found: Option<Refusal>) -> Option<Refusal>
    ensures { result ≡ after found (again name.now (joined (map spec.dat_bind_cons binds.now))) }
{
    let mut rest = binds;
    while let Some((one, others)) = rest.split_first() {
        let DatBind::Data(_, _, _, cons) = one;
        found = check_again(name, cons.items(), found);
        rest = others;
    }
    found
}

/// A breach at each constructor that has the name of an earlier one of a row, in the row and in the datatypes after it.
#[tactic(auto, using(crate::proofs::After::repeats))]
fn check_crossed(
    cons: &[(bool, Ident, Option<Ty>)],
    binds: &[DatBind],
    mut found: Option<Refusal>,
) -> Option<Refusal>
    ensures { result ≡ after found (crossed (map (λ c. c.1) cons.now) (joined (map spec.dat_bind_cons binds.now))) }
{
    let mut rest = cons;
    while let Some((one, others)) = rest.split_first() {
        found = check_again(&one.1.1, others, found);
        found = check_con_again(&one.1.1, binds, found);
        rest = others;
    }
    found
}

/// A breach at each constructor of a `datatype` declaration that has the name of an earlier one.
#[tactic(auto, using(crate::proofs::After::repeats))]
fn check_con_names(binds: &[DatBind], mut found: Option<Refusal>) -> Option<Refusal>
    ensures { result ≡ after found (twice (joined (map spec.dat_bind_cons binds.now))) }
{
    let mut rest = binds;
    while let Some((one, others)) = rest.split_first() {
        let DatBind::Data(_, _, _, cons) = one;
        found = check_crossed(cons.items(), others, found);
        rest = others;
    }
    found
}

/// The breaches in one `datatype` declaration with its `withtype`.
#[tactic(auto, using(crate::proofs::After::breaches))]
pub fn check_datas(binds: &[DatBind], tys: &[TyBind], found: Option<Refusal>) -> Option<Refusal>
    ensures { result ≡ after found (spec.datas_breaches binds.now tys.now) }
{
    let found = check_ty_names(binds, tys, found);
    let found = check_con_names(binds, found);
    let found = check_dat_binds(binds, found);
    check_ty_binds(tys, found)
}

/// The breaches in a row of bindings of exceptions, but for names that stand twice.
#[tactic(auto, using(crate::proofs::After::breaches))]
fn check_ex_binds(binds: &[ExBind], mut found: Option<Refusal>) -> Option<Refusal>
    ensures { result ≡ after found (joined (map spec.ex_bind_breaches binds.now)) }
{
    for one in binds {
        found = check_ex_bind(one, found);
    }
    found
}

/// The breaches in a binding of an exception.
#[tactic(auto, using(crate::proofs::After::breaches))]
fn check_ex_bind(bind: &ExBind, found: Option<Refusal>) -> Option<Refusal>
    ensures { result ≡ after found (spec.ex_bind_breaches bind.now) }
{
    match bind {
        ExBind::NewExn(_, _, name, ty) => {
            let found = check_con_name(name, found);
            check_opt_ty(ty, found)
        },
        ExBind::SameExn(_, _, name, _, _) => check_con_name(name, found),
    }
}

/// The breaches in one `exception` declaration.
#[tactic(auto, using(crate::proofs::After::breaches))]
pub fn check_exns(binds: &[ExBind], found: Option<Refusal>) -> Option<Refusal>
    ensures { result ≡ after found (spec.exns_breaches binds.now) }
{
    let found = check_twice(binds, found);
    check_ex_binds(binds, found)
}
