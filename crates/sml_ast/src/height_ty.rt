//! The height of types.

ghost use Rattle.std.specs.Prelude.{◌≡◌, ◌-◌, ◌^◌, min, max, map};
ghost use Rattle.tl_text.specs.Pairs.{seconds, map_second};
ghost use Rattle.sml_ast.specs.Heights.{greatest, opt_ty_height, ty_bind_height, ty_height};

use crate::data::TyBind;
use crate::name::Label;
use crate::ty::Ty;

/// The height of a type.
#[cycle(ty_height)]
#[tactic(auto, using(crate::proofs::Levels::ty_fields))]
pub(crate) fn ty_height(ty: &Ty) -> u32
    ensures { result ≡ min (ty_height ty.now) (2 ^ 32 - 1) }
{
    match ty {
        Ty::Tyvar(..) => 1,
        Ty::TFields(_, fields) => fields_height(fields.items()).saturating_add(1),
        Ty::TCon(_, args, _) => tys_height(args.items()).saturating_add(1),
        Ty::TTuple(_, first, others) => ty_height(first.get())
            .max(tys_height(others.items()))
            .saturating_add(1),
        Ty::Arrow(_, from, to) => ty_height(from.get())
            .max(ty_height(to.get()))
            .saturating_add(1),
        Ty::TParen(_, inner) => ty_height(inner.get()).saturating_add(1),
    }
}

/// The greatest height of a row of types.
#[cycle(ty_height)]
fn tys_height(tys: &[Ty]) -> u32
    ensures { result ≡ min (greatest (map ty_height tys.now)) (2 ^ 32 - 1) }
{
    let mut most = 0;
    for one in tys {
        most = most.max(ty_height(one));
    }
    most
}

/// The greatest height of the fields of a record type.
#[cycle(ty_height)]
fn fields_height(fields: &[(Label, Ty)]) -> u32
    ensures { result ≡ min (greatest (seconds (map_second ty_height fields.now))) (2 ^ 32 - 1) }
{
    let mut most = 0;
    for one in fields {
        most = most.max(ty_height(&one.1));
    }
    most
}

/// The height of a type that may be missing.
pub(crate) fn opt_ty_height(ty: &Option<Ty>) -> u32
    ensures { result ≡ min (opt_ty_height ty.now) (2 ^ 32 - 1) }
{
    match ty {
        None => 0,
        Some(ty) => ty_height(ty),
    }
}

/// The greatest height of a row of bindings of types.
pub(crate) fn ty_binds_height(binds: &[TyBind]) -> u32
    ensures { result ≡ min (greatest (map ty_bind_height binds.now)) (2 ^ 32 - 1) }
{
    let mut most = 0;
    for one in binds {
        most = most.max(ty_height(&one.2));
    }
    most
}
