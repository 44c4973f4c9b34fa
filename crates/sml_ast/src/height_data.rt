//! The height of bindings of datatypes and exceptions.

ghost use Rattle.std.specs.Prelude.{◌≡◌, ◌-◌, ◌^◌, min, max, map};
ghost use Rattle.sml_ast.specs.Heights.{dat_bind_height, dat_desc_height, ex_bind_height, greatest, opt_ty_height};

use crate::data::{DatBind, DatDesc, ExBind};
use crate::height_ty::opt_ty_height;
use crate::name::Ident;
use crate::ty::Ty;

/// The greatest height of the types of a row of constructors.
fn cons_height(cons: &[(bool, Ident, Option<Ty>)]) -> u32
    ensures { result ≡ min (greatest (map (λ c. opt_ty_height c.2) cons.now)) (2 ^ 32 - 1) }
{
    let mut most = 0;
    for one in cons {
        most = most.max(opt_ty_height(&one.2));
    }
    most
}

/// The greatest height of the types of a row of described constructors or exceptions.
pub(crate) fn described_height(cons: &[(Ident, Option<Ty>)]) -> u32
    ensures { result ≡ min (greatest (map (λ c. opt_ty_height c.1) cons.now)) (2 ^ 32 - 1) }
{
    let mut most = 0;
    for one in cons {
        most = most.max(opt_ty_height(&one.1));
    }
    most
}

/// The height of a binding of a datatype.
fn dat_bind_height(bind: &DatBind) -> u32
    ensures { result ≡ min (dat_bind_height bind.now) (2 ^ 32 - 1) }
{
    match bind {
        DatBind::Data(_, _, _, cons) => cons_height(cons.items()).saturating_add(1),
    }
}

/// The height of a description of a datatype.
fn dat_desc_height(desc: &DatDesc) -> u32
    ensures { result ≡ min (dat_desc_height desc.now) (2 ^ 32 - 1) }
{
    match desc {
        DatDesc::Desc(_, _, _, cons) => described_height(cons.items()).saturating_add(1),
    }
}

/// The height of a binding of an exception.
fn ex_bind_height(bind: &ExBind) -> u32
    ensures { result ≡ min (ex_bind_height bind.now) (2 ^ 32 - 1) }
{
    match bind {
        ExBind::NewExn(_, _, _, ty) => opt_ty_height(ty).saturating_add(1),
        ExBind::SameExn(..) => 1,
    }
}

/// The greatest height of a row of bindings of datatypes.
pub(crate) fn dat_binds_height(binds: &[DatBind]) -> u32
    ensures { result ≡ min (greatest (map dat_bind_height binds.now)) (2 ^ 32 - 1) }
{
    let mut most = 0;
    for one in binds {
        most = most.max(dat_bind_height(one));
    }
    most
}

/// The greatest height of a row of descriptions of datatypes.
pub(crate) fn dat_descs_height(descs: &[DatDesc]) -> u32
    ensures { result ≡ min (greatest (map dat_desc_height descs.now)) (2 ^ 32 - 1) }
{
    let mut most = 0;
    for one in descs {
        most = most.max(dat_desc_height(one));
    }
    most
}

/// The greatest height of a row of bindings of exceptions.
pub(crate) fn ex_binds_height(binds: &[ExBind]) -> u32
    ensures { result ≡ min (greatest (map ex_bind_height binds.now)) (2 ^ 32 - 1) }
{
    let mut most = 0;
    for one in binds {
        most = most.max(ex_bind_height(one));
    }
    most
}
