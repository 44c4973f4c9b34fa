//! Bindings of types, datatypes and exceptions.

use crate::name::{Ident, LongIdent, Tyvars};
use crate::ty::Ty;
use tl_text::{List, Place};

/// `'a t = u`
pub type TyBind = (Tyvars, Ident, Ty);

/// DatBind, a binding of a datatype.
pub enum DatBind {
    /// `'a t = C of u | op ++ of v`: each constructor with whether `op` is there.
    Data(Place, Tyvars, Ident, List<(bool, Ident, Option<Ty>)>),
}

impl Drop for DatBind {
    fn drop(self) {
        match self {
            DatBind::Data(_, _, _, _) => {}
        }
    }
}

/// DatDesc, a description of a datatype in a signature.
pub enum DatDesc {
    /// `'a t = C of u | D`
    Desc(Place, Tyvars, Ident, List<(Ident, Option<Ty>)>),
}

impl Drop for DatDesc {
    fn drop(self) {
        match self {
            DatDesc::Desc(_, _, _, _) => {}
        }
    }
}

/// ExBind, a binding of an exception.
pub enum ExBind {
    /// `E of t`, `op E of t`
    NewExn(Place, bool, Ident, Option<Ty>),
    /// `E = F`, `op E = op F`
    SameExn(Place, bool, Ident, bool, LongIdent),
}

impl Drop for ExBind {
    fn drop(self) {
        match self {
            ExBind::NewExn(_, _, _, _) => {}
            ExBind::SameExn(_, _, _, _, _) => {}
        }
    }
}
