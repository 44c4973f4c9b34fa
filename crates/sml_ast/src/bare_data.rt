//! Bindings of types, datatypes and exceptions without derived forms.

use crate::bare_ty::BareTy;
use crate::name::{Ident, LongIdent, Tyvars};
use tl_text::{List, Place};

/// `'a t = u`
pub type BareTyBind = (Tyvars, Ident, BareTy);

/// A binding of a datatype.
pub enum BareDatBind {
    /// `'a t = C of u | op ++ of v`
    Data(Place, Tyvars, Ident, List<(bool, Ident, Option<BareTy>)>),
}

impl Drop for BareDatBind {
    fn drop(self) {
        match self {
            BareDatBind::Data(_, _, _, _) => {}
        }
    }
}

/// A description of a datatype in a signature.
pub enum BareDatDesc {
    /// `'a t = C of u | D`
    Desc(Place, Tyvars, Ident, List<(Ident, Option<BareTy>)>),
}

impl Drop for BareDatDesc {
    fn drop(self) {
        match self {
            BareDatDesc::Desc(_, _, _, _) => {}
        }
    }
}

/// A binding of an exception.
pub enum BareExBind {
    /// `E of t`, `op E of t`
    NewExn(Place, bool, Ident, Option<BareTy>),
    /// `E = F`, `op E = op F`
    SameExn(Place, bool, Ident, bool, LongIdent),
}

impl Drop for BareExBind {
    fn drop(self) {
        match self {
            BareExBind::NewExn(_, _, _, _) => {}
            BareExBind::SameExn(_, _, _, _, _) => {}
        }
    }
}
