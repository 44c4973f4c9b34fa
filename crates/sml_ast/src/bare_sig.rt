//! Signatures and specifications without derived forms.

use crate::bare_data::BareDatDesc;
use crate::bare_ty::BareTy;
use crate::name::{Ident, LongIdent, Tyvars};
use tl_text::{Boxed, List, Place};

/// A signature expression without derived forms.
#[cycle(bare_sig)]
pub enum BareSigExp {
    /// `sig .. end`
    Specs(Place, List<BareSpec>),
    /// `S`
    SigAt(Place, Ident),
    /// `S where type 'a t = u`: also the place of the word `where`.
    Real(Place, Place, Boxed<BareSigExp>, Tyvars, LongIdent, BareTy),
}

impl Drop for BareSigExp {
    #[cycle(bare_sig_drop)]
    fn drop(self) {
        match self {
            BareSigExp::Specs(_, _) => {}
            BareSigExp::SigAt(_, _) => {}
            BareSigExp::Real(_, _, _, _, _, _) => {}
        }
    }
}

/// A specification without derived forms; `ShareStr` stays, since what it stands for depends on the signature round it.
#[cycle(bare_sig)]
pub enum BareSpec {
    /// `val x : t and y : u`
    ValSpec(Place, List<(Ident, BareTy)>),
    /// `type 'a t and u`
    TySpec(Place, List<(Tyvars, Ident)>),
    /// `eqtype 'a t and u`
    EqSpec(Place, List<(Tyvars, Ident)>),
    /// `datatype 'a t = C of u and v = D`
    DataSpec(Place, List<BareDatDesc>),
    /// `datatype t = datatype u`
    CopySpec(Place, Ident, LongIdent),
    /// `exception E of t and F`
    ExnSpec(Place, List<(Ident, Option<BareTy>)>),
    /// `structure S : G and T : H`
    StrSpec(Place, List<(Ident, BareSigExp)>),
    /// `include G`
    Incl(Place, Boxed<BareSigExp>),
    /// `sharing type t = u = v`
    ShareTy(Place, LongIdent, List<LongIdent>),
    /// `sharing S = T = U`
    ShareStr(Place, LongIdent, List<LongIdent>),
}

impl Drop for BareSpec {
    #[cycle(bare_sig_drop)]
    fn drop(self) {
        match self {
            BareSpec::ValSpec(_, _) => {}
            BareSpec::TySpec(_, _) => {}
            BareSpec::EqSpec(_, _) => {}
            BareSpec::DataSpec(_, _) => {}
            BareSpec::CopySpec(_, _, _) => {}
            BareSpec::ExnSpec(_, _) => {}
            BareSpec::StrSpec(_, _) => {}
            BareSpec::Incl(_, _) => {}
            BareSpec::ShareTy(_, _, _) => {}
            BareSpec::ShareStr(_, _, _) => {}
        }
    }
}

/// An ascription without derived forms.
pub enum BareAscribe {
    /// `: G`
    Clear(Place, BareSigExp),
    /// `:> G`
    Opaque(Place, BareSigExp),
}

impl Drop for BareAscribe {
    fn drop(self) {
        match self {
            BareAscribe::Clear(_, _) => {}
            BareAscribe::Opaque(_, _) => {}
        }
    }
}
