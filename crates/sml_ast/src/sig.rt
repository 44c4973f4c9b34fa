//! Signatures and specifications.

ghost use Rattle.std.specs.Prelude.{◌≡◌};

use crate::data::{DatDesc, TyBind};
use crate::name::{Ident, LongIdent, Tyvars};
use crate::ty::Ty;
use tl_text::{Boxed, List, Place};

/// SigExp, a signature expression (the Definition, figure 6).
#[cycle(sig)]
pub enum SigExp {
    /// `sig .. end`
    Specs(Place, List<Spec>),
    /// `S`
    SigAt(Place, Ident),
    /// `S where type 'a t = u`: also the place of the word `where`.
    Real(Place, Place, Boxed<SigExp>, Tyvars, LongIdent, Ty),
}

impl Drop for SigExp {
    #[cycle(sig_drop)]
    fn drop(self) {
        match self {
            SigExp::Specs(_, _) => {}
            SigExp::SigAt(_, _) => {}
            SigExp::Real(_, _, _, _, _, _) => {}
        }
    }
}

impl SigExp {
    ghost use Rattle.sml_ast.specs.Parts as parts;

    /// The identifier that it is, without a copy; None of another signature.
    pub fn into_identifier(self) -> Option<Ident>
        ensures { result ≡ parts.identifier self }
    {
        match self {
            SigExp::SigAt(_, name) => Some(name),
            SigExp::Specs(_, _) => None,
            SigExp::Real(_, _, _, _, _, _) => None,
        }
    }
}

/// Spec, a specification (the Definition, figure 7).
#[cycle(sig)]
pub enum Spec {
    /// `val x : t and y : u`
    ValSpec(Place, List<(Ident, Ty)>),
    /// `type 'a t and u`
    TySpec(Place, List<(Tyvars, Ident)>),
    /// `eqtype 'a t and u`
    EqSpec(Place, List<(Tyvars, Ident)>),
    /// `type 'a t = u and v = w`
    SynSpec(Place, List<TyBind>),
    /// `datatype 'a t = C of u and v = D`
    DataSpec(Place, List<DatDesc>),
    /// `datatype t = datatype u`
    CopySpec(Place, Ident, LongIdent),
    /// `exception E of t and F`
    ExnSpec(Place, List<(Ident, Option<Ty>)>),
    /// `structure S : G and T : H`
    StrSpec(Place, List<(Ident, SigExp)>),
    /// `include G`
    Incl(Place, Boxed<SigExp>),
    /// `include G H`
    Incls(Place, List<Ident>),
    /// `sharing type t = u = v`
    ShareTy(Place, LongIdent, List<LongIdent>),
    /// `sharing S = T = U`
    ShareStr(Place, LongIdent, List<LongIdent>),
}

impl Drop for Spec {
    #[cycle(sig_drop)]
    fn drop(self) {
        match self {
            Spec::ValSpec(_, _) => {}
            Spec::TySpec(_, _) => {}
            Spec::EqSpec(_, _) => {}
            Spec::SynSpec(_, _) => {}
            Spec::DataSpec(_, _) => {}
            Spec::CopySpec(_, _, _) => {}
            Spec::ExnSpec(_, _) => {}
            Spec::StrSpec(_, _) => {}
            Spec::Incl(_, _) => {}
            Spec::Incls(_, _) => {}
            Spec::ShareTy(_, _, _) => {}
            Spec::ShareStr(_, _, _) => {}
        }
    }
}

/// Ascribe, an ascription.
pub enum Ascribe {
    /// `: G`
    Clear(Place, SigExp),
    /// `:> G`
    Opaque(Place, SigExp),
}

impl Drop for Ascribe {
    fn drop(self) {
        match self {
            Ascribe::Clear(_, _) => {}
            Ascribe::Opaque(_, _) => {}
        }
    }
}
