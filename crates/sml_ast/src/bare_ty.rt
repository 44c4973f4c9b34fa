//! Types without derived forms.

use crate::name::{Ident, Label, LongIdent};
use tl_text::{Boxed, List, Place};

/// A type without derived forms.
#[cycle(bare_ty)]
pub enum BareTy {
    /// `'a`
    Tyvar(Place, Ident),
    /// `{a : t, b : u}`
    TFields(Place, List<(Label, BareTy)>),
    /// `(t, u) c`
    TCon(Place, List<BareTy>, LongIdent),
    /// `t -> u`
    Arrow(Place, Boxed<BareTy>, Boxed<BareTy>),
    /// `(t)`
    TParen(Place, Boxed<BareTy>),
}

impl Drop for BareTy {
    #[cycle(bare_ty_drop)]
    fn drop(self) {
        match self {
            BareTy::Tyvar(_, _) => {}
            BareTy::TFields(_, _) => {}
            BareTy::TCon(_, _, _) => {}
            BareTy::Arrow(_, _, _) => {}
            BareTy::TParen(_, _) => {}
        }
    }
}
