//! Types.

use crate::name::{Ident, Label, LongIdent};
use tl_text::{Boxed, List, Place};

/// Ty (the Definition, figure 3).
#[cycle(ty)]
pub enum Ty {
    /// `'a`
    Tyvar(Place, Ident),
    /// `{a : t, b : u}`
    TFields(Place, List<(Label, Ty)>),
    /// `(t, u) c`: no argument, one, or two and more in parentheses.
    TCon(Place, List<Ty>, LongIdent),
    /// `t * u * v`
    TTuple(Place, Boxed<Ty>, List<Ty>),
    /// `t -> u`
    Arrow(Place, Boxed<Ty>, Boxed<Ty>),
    /// `(t)`
    TParen(Place, Boxed<Ty>),
}

impl Drop for Ty {
    #[cycle(ty_drop)]
    fn drop(self) {
        match self {
            Ty::Tyvar(_, _) => {}
            Ty::TFields(_, _) => {}
            Ty::TCon(_, _, _) => {}
            Ty::TTuple(_, _, _) => {}
            Ty::Arrow(_, _, _) => {}
            Ty::TParen(_, _) => {}
        }
    }
}
