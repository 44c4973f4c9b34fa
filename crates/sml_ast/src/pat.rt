//! Patterns.

ghost use Rattle.std.specs.Prelude.{◌≡◌};

use crate::name::{Ident, Label, LongIdent};
use crate::ty::Ty;
use tl_text::{Boxed, List, Lit, Place};

/// AtPat, an atomic pattern (the Definition, figure 3).
#[cycle(pat)]
pub enum AtPat {
    /// `_`
    Any(Place),
    /// `1`
    PLit(Place, Lit),
    /// `x`, `op x`: whether `op` is there, and the identifier.
    PId(Place, bool, LongIdent),
    /// `{a = p, b, ...}`
    PFields(Place, List<PField>),
    /// `()`
    PUnit(Place),
    /// `(p, q, r)`
    PTuple(Place, Boxed<Pat>, List<Pat>),
    /// `[p, q]`
    PItems(Place, List<Pat>),
    /// `(p)`
    PParen(Place, Boxed<Pat>),
}

impl Drop for AtPat {
    #[cycle(pat_drop)]
    fn drop(self) {
        match self {
            AtPat::Any(_) => {}
            AtPat::PLit(_, _) => {}
            AtPat::PId(_, _, _) => {}
            AtPat::PFields(_, _) => {}
            AtPat::PUnit(_) => {}
            AtPat::PTuple(_, _, _) => {}
            AtPat::PItems(_, _) => {}
            AtPat::PParen(_, _) => {}
        }
    }
}

/// PField, a field of a record pattern.
#[cycle(pat)]
pub enum PField {
    /// `...`, which stands last and once.
    Rest(Place),
    /// `a = p`
    Named(Place, Label, Pat),
    /// `x : t as p`
    Pun(Place, Ident, Option<Ty>, Option<Pat>),
}

impl Drop for PField {
    #[cycle(pat_drop)]
    fn drop(self) {
        match self {
            PField::Rest(_) => {}
            PField::Named(_, _, _) => {}
            PField::Pun(_, _, _, _) => {}
        }
    }
}

/// Pat, a pattern.
#[cycle(pat)]
pub enum Pat {
    /// An atomic pattern.
    PAtom(Place, AtPat),
    /// `C p`, `op C p`
    PCon(Place, bool, LongIdent, AtPat),
    /// `p :: q`
    PInfix(Place, Boxed<Pat>, Ident, Boxed<Pat>),
    /// `p : t`
    PTyped(Place, Boxed<Pat>, Ty),
    /// `x : t as p`, `op x : t as p`
    Layer(Place, bool, Ident, Option<Ty>, Boxed<Pat>),
}

impl Drop for Pat {
    #[cycle(pat_drop)]
    fn drop(self) {
        match self {
            Pat::PAtom(_, _) => {}
            Pat::PCon(_, _, _, _) => {}
            Pat::PInfix(_, _, _, _) => {}
            Pat::PTyped(_, _, _) => {}
            Pat::Layer(_, _, _, _, _) => {}
        }
    }
}

impl Pat {
    ghost use Rattle.sml_ast.specs.Parts as parts;

    /// The pattern and the type of `p : t`, without a copy; None of another pattern.
    pub fn into_typed(self) -> Option<(Boxed<Pat>, Ty)>
        ensures { result ≡ parts.typed self }
    {
        match self {
            Pat::PTyped(_, inner, ty) => Some((inner, ty)),
            Pat::PAtom(_, _) => None,
            Pat::PCon(_, _, _, _) => None,
            Pat::PInfix(_, _, _, _) => None,
            Pat::Layer(_, _, _, _, _) => None,
        }
    }
}
