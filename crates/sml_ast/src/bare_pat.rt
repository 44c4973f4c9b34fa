//! Patterns without derived forms.

use crate::bare_ty::BareTy;
use crate::name::{Ident, Label, LongIdent};
use tl_text::{Boxed, List, Lit, Place};

/// An atomic pattern without derived forms.
#[cycle(bare_pat)]
pub enum BareAtPat {
    /// `_`
    Any(Place),
    /// `1`
    PLit(Place, Lit),
    /// `x`, `op x`
    PId(Place, bool, LongIdent),
    /// `{a = p, ...}`
    PFields(Place, List<BarePField>),
    /// A row that stands for `(p :: .. :: q :: nil)`, so that no tree is as deep as a list is long.
    PRow(Place, List<BarePat>),
    /// `(p)`
    PParen(Place, Boxed<BarePat>),
}

impl Drop for BareAtPat {
    #[cycle(bare_pat_drop)]
    fn drop(self) {
        match self {
            BareAtPat::Any(_) => {}
            BareAtPat::PLit(_, _) => {}
            BareAtPat::PId(_, _, _) => {}
            BareAtPat::PFields(_, _) => {}
            BareAtPat::PRow(_, _) => {}
            BareAtPat::PParen(_, _) => {}
        }
    }
}

/// A field of a record pattern without derived forms.
#[cycle(bare_pat)]
pub enum BarePField {
    /// `...`
    Rest(Place),
    /// `a = p`
    Named(Place, Label, BarePat),
}

impl Drop for BarePField {
    #[cycle(bare_pat_drop)]
    fn drop(self) {
        match self {
            BarePField::Rest(_) => {}
            BarePField::Named(_, _, _) => {}
        }
    }
}

/// A pattern without derived forms.
#[cycle(bare_pat)]
pub enum BarePat {
    /// An atomic pattern.
    PAtom(Place, BareAtPat),
    /// `C p`, `op C p`
    PCon(Place, bool, LongIdent, BareAtPat),
    /// `p :: q`
    PInfix(Place, Boxed<BarePat>, Ident, Boxed<BarePat>),
    /// `p : t`
    PTyped(Place, Boxed<BarePat>, BareTy),
    /// `x : t as p`, `op x : t as p`
    Layer(Place, bool, Ident, Option<BareTy>, Boxed<BarePat>),
}

impl Drop for BarePat {
    #[cycle(bare_pat_drop)]
    fn drop(self) {
        match self {
            BarePat::PAtom(_, _) => {}
            BarePat::PCon(_, _, _, _) => {}
            BarePat::PInfix(_, _, _, _) => {}
            BarePat::PTyped(_, _, _) => {}
            BarePat::Layer(_, _, _, _, _) => {}
        }
    }
}
