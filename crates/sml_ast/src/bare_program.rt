//! Structures, functors and programs without derived forms.

use crate::bare_exp::BareDec;
use crate::bare_sig::{BareAscribe, BareSigExp};
use crate::name::{Ident, LongIdent};
use crate::release::{Part, Pile};
use std::alloc::Global;
use tl_text::{Boxed, List, Place};

/// A structure expression without derived forms.
#[cycle(bare_structure)]
pub enum BareStrExp {
    /// `struct .. end`
    Body(Place, List<BareStrDec>),
    /// `A.B`
    At(Place, LongIdent),
    /// `e : G`, `e :> G`
    Seal(Place, Boxed<BareStrExp>, BareAscribe),
    /// `F (e)`
    Call(Place, Ident, Boxed<BareStrExp>),
    /// `let .. in e end`
    LetStr(Place, List<BareStrDec>, Boxed<BareStrExp>),
}

impl Drop for BareStrExp {
    #[cycle(bare_structure_drop)]
    fn drop(self) {
        match self {
            BareStrExp::Body(_, _) => {}
            BareStrExp::At(_, _) => {}
            BareStrExp::Seal(_, _, _) => {}
            BareStrExp::Call(_, _, _) => {}
            BareStrExp::LetStr(_, _, _) => {}
        }
    }
}

impl BareStrExp {
    /// Keeps what it is made of, to be let go of later.
    pub fn scatter(self, pile: &mut Pile) {
        match self {
            BareStrExp::Body(_, row) => pile.keep(Part::Outer(row.into_vec())),
            BareStrExp::At(_, _) => {}
            BareStrExp::Seal(_, inner, _) => pile.keep(Part::Structure(inner)),
            BareStrExp::Call(_, _, inner) => pile.keep(Part::Structure(inner)),
            BareStrExp::LetStr(_, row, inner) => {
                pile.keep(Part::Structure(inner));
                pile.keep(Part::Outer(row.into_vec()));
            }
        }
    }
}

/// A declaration at structure level without derived forms.
#[cycle(bare_structure)]
pub enum BareStrDec {
    /// A declaration of the core.
    Core(Place, BareDec),
    /// `structure S = e and T = f`
    Structs(Place, List<BareStrBind>),
    /// `local .. in .. end`
    LocalStr(Place, List<BareStrDec>, List<BareStrDec>),
}

impl Drop for BareStrDec {
    #[cycle(bare_structure_drop)]
    fn drop(self) {
        match self {
            BareStrDec::Core(_, _) => {}
            BareStrDec::Structs(_, _) => {}
            BareStrDec::LocalStr(_, _, _) => {}
        }
    }
}

impl BareStrDec {
    /// Keeps what it is made of, to be let go of later.
    pub fn scatter(self, pile: &mut Pile) {
        match self {
            BareStrDec::Core(_, dec) => dec.scatter(pile),
            BareStrDec::Structs(_, row) => pile.keep(Part::Structures(row.into_vec())),
            BareStrDec::LocalStr(_, hidden, row) => {
                pile.keep(Part::Outer(hidden.into_vec()));
                pile.keep(Part::Outer(row.into_vec()));
            }
        }
    }
}

/// A binding of a structure; its ascription stands at the expression.
#[cycle(bare_structure)]
pub enum BareStrBind {
    /// `S = e`
    Bind(Place, Ident, BareStrExp),
}

impl Drop for BareStrBind {
    #[cycle(bare_structure_drop)]
    fn drop(self) {
        match self {
            BareStrBind::Bind(_, _, _) => {}
        }
    }
}

impl BareStrBind {
    /// Keeps what it is made of, to be let go of later.
    pub fn scatter(self, pile: &mut Pile) {
        match self {
            BareStrBind::Bind(_, _, inner) => inner.scatter(pile),
        }
    }
}

/// A binding of a signature.
pub enum BareSigBind {
    /// `G = H`
    SigAs(Place, Ident, BareSigExp),
}

impl Drop for BareSigBind {
    fn drop(self) {
        match self {
            BareSigBind::SigAs(_, _, _) => {}
        }
    }
}

/// A binding of a functor; the ascription of its result stands at the body.
pub enum BareFunBind {
    /// `F (X : G) = e`
    FunOf(Place, Ident, Ident, BareSigExp, BareStrExp),
}

impl Drop for BareFunBind {
    fn drop(self) {
        match self {
            BareFunBind::FunOf(_, _, _, _, _) => {}
        }
    }
}

impl BareFunBind {
    /// Keeps what it is made of, to be let go of later.
    pub fn scatter(self, pile: &mut Pile) {
        match self {
            BareFunBind::FunOf(_, _, _, _, body) => body.scatter(pile),
        }
    }
}

/// A top-level declaration without derived forms.
pub enum BareTop {
    /// A declaration at structure level.
    Strs(Place, BareStrDec),
    /// `signature G = H and I = J`
    Sigs(Place, List<BareSigBind>),
    /// `functor F (X : G) = e and H (Y : I) = f`
    Funs(Place, List<BareFunBind>),
}

impl Drop for BareTop {
    fn drop(self) {
        match self {
            BareTop::Strs(_, _) => {}
            BareTop::Sigs(_, _) => {}
            BareTop::Funs(_, _) => {}
        }
    }
}

impl BareTop {
    /// Keeps what it is made of, to be let go of later.
    pub fn scatter(self, pile: &mut Pile) {
        match self {
            BareTop::Strs(_, dec) => dec.scatter(pile),
            BareTop::Sigs(_, _) => {}
            BareTop::Funs(_, binds) => pile.keep(Part::Functors(binds.into_vec())),
        }
    }
}

/// A whole source without derived forms.
pub enum BareProgram {
    /// Its top-level declarations.
    Tops(Place, List<BareTop>),
}

impl Drop for BareProgram {
    fn drop(self) {
        match self {
            BareProgram::Tops(_, _) => {}
        }
    }
}

impl BareProgram {
    /// Lets go of a program, on a stack that does not grow with its height: what is still to be done is kept on the heap, and
    /// where there is no memory for that the part at hand is dropped by recursion.
    pub fn release(self, alloc: Global) {
        match self {
            BareProgram::Tops(_, tops) => {
                let mut pile = Pile::new(alloc);
                pile.keep(Part::Tops(tops.into_vec()));
                pile.clear();
            }
        }
    }
}
