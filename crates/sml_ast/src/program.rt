//! Structures, functors and programs.

ghost use Rattle.std.specs.Prelude.{◌≡◌};

use crate::exp::{Dec, Exp};
use crate::name::{Ident, LongIdent};
use crate::sig::{Ascribe, SigExp, Spec};
use tl_text::{Boxed, List, Place};

/// StrExp, a structure expression (the Definition, figure 6).
#[cycle(structure)]
pub enum StrExp {
    /// `struct .. end`
    Body(Place, List<StrDec>),
    /// `A.B`
    At(Place, LongIdent),
    /// `e : G`, `e :> G`
    Seal(Place, Boxed<StrExp>, Ascribe),
    /// `F (e)`
    Call(Place, Ident, Boxed<StrExp>),
    /// `F (..)`, with the declarations alone
    CallBody(Place, Ident, List<StrDec>),
    /// `let .. in e end`
    LetStr(Place, List<StrDec>, Boxed<StrExp>),
}

impl Drop for StrExp {
    #[cycle(structure_drop)]
    fn drop(self) {
        match self {
            StrExp::Body(_, _) => {}
            StrExp::At(_, _) => {}
            StrExp::Seal(_, _, _) => {}
            StrExp::Call(_, _, _) => {}
            StrExp::CallBody(_, _, _) => {}
            StrExp::LetStr(_, _, _) => {}
        }
    }
}

/// StrDec, a declaration at structure level.
#[cycle(structure)]
pub enum StrDec {
    /// A declaration of the core.
    Core(Place, Dec),
    /// `structure S : G = e and T = f`
    Structs(Place, List<StrBind>),
    /// `local .. in .. end`, where not all members are of the core
    LocalStr(Place, List<StrDec>, List<StrDec>),
}

impl Drop for StrDec {
    #[cycle(structure_drop)]
    fn drop(self) {
        match self {
            StrDec::Core(_, _) => {}
            StrDec::Structs(_, _) => {}
            StrDec::LocalStr(_, _, _) => {}
        }
    }
}

impl StrDec {
    ghost use Rattle.sml_ast.specs.Parts as parts;

    /// The declaration of the core that it is, without a copy; None of another declaration.
    pub fn into_core(self) -> Option<Dec>
        ensures { result ≡ parts.core self }
    {
        match self {
            StrDec::Core(_, dec) => Some(dec),
            StrDec::Structs(_, _) => None,
            StrDec::LocalStr(_, _, _) => None,
        }
    }
}

/// StrBind, a binding of a structure.
#[cycle(structure)]
pub enum StrBind {
    /// `S : G = e`
    Bind(Place, Ident, Option<Ascribe>, StrExp),
}

impl Drop for StrBind {
    #[cycle(structure_drop)]
    fn drop(self) {
        match self {
            StrBind::Bind(_, _, _, _) => {}
        }
    }
}

/// SigBind, a binding of a signature.
pub enum SigBind {
    /// `G = H`
    SigAs(Place, Ident, SigExp),
}

impl Drop for SigBind {
    fn drop(self) {
        match self {
            SigBind::SigAs(_, _, _) => {}
        }
    }
}

/// FunBind, a binding of a functor (the Definition, figure 8).
pub enum FunBind {
    /// `F (X : G) : H = e`
    FunOf(Place, Ident, Ident, SigExp, Option<Ascribe>, StrExp),
    /// `F (..) : H = e`, with the specifications alone
    FunSpecs(Place, Ident, List<Spec>, Option<Ascribe>, StrExp),
}

impl Drop for FunBind {
    fn drop(self) {
        match self {
            FunBind::FunOf(_, _, _, _, _, _) => {}
            FunBind::FunSpecs(_, _, _, _, _) => {}
        }
    }
}

/// Top, a top-level declaration (the Definition, figure 8).
pub enum Top {
    /// A declaration at structure level.
    Strs(Place, StrDec),
    /// `signature G = H and I = J`
    Sigs(Place, List<SigBind>),
    /// `functor F (X : G) = e and H (Y : I) = f`
    Funs(Place, List<FunBind>),
    /// `e;`
    Run(Place, Exp),
}

impl Drop for Top {
    fn drop(self) {
        match self {
            Top::Strs(_, _) => {}
            Top::Sigs(_, _) => {}
            Top::Funs(_, _) => {}
            Top::Run(_, _) => {}
        }
    }
}

/// Program, a whole source.
pub enum Program {
    /// Its top-level declarations.
    Tops(Place, List<Top>),
}

impl Drop for Program {
    fn drop(self) {
        match self {
            Program::Tops(_, _) => {}
        }
    }
}
