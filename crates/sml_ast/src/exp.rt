//! Expressions and declarations.

use crate::data::{DatBind, ExBind, TyBind};
use crate::name::{Ident, Label, LongIdent, Tyvars};
use crate::pat::{AtPat, Pat};
use crate::ty::Ty;
use tl_text::{Boxed, List, Lit, Place};

/// AtExp, an atomic expression (the Definition, figure 4).
#[cycle(exp)]
pub enum AtExp {
    /// `1`
    Lit(Place, Lit),
    /// `x`, `op x`: whether `op` is there, and the identifier.
    Id(Place, bool, LongIdent),
    /// `{a = e, b = f}`
    Fields(Place, List<(Label, Exp)>),
    /// `#a`
    Pick(Place, Label),
    /// `()`
    Unit(Place),
    /// `(e, f, g)`
    Tuple(Place, Boxed<Exp>, List<Exp>),
    /// `[e, f]`
    Items(Place, List<Exp>),
    /// `(e; f; g)`
    Seq(Place, Boxed<Exp>, List<Exp>),
    /// `let d in e; f end`
    Let(Place, List<Dec>, List<Exp>),
    /// `(e)`
    Paren(Place, Boxed<Exp>),
}

impl Drop for AtExp {
    #[cycle(exp_drop)]
    fn drop(self) {
        match self {
            AtExp::Lit(_, _) => {}
            AtExp::Id(_, _, _) => {}
            AtExp::Fields(_, _) => {}
            AtExp::Pick(_, _) => {}
            AtExp::Unit(_) => {}
            AtExp::Tuple(_, _, _) => {}
            AtExp::Items(_, _) => {}
            AtExp::Seq(_, _, _) => {}
            AtExp::Let(_, _, _) => {}
            AtExp::Paren(_, _) => {}
        }
    }
}

/// Exp, an expression.
#[cycle(exp)]
pub enum Exp {
    /// `e f g`, one or more.
    Apply(Place, List<AtExp>),
    /// `e + f`
    Infix(Place, Boxed<Exp>, Ident, Boxed<Exp>),
    /// `e : t`
    Typed(Place, Boxed<Exp>, Ty),
    /// `e andalso f`
    AndAlso(Place, Boxed<Exp>, Boxed<Exp>),
    /// `e orelse f`
    OrElse(Place, Boxed<Exp>, Boxed<Exp>),
    /// `e handle p => f | q => g`
    Handle(Place, Boxed<Exp>, List<Rule>),
    /// `raise e`
    Raise(Place, Boxed<Exp>),
    /// `if e then f else g`
    If(Place, Boxed<Exp>, Boxed<Exp>, Boxed<Exp>),
    /// `while e do f`
    While(Place, Boxed<Exp>, Boxed<Exp>),
    /// `case e of p => f | q => g`
    Case(Place, Boxed<Exp>, List<Rule>),
    /// `fn p => e | q => f`
    Fn(Place, List<Rule>),
}

impl Drop for Exp {
    #[cycle(exp_drop)]
    fn drop(self) {
        match self {
            Exp::Apply(_, _) => {}
            Exp::Infix(_, _, _, _) => {}
            Exp::Typed(_, _, _) => {}
            Exp::AndAlso(_, _, _) => {}
            Exp::OrElse(_, _, _) => {}
            Exp::Handle(_, _, _) => {}
            Exp::Raise(_, _) => {}
            Exp::If(_, _, _, _) => {}
            Exp::While(_, _, _) => {}
            Exp::Case(_, _, _) => {}
            Exp::Fn(_, _) => {}
        }
    }
}

/// Rule, a rule of a match.
#[cycle(exp)]
pub enum Rule {
    /// `p => e`
    Arm(Place, Pat, Exp),
}

impl Drop for Rule {
    #[cycle(exp_drop)]
    fn drop(self) {
        match self {
            Rule::Arm(_, _, _) => {}
        }
    }
}

/// Dec, a declaration (the Definition, figure 4).
#[cycle(exp)]
pub enum Dec {
    /// `val 'a rec p = e and q = f`: the type variables, whether `rec` is there, and the bindings.
    Vals(Place, Tyvars, bool, List<(Pat, Exp)>),
    /// `fun 'a f p = e | f q = g and h r = i`: the type variables, and the clauses of each function.
    Funs(Place, Tyvars, List<List<Clause>>),
    /// `type 'a t = u and v = w`
    Types(Place, List<TyBind>),
    /// `datatype 'a t = C of u | D and v = E withtype w = x`
    Datas(Place, List<DatBind>, List<TyBind>),
    /// `datatype t = datatype u`
    Copy(Place, Ident, LongIdent),
    /// `exception E of t and F = G`
    Exns(Place, List<ExBind>),
    /// `local d in e end`
    Local(Place, List<Dec>, List<Dec>),
    /// `open S T`
    Opens(Place, List<LongIdent>),
    /// `infix 3 ++`, `infixr 3 ++`: whether it is `infixr`, the digit, and the identifiers.
    Fix(Place, bool, Option<u8>, List<Ident>),
    /// `nonfix ++`
    Nonfix(Place, List<Ident>),
    /// `abstype 'a t = C of u withtype w = x with d end`
    Abs(Place, List<DatBind>, List<TyBind>, List<Dec>),
}

impl Drop for Dec {
    #[cycle(exp_drop)]
    fn drop(self) {
        match self {
            Dec::Vals(_, _, _, _) => {}
            Dec::Funs(_, _, _) => {}
            Dec::Types(_, _) => {}
            Dec::Datas(_, _, _) => {}
            Dec::Copy(_, _, _) => {}
            Dec::Exns(_, _) => {}
            Dec::Local(_, _, _) => {}
            Dec::Opens(_, _) => {}
            Dec::Fix(_, _, _, _) => {}
            Dec::Nonfix(_, _) => {}
            Dec::Abs(_, _, _, _) => {}
        }
    }
}

/// Clause, a clause of a function (the Definition, figure 17).
#[cycle(exp)]
pub enum Clause {
    /// `f p q : t = e`, `op f p q : t = e`
    Prefix(Place, bool, Ident, List<AtPat>, Option<Ty>, Exp),
    /// `p ++ q : t = e`
    Mid(Place, AtPat, Ident, AtPat, Option<Ty>, Exp),
    /// `(p ++ q) r s : t = e`
    MidMore(Place, AtPat, Ident, AtPat, List<AtPat>, Option<Ty>, Exp),
}

impl Drop for Clause {
    #[cycle(exp_drop)]
    fn drop(self) {
        match self {
            Clause::Prefix(_, _, _, _, _, _) => {}
            Clause::Mid(_, _, _, _, _, _) => {}
            Clause::MidMore(_, _, _, _, _, _, _) => {}
        }
    }
}
