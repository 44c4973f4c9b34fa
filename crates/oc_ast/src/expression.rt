use crate::{APat, ATy, MSig, OTy, OcLit, Pat, Rest, TDef};
use tl_text::{Boxed, List, Name, Path};

/// A whole text (the manual, section 11.11: the definitions of a structure).
pub enum Text {
    /// The items, one after another.
    All(List<Item>),
}

impl Drop for Text {
    fn drop(self) {
        match self {
            Text::All(_) => {}
        }
    }
}

/// An item of a structure or of a text.
#[cycle(expressions)]
pub enum Item {
    /// `let p = e`.
    Let(Pat, Simple),
    /// `let rec f = fun .. and g = fun ..`. The row has one binding at least.
    LetRec(List<RBind>),
    /// `type t = .. and u = ..`. The row has one definition at least.
    Types(List<TDef>),
    /// `exception E`, `exception E of t`.
    Exn(Name, Option<ATy>),
    /// `exception E = M.F`.
    ExnAs(Name, Path),
    /// `module M = ..`.
    Module(Name, Boxed<MExp>),
    /// `module M : sig .. end = ..`.
    Sealed(Name, MSig, Boxed<MExp>),
    /// `module F_F (X : sig .. end) () = ..`.
    Functor(Name, Name, MSig, Boxed<MExp>),
}

impl Drop for Item {
    #[cycle(expressions)]
    fn drop(self) {
        match self {
            Item::Let(_, _) => {}
            Item::LetRec(_) => {}
            Item::Types(_) => {}
            Item::Exn(_, _) => {}
            Item::ExnAs(_, _) => {}
            Item::Module(_, _) => {}
            Item::Sealed(_, _, _) => {}
            Item::Functor(_, _, _, _) => {}
        }
    }
}

/// A recursive binding. Its right side is a `Fun`.
#[cycle(expressions)]
pub enum RBind {
    /// `f = fun ..`.
    Plain(Name, Simple),
    /// `f : 'a 'b . t = fun ..`. The row has one type variable at least.
    Poly(Name, List<Name>, OTy, Simple),
}

impl Drop for RBind {
    #[cycle(expressions)]
    fn drop(self) {
        match self {
            RBind::Plain(_, _) => {}
            RBind::Poly(_, _, _, _) => {}
        }
    }
}

/// A module expression (the manual, section 11.11).
#[cycle(expressions)]
pub enum MExp {
    /// `M.N`.
    MAt(Path),
    /// `struct .. end`.
    Struct(List<Item>),
    /// `F_F (M) ()`.
    Apply(Path, Path),
    /// `(M : sig .. end)`.
    MSeal(Boxed<MExp>, MSig),
}

impl Drop for MExp {
    #[cycle(expressions)]
    fn drop(self) {
        match self {
            MExp::MAt(_) => {}
            MExp::Struct(_) => {}
            MExp::Apply(_, _) => {}
            MExp::MSeal(_, _) => {}
        }
    }
}

/// An expression with at most one thing to do (the manual, section 11.7).
#[cycle(expressions)]
#[derive(Drop)]
pub enum Simple {
    /// `x`, an expression that needs no parentheses.
    One(Atom),
    /// `f x`. The first is no `Con`.
    Call(Boxed<Atom>, Boxed<Atom>),
    /// `A x`.
    Build(Path, Boxed<Atom>),
    /// `a + b`. The operator stands between the two, as in the text.
    Oper(Boxed<Atom>, Name, Boxed<Atom>),
    /// `fun p -> e`.
    Fun(Boxed<APat>, Rest),
}

/// An expression.
#[cycle(expressions)]
#[derive(Drop)]
pub enum Full {
    /// `f x`.
    Is(Simple),
    /// `let p = e in f`.
    LetIn(Boxed<Pat>, Boxed<Simple>, Rest),
    /// `let rec f = fun .. and g = fun .. in e`. The row has one binding at least.
    LetRecIn(List<RBind>, Rest),
    /// `let module M = struct .. end in e`.
    LetMod(Name, List<Item>, Rest),
    /// `let exception E of t in e`.
    LetExn(Name, Option<ATy>, Rest),
    /// `if a then b else c`.
    If(Boxed<Atom>, Boxed<Atom>, Boxed<Atom>),
    /// `match a with | p -> b | q -> c`. The row has one arm at least.
    Match(Boxed<Atom>, List<(Pat, Atom)>),
    /// `try a with | p -> b | q -> c`. The row has one arm at least.
    Try(Boxed<Atom>, List<(Pat, Atom)>),
    /// `while a do e done`.
    While(Boxed<Atom>, Boxed<Full>),
    /// `a ; e`.
    Then(Boxed<Atom>, Rest),
}

/// An expression that may stand as an argument.
#[cycle(expressions)]
pub enum Atom {
    /// `5`, `(-5)`, `'c'`, `"s"`.
    Const(OcLit),
    /// `x`, `M.x`; the path of the one name `!` is written `(!)`.
    Val(Path),
    /// `A`, `M.A`, `true`.
    Con(Path),
    /// `()`.
    Unit,
    /// `(e)`. It holds no bare atom.
    Paren(Boxed<Full>),
    /// `(a, b)`. The row has one expression at least.
    Tuple(Boxed<Atom>, List<Atom>),
    /// `[]`, `[a; b]`.
    Items(List<Atom>),
}

impl Drop for Atom {
    #[cycle(expressions)]
    fn drop(self) {
        match self {
            Atom::Const(_) => {}
            Atom::Val(_) => {}
            Atom::Con(_) => {}
            Atom::Unit => {}
            Atom::Paren(_) => {}
            Atom::Tuple(_, _) => {}
            Atom::Items(_) => {}
        }
    }
}
