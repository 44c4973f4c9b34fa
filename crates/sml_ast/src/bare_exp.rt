//! Expressions and declarations without derived forms.

use crate::bare_data::{BareDatBind, BareExBind, BareTyBind};
use crate::bare_pat::BarePat;
use crate::bare_ty::BareTy;
use crate::name::{Ident, Label, LongIdent, Tyvars};
use crate::release::{Part, Pile};
use tl_text::{Boxed, List, Lit, Place};

/// An atomic expression without derived forms.
#[cycle(bare_exp)]
pub enum BareAtExp {
    /// `1`
    Lit(Place, Lit),
    /// `x`, `op x`
    Id(Place, bool, LongIdent),
    /// `{a = e, b = f}`
    Fields(Place, List<(Label, BareExp)>),
    /// A row that stands for `(e :: .. :: f :: nil)`, so that no tree is as deep as a list is long.
    Row(Place, List<BareExp>),
    /// A row that stands for `((fn _ => .. (fn _ => g) f ..) e)`, where each is evaluated and the last is the value.
    Seq(Place, Boxed<BareExp>, List<BareExp>),
    /// `let d in e end`
    Let(Place, List<BareDec>, Boxed<BareExp>),
    /// `(e)`
    Paren(Place, Boxed<BareExp>),
}

impl Drop for BareAtExp {
    #[cycle(bare_exp_drop)]
    fn drop(self) {
        match self {
            BareAtExp::Lit(_, _) => {}
            BareAtExp::Id(_, _, _) => {}
            BareAtExp::Fields(_, _) => {}
            BareAtExp::Row(_, _) => {}
            BareAtExp::Seq(_, _, _) => {}
            BareAtExp::Let(_, _, _) => {}
            BareAtExp::Paren(_, _) => {}
        }
    }
}

impl BareAtExp {
    /// Keeps what it is made of, to be let go of later.
    pub fn scatter(self, pile: &mut Pile) {
        match self {
            BareAtExp::Lit(_, _) => {}
            BareAtExp::Id(_, _, _) => {}
            BareAtExp::Fields(_, row) => pile.keep(Part::Fields(row.into_vec())),
            BareAtExp::Row(_, row) => pile.keep(Part::Expressions(row.into_vec())),
            BareAtExp::Seq(_, first, row) => {
                pile.keep(Part::Expression(first));
                pile.keep(Part::Expressions(row.into_vec()));
            }
            BareAtExp::Let(_, row, inner) => {
                pile.keep(Part::Expression(inner));
                pile.keep(Part::Declarations(row.into_vec()));
            }
            BareAtExp::Paren(_, inner) => pile.keep(Part::Expression(inner)),
        }
    }
}

/// An expression without derived forms.
#[cycle(bare_exp)]
pub enum BareExp {
    /// `e f g`, one or more.
    Apply(Place, List<BareAtExp>),
    /// `e + f`
    Infix(Place, Boxed<BareExp>, Ident, Boxed<BareExp>),
    /// `e : t`
    Typed(Place, Boxed<BareExp>, BareTy),
    /// `e handle p => f | q => g`
    Handle(Place, Boxed<BareExp>, List<BareRule>),
    /// `raise e`
    Raise(Place, Boxed<BareExp>),
    /// `fn p => e | q => f`
    Fn(Place, List<BareRule>),
    /// A row that stands for `fn v => .. fn w => e`, one function in another.
    Curried(Place, List<Ident>, Boxed<BareExp>),
}

impl Drop for BareExp {
    #[cycle(bare_exp_drop)]
    fn drop(self) {
        match self {
            BareExp::Apply(_, _) => {}
            BareExp::Infix(_, _, _, _) => {}
            BareExp::Typed(_, _, _) => {}
            BareExp::Handle(_, _, _) => {}
            BareExp::Raise(_, _) => {}
            BareExp::Fn(_, _) => {}
            BareExp::Curried(_, _, _) => {}
        }
    }
}

impl BareExp {
    /// Keeps what it is made of, to be let go of later.
    pub fn scatter(self, pile: &mut Pile) {
        match self {
            BareExp::Apply(_, row) => pile.keep(Part::Atoms(row.into_vec())),
            BareExp::Infix(_, left, _, right) => {
                pile.keep(Part::Expression(left));
                pile.keep(Part::Expression(right));
            }
            BareExp::Typed(_, inner, _) => pile.keep(Part::Expression(inner)),
            BareExp::Handle(_, inner, rules) => {
                pile.keep(Part::Expression(inner));
                pile.keep(Part::Rules(rules.into_vec()));
            }
            BareExp::Raise(_, inner) => pile.keep(Part::Expression(inner)),
            BareExp::Fn(_, rules) => pile.keep(Part::Rules(rules.into_vec())),
            BareExp::Curried(_, _, inner) => pile.keep(Part::Expression(inner)),
        }
    }
}

/// A rule of a match without derived forms.
#[cycle(bare_exp)]
pub enum BareRule {
    /// `p => e`
    Arm(Place, BarePat, BareExp),
}

impl Drop for BareRule {
    #[cycle(bare_exp_drop)]
    fn drop(self) {
        match self {
            BareRule::Arm(_, _, _) => {}
        }
    }
}

impl BareRule {
    /// Keeps what it is made of, to be let go of later.
    pub fn scatter(self, pile: &mut Pile) {
        match self {
            BareRule::Arm(_, _, inner) => inner.scatter(pile),
        }
    }
}

/// A declaration without derived forms.
#[cycle(bare_exp)]
pub enum BareDec {
    /// `val 'a rec p = e and q = f`
    Vals(Place, Tyvars, bool, List<(BarePat, BareExp)>),
    /// `type 'a t = u and v = w`
    Types(Place, List<BareTyBind>),
    /// `datatype 'a t = C of u | D and v = E`
    Datas(Place, List<BareDatBind>),
    /// `datatype t = datatype u`
    Copy(Place, Ident, LongIdent),
    /// `exception E of t and F = G`
    Exns(Place, List<BareExBind>),
    /// `local d in e end`
    Local(Place, List<BareDec>, List<BareDec>),
    /// `open S T`
    Opens(Place, List<LongIdent>),
    /// `infix 3 ++`, `infixr 3 ++`
    Fix(Place, bool, Option<u8>, List<Ident>),
    /// `nonfix ++`
    Nonfix(Place, List<Ident>),
    /// `abstype 'a t = C of u with d end`
    Abs(Place, List<BareDatBind>, List<BareDec>),
}

impl Drop for BareDec {
    #[cycle(bare_exp_drop)]
    fn drop(self) {
        match self {
            BareDec::Vals(_, _, _, _) => {}
            BareDec::Types(_, _) => {}
            BareDec::Datas(_, _) => {}
            BareDec::Copy(_, _, _) => {}
            BareDec::Exns(_, _) => {}
            BareDec::Local(_, _, _) => {}
            BareDec::Opens(_, _) => {}
            BareDec::Fix(_, _, _, _) => {}
            BareDec::Nonfix(_, _) => {}
            BareDec::Abs(_, _, _) => {}
        }
    }
}

impl BareDec {
    /// Keeps what it is made of, to be let go of later.
    pub fn scatter(self, pile: &mut Pile) {
        match self {
            BareDec::Vals(_, _, _, row) => pile.keep(Part::Bindings(row.into_vec())),
            BareDec::Local(_, hidden, row) => {
                pile.keep(Part::Declarations(hidden.into_vec()));
                pile.keep(Part::Declarations(row.into_vec()));
            }
            BareDec::Abs(_, _, row) => pile.keep(Part::Declarations(row.into_vec())),
            BareDec::Types(_, _) => {}
            BareDec::Datas(_, _) => {}
            BareDec::Copy(_, _, _) => {}
            BareDec::Exns(_, _) => {}
            BareDec::Opens(_, _) => {}
            BareDec::Fix(_, _, _, _) => {}
            BareDec::Nonfix(_, _) => {}
        }
    }
}
