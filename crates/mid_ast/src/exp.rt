use crate::dict::Dict;
use sml_static::{MidData, MidPat, Ty, TyFun, VarKind};
use tl_text::{Boxed, List, Lit, Path, Place};

/// An expression (the Definition, section 2.8) with its types.
///
/// Inside a `MidBind` the type `Bound(i)` is the variable at place i of the `vars` of the bindings round it and then of
/// its own, the outermost first.
#[cycle(mid_exp)]
#[derive(Drop)]
pub enum MidExp {
    /// A literal.
    Lit(Lit),
    /// A variable that is bound inside the declaration: its binder's number, the type of this use, and the dictionaries
    /// that the use is given, one for each equality variable of the binder's scheme, in the order of the scheme.
    Local(u32, Ty, List<Dict>),
    /// A variable at structure level, by its path, with the same. Before the homes are placed the path is read from
    /// where it stands and means the last binding of that path in scope; after it the path is the written one.
    Home(Path, Ty, List<Dict>),
    /// A constructor or an exception, by its path, and the type of this use, `ty -> ty` where it takes an argument.
    Con(Path, Ty),
    /// A value of the initial basis, by the number of its row, and the type of this use. The row of dictionaries is
    /// empty, but that after equality is made explicit `=` and `<>` have the one of the type compared, where that is
    /// none of int, word, char, string and references.
    Prim(u32, Ty, List<Dict>),
    /// `{lab = exp, ..}`, its fields in the order of the labels; they are evaluated from left to right.
    Tuple(List<MidExp>),
    /// `exp atexp`
    Apply(Boxed<MidExp>, Boxed<MidExp>),
    /// `fn match`: its rules in order, the types of its argument and of its result, and the place where a note on it
    /// stands. A rule is there.
    Fun(List<MidRule>, Ty, Ty, Place),
    /// `raise exp`, and the type that the whole has.
    Raise(Boxed<MidExp>, Ty),
    /// `exp handle match`: what no rule takes is raised again.
    Handle(Boxed<MidExp>, List<MidRule>),
    /// `let dec in exp end`. The type of the whole has no type name that is made inside.
    Let(List<MidDec>, Boxed<MidExp>),
}

/// A rule of a match, `pat => exp`. The place is that of the first token of the rule, or of the clause that it stands
/// for.
#[cycle(mid_exp)]
#[derive(Drop)]
pub struct MidRule {
    pub pat: MidPat,
    pub exp: MidExp,
    pub place: Place,
}

/// A declaration (the Definition, section 2.8).
///
/// A type, constructor or exception that is made by the translator, or that a `local` or a structure's `let` hides, has
/// a path whose first part begins with a digit.
#[cycle(mid_exp)]
#[derive(Drop)]
pub enum MidDec {
    /// `val pat = exp and ..`: each right side is evaluated and matched before the next; all names are bound together.
    Vals(List<MidBind>),
    /// `val rec pat = exp and ..`: each pattern is one variable, and each right side a function.
    Funs(List<MidBind>),
    /// `datatype .. and ..`, or a copy of one, which has the type name of the first and the same constructors.
    Datas(List<MidData>),
    /// `type tyvarseq tycon = ty`
    Alias(Path, TyFun),
    /// `exception excon` or `exception excon of ty`. The type has no type variable.
    NewExn(Path, Option<Ty>),
    /// `exception excon = longexcon`: the new path, and the one that it stands for.
    SameExn(Path, Path),
}

/// A binding, `pat = exp`, with the type variables over which its variables' schemes are generalised. Where there are
/// such variables the right side is not expansive (the Definition, section 4.7). The place is that of the pattern.
///
/// The number of a binder is its own in the unit; in what elaboration of one declaration gives, its own in the
/// declaration. The name in a `Var` or a `Layer` is the identifier that it binds. It is empty where the translator makes
/// the binder, or where a `local` or a structure's `let` hides it; it is `=` and the type name's number in decimal digits
/// where the binder is the equality function of that type name. After the homes are placed the name of each binder at
/// structure level is the written one.
#[cycle(mid_exp)]
#[derive(Drop)]
pub struct MidBind {
    pub pat: MidPat,
    pub vars: List<VarKind>,
    pub exp: MidExp,
    pub place: Place,
}
