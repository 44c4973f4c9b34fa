use crate::ty::{Label, Ty, TyName};
use tl_text::{Boxed, List, Lit, Name, Path};

/// A pattern of the typed language, with the types that it needs (the Definition, section 2.8).
#[cycle(mid_pat)]
pub enum MidPat {
    /// `_`
    Any(Ty),
    /// A literal.
    Lit(Lit),
    /// A variable: its binder, the identifier, and its type.
    Var(u32, Name, Ty),
    /// A constructor or an exception, with its type, how many constructors its datatype has (0 for an
    /// exception), and the pattern of its argument.
    Con(Path, Ty, u32, Option<Boxed<MidPat>>),
    /// A record with all its fields, in the order of the labels.
    Tuple(List<MidPat>),
    /// `x as pat`
    Layer(u32, Name, Boxed<MidPat>),
    /// `ref pat`
    Cell(Boxed<MidPat>),
    /// `{lab = pat, .., ...}`, where the other labels are not known yet, and its type.
    Flex(List<(Label, MidPat)>, Ty),
}

impl Drop for MidPat {
    #[cycle(mid_pat_drop)]
    fn drop(self) {
        match self {
            MidPat::Any(_) => {}
            MidPat::Lit(_) => {}
            MidPat::Var(_, _, _) => {}
            MidPat::Con(_, _, _, _) => {}
            MidPat::Tuple(_) => {}
            MidPat::Layer(_, _, _) => {}
            MidPat::Cell(_) => {}
            MidPat::Flex(_, _) => {}
        }
    }
}

/// A datatype: where it stands, its type name, and its constructors with the types of their arguments,
/// where `Bound(i)` is the datatype's parameter at place i.
pub struct MidData {
    pub path: Path,
    pub name: TyName,
    pub cons: List<(Name, Option<Ty>)>,
}

impl Drop for MidData {
    fn drop(self) {
        let MidData {
            path: _,
            name: _,
            cons: _,
        } = self;
    }
}
