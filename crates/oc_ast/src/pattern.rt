use crate::OcLit;
use tl_text::{Boxed, List, Name, Path};

/// A pattern (the manual, section 11.6).
#[cycle(patterns)]
pub enum Pat {
    /// `x`, a pattern that needs no parentheses.
    PAt(APat),
    /// `A x`.
    PBuild(Path, Boxed<APat>),
    /// `x :: l`.
    PCons(Boxed<APat>, Boxed<APat>),
    /// `(x, y) as z`.
    PAs(Boxed<APat>, Name),
}

impl Drop for Pat {
    #[cycle(patterns)]
    fn drop(self) {
        match self {
            Pat::PAt(_) => {}
            Pat::PBuild(_, _) => {}
            Pat::PCons(_, _) => {}
            Pat::PAs(_, _) => {}
        }
    }
}

/// A pattern that may stand as an argument.
#[cycle(patterns)]
pub enum APat {
    /// `_`.
    Any,
    /// `x`.
    PVar(Name),
    /// `5`, `'c'`, `"s"`.
    PConst(OcLit),
    /// `A`, `M.A`, `true`.
    PCon(Path),
    /// `()`.
    PUnit,
    /// `(A x)`.
    PParen(Boxed<Pat>),
    /// `(x, y)`. The row has one pattern at least.
    PTuple(Boxed<APat>, List<APat>),
    /// `[]`.
    PNil,
    /// `{contents = x}`, a reference of which the pattern takes the content.
    PCell(Boxed<Pat>),
}

impl Drop for APat {
    #[cycle(patterns)]
    fn drop(self) {
        match self {
            APat::Any => {}
            APat::PVar(_) => {}
            APat::PConst(_) => {}
            APat::PCon(_) => {}
            APat::PUnit => {}
            APat::PParen(_) => {}
            APat::PTuple(_, _) => {}
            APat::PNil => {}
            APat::PCell(_) => {}
        }
    }
}
