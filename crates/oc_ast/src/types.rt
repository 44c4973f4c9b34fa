use tl_text::{Boxed, List, Name, Path};

/// A type (the manual, section 11.4).
#[cycle(types)]
pub enum OTy {
    /// `int`, a type that needs no parentheses.
    TAt(ATy),
    /// `'a -> t`. The parts stand in this order.
    TArrow(Boxed<ATy>, Boxed<OTy>),
    /// `int * string`. The row has one type at least.
    TTuple(Boxed<ATy>, List<ATy>),
}

impl Drop for OTy {
    #[cycle(types)]
    fn drop(self) {
        match self {
            OTy::TAt(_) => {}
            OTy::TArrow(_, _) => {}
            OTy::TTuple(_, _) => {}
        }
    }
}

/// A type that may stand as an argument.
#[cycle(types)]
pub enum ATy {
    /// `'a`. The name has the quote.
    TVar(Name),
    /// `t`, `'a list`, `(int * int, 'a) M.t`. Several arguments stand in parentheses with commas; a
    /// single one has none, and is a `TAt`.
    TCon(List<OTy>, Path),
    /// `(t)`.
    TParen(Boxed<OTy>),
}

impl Drop for ATy {
    #[cycle(types)]
    fn drop(self) {
        match self {
            ATy::TVar(_) => {}
            ATy::TCon(_, _) => {}
            ATy::TParen(_) => {}
        }
    }
}

/// The definition of one type (the manual, section 11.8.1). The first field is the type variables,
/// with their quotes; one stands bare, several stand in parentheses with commas.
pub enum TDef {
    /// `'a t = 'a list`.
    Alias(List<Name>, Name, OTy),
    /// `'a t = A | B of 'a`, and with a manifest `'a t = 'a M.t = A | B of 'a`. The row has one
    /// constructor at least.
    Variant(List<Name>, Name, Option<OTy>, List<(Name, Option<ATy>)>),
}

impl Drop for TDef {
    fn drop(self) {
        match self {
            TDef::Alias(_, _, _) => {}
            TDef::Variant(_, _, _, _) => {}
        }
    }
}
