use crate::{ATy, OTy, TDef};
use tl_text::{Boxed, List, Name};

/// A signature (the manual, section 11.10).
#[cycle(signatures)]
pub enum MSig {
    /// `sig .. end`.
    Sig(List<SItem>),
}

impl Drop for MSig {
    #[cycle(signatures)]
    fn drop(self) {
        match self {
            MSig::Sig(_) => {}
        }
    }
}

/// An item of a signature.
#[cycle(signatures)]
pub enum SItem {
    /// `val x : t`.
    SVal(Name, OTy),
    /// `type t = int and u = A | B`.
    STypes(List<TDef>),
    /// `type 'a t`, an abstract type.
    SAbs(List<Name>, Name),
    /// `exception E`, `exception E of t`.
    SExn(Name, Option<ATy>),
    /// `module M : sig .. end`.
    SModule(Name, Boxed<MSig>),
}

impl Drop for SItem {
    #[cycle(signatures)]
    fn drop(self) {
        match self {
            SItem::SVal(_, _) => {}
            SItem::STypes(_) => {}
            SItem::SAbs(_, _) => {}
            SItem::SExn(_, _) => {}
            SItem::SModule(_, _) => {}
        }
    }
}
