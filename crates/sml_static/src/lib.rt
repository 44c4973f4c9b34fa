//! Types, environments and patterns of the typed language, as the passes hand them to one another.
//!
//! Source: nothing but names. Result: the static objects that elaboration makes and the later passes read.
//! Rule: the Definition, section 4.2 and 5.1: types, type functions, schemes, environments, realisations.
//! Main contract: `realise_ty`: a realisation replaces type names by type functions everywhere in a type.
//! Knows nothing of: expressions, unification, memory of environments, how a type is found.
#![tactic(auto)]

mod apply;
mod copy;
mod env;
mod mid;
mod realise;
mod ty;

pub use apply::apply_ty;
pub use copy::{copy_label, copy_ty};
pub use env::{Class, Env, FunSig, Realisation, Sig, Stamps, Status};
pub use mid::{MidData, MidPat};
pub use realise::realise_ty;
pub use ty::{Label, Scheme, Ty, TyFun, TyName, VarKind};
