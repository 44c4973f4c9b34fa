//! The trees of Standard ML, with derived forms and without, and their height.
//!
//! Source: the grammar of the Definition, figures 3 to 8 and 15 to 19. Result: an enum for each nonterminal, with a variant
//! for each alternative; the place of its first token is each node's first field.
//! Rule: a row is a `List`, empty where an optional one is not there; an optional part is an `Option`, an optional word a
//! `bool`. Under `Bare` stand the trees without derived forms.
//! Main contract: `height` is the number of nodes on the longest way down. Each type has a `drop` of its own, so that a
//! function of a layer above that drops a tree calls it; `release` lets go of a whole program in a loop.
//! Knows nothing of: tokens, fixities, scopes, types.
#![tactic(auto)]

mod bare_data;
mod bare_exp;
mod bare_pat;
mod bare_program;
mod bare_sig;
mod bare_ty;
mod data;
mod exp;
mod height_data;
mod height_exp;
mod height_pat;
mod height_program;
mod height_sig;
mod height_ty;
mod name;
mod pat;
mod program;
mod release;
mod sig;
mod ty;

pub use bare_data::{BareDatBind, BareDatDesc, BareExBind, BareTyBind};
pub use bare_exp::{BareAtExp, BareDec, BareExp, BareRule};
pub use bare_pat::{BareAtPat, BarePField, BarePat};
pub use bare_program::{
    BareFunBind, BareProgram, BareSigBind, BareStrBind, BareStrDec, BareStrExp, BareTop,
};
pub use bare_sig::{BareAscribe, BareSigExp, BareSpec};
pub use bare_ty::BareTy;
pub use data::{DatBind, DatDesc, ExBind, TyBind};
pub use exp::{AtExp, Clause, Dec, Exp, Rule};
pub use height_program::height;
pub use name::{Ident, Lab, Label, LongIdent, Tyvars};
pub use pat::{AtPat, PField, Pat};
pub use program::{FunBind, Program, SigBind, StrBind, StrDec, StrExp, Top};
pub use sig::{Ascribe, SigExp, Spec};
pub use ty::Ty;
