//! Types, patterns and bindings of types without derived forms.
//!
//! Source: `Ty`, `AtPat`, `PField`, `Pat`, `TyBind`, `DatBind`, `DatDesc`, `ExBind`. Result: their `Bare` trees.
//! Rule: the Definition, appendix A, figures 15 to 17. What is taken over keeps its place; what is new has the form's.
//! Main contract: each function gives the tree that `specs/` folds from its argument, which it leaves as it is.
//! Knows nothing of: expressions, structures, which sources are lawful.
#![tactic(auto)]

mod bindings;
mod copy;
mod fill;
mod pat;
mod room;
mod ty;
mod withtype;

pub use bindings::{
    derive_dat_binds, derive_dat_descs, derive_described, derive_ex_binds, derive_ty_binds,
};
pub use copy::{
    copy_ident, copy_idents, copy_label, copy_lit, copy_long, copy_longs, copy_name, fresh, long_of,
};
pub use pat::{derive_at_pat, derive_pat, variable};
pub use ty::{derive_opt_ty, derive_ty};
pub use withtype::expand_dat_binds;
