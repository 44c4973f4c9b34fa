//! What form alone forbids in types, patterns and bindings of types.
//!
//! Source: `Ty`, `Pat`, `TyBind`, `DatBind`, `DatDesc`, `ExBind`. Result: the breach that stands first.
//! Rule: the Definition, sections 2.9 and 3.5; names twice, names that may not be bound, type variables out of scope.
//! Main contract: each function gives the first of a breach found before and the breaches of its argument.
//! Knows nothing of: expressions, structures.
#![tactic(auto)]

mod bindings;
mod breach;
mod descs;
mod fixed;
mod named;
mod pat;
mod ty;

pub use bindings::{check_closed, check_datas, check_exns, check_types};
pub use breach::add;
pub use descs::check_descs;
pub use fixed::{check_con_name, check_name, check_name_at, same_name};
pub use named::{Named, check_again, check_twice};
pub use pat::{
    check_at_pat, check_at_pats, check_pat, occurs_in_at_pat, occurs_in_at_pats, occurs_in_pat,
    variable_of,
};
pub use ty::{
    check_labels, check_opt_ty, check_ty, check_unbound, has_name, occurs_in_opt_ty, occurs_in_ty,
};
