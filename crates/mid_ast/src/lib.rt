//! The typed tree between elaboration and printing: expressions, declarations, structures and units with every type,
//! binder and path written out.
//!
//! Source: what elaboration accepts. Result: one tree language, which the passes from elaboration to the text hand on.
//! Rule: the bare language of the Definition, chapters 2 and 3, with the types of chapters 4 and 5 at each node.
//! Main contract: `expressions_are_seen`: the plain tree, of which definitions speak, has the same parts in the same order.
//! Knows nothing of: how types are found, how anything is evaluated or written.
#![tactic(auto)]

mod dict;
mod exp;
mod item;
mod laws;

pub use dict::Dict;
pub use exp::{MidBind, MidDec, MidExp, MidRule};
pub use item::{Coercion, MidItem, MidMod, MidUnit};
pub use laws::{
    declarations_are_seen, expressions_are_seen, places_are_not_seen, structures_are_seen,
};
