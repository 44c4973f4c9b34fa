//! A clause of a function with its parts derived.

use sml_ast::{BareAtPat, BareExp, BareTy, Ident};
use tl_text::{List, Place};

/// A clause whose parts have no derived forms any more.
#[derive(Drop)]
pub struct BareClause {
    /// Its first token.
    pub place: Place,
    /// Whether `op` stands before the name, or would if the name stood first.
    pub op: bool,
    /// The name of the function.
    pub name: Ident,
    /// The two sides of the name where it is written between them. They are one argument, which comes first.
    pub pair: Option<(BareAtPat, BareAtPat)>,
    /// The arguments after the name.
    pub args: List<BareAtPat>,
    /// The type of the body, where one is written.
    pub ty: Option<BareTy>,
    /// The body.
    pub body: BareExp,
}
