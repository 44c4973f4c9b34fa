use readers::Fixity;
use tl_text::{Boxed, Name, Place};

/// A part of a row: an identifier where `vid` is one, else an atom of another kind; and its place in the source.
#[derive(Drop)]
pub struct Part {
    pub vid: Option<Name>,
    pub place: Place,
}

/// How a row groups. The numbers are places in the row, from 0.
#[derive(Drop)]
pub enum Group {
    /// Atoms, from the first place to before the second.
    Apply(u32, u32),
    /// An operator between what it binds.
    Op(u32, Boxed<Group>, Boxed<Group>),
}

/// An operator of a row: its place there, and its fixity.
#[derive(Clone, Copy)]
pub struct Operator {
    pub number: u32,
    pub fixity: Fixity,
}

/// A part as it is grouped: its place in the row, its fixity where it is an operator, and its place in the source.
#[derive(Clone, Copy)]
pub struct Cell {
    pub number: u32,
    pub op: Option<Fixity>,
    pub place: Place,
}

/// A group with the operator at its top and its height.
#[derive(Drop)]
pub struct Grown {
    pub group: Group,
    pub top: Option<Operator>,
    pub height: u32,
}
