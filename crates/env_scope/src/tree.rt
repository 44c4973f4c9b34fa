//! The tree that leads from a name to its newest binding.

use env_arena::{StrNode, TyNode, ValNode};

/// What a scope binds to one name, in each class.
#[derive(Clone, Copy)]
pub struct Binding<'a> {
    pub name: &'a [u8],
    pub val: Option<&'a ValNode<'a>>,
    pub tycon: Option<&'a TyNode<'a>>,
    pub str: Option<&'a StrNode<'a>>,
}

/// Bindings by the bits of their names' numbers, the lowest bit first.
#[derive(Clone, Copy)]
pub enum Tree<'a> {
    /// Nothing.
    Empty,
    /// A binding, and those whose names have the same bits.
    One(&'a Binding<'a>, &'a Tree<'a>),
    /// The bindings whose next bit is 0, and those whose next bit is 1.
    Fork(&'a Tree<'a>, &'a Tree<'a>),
}
