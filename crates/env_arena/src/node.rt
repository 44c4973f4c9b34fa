//! The nodes. A node stands for what it spells, as `specs/Spelling.antt` says.

use sml_static::{Status, TyName, VarKind};

/// A type without variables that are still to be found.
#[cycle(type_node)]
#[derive(Clone, Copy)]
pub enum TypeNode<'a> {
    /// The variable at that place of what binds it.
    Bound(u32),
    /// `{lab: ty, ..}`, in the order of the labels.
    Fields(&'a [FieldNode<'a>]),
    /// `ty -> ty`
    Arrow(&'a TypeNode<'a>, &'a TypeNode<'a>),
    /// `(ty, ..) t`
    Con(TyName, &'a [TypeNode<'a>]),
}

/// A field of a record type. Its label is the number, or `word` where the number is 0.
#[cycle(type_node)]
#[derive(Clone, Copy)]
pub struct FieldNode<'a> {
    pub num: u32,
    pub word: &'a [u8],
    pub ty: &'a TypeNode<'a>,
}

/// An identifier of a value, with its status and its type scheme.
#[derive(Clone, Copy)]
pub struct ValNode<'a> {
    pub name: &'a [u8],
    pub status: Status,
    pub kinds: &'a [VarKind],
    pub body: &'a TypeNode<'a>,
}

/// A type constructor, with its type function and its data constructors.
#[derive(Clone, Copy)]
pub struct TyNode<'a> {
    pub name: &'a [u8],
    pub arity: u32,
    pub body: &'a TypeNode<'a>,
    pub cons: &'a [ValNode<'a>],
}

/// A structure identifier, with its environment.
#[cycle(env_node)]
#[derive(Clone, Copy)]
pub struct StrNode<'a> {
    pub name: &'a [u8],
    pub env: &'a EnvNode<'a>,
}

/// An environment: the components of the one under it whose names the node does not bind in their class,
/// and then the node's own.
#[cycle(env_node)]
#[derive(Clone, Copy)]
pub struct EnvNode<'a> {
    pub under: Option<&'a EnvNode<'a>>,
    pub vals: &'a [ValNode<'a>],
    pub tycons: &'a [TyNode<'a>],
    pub strs: &'a [StrNode<'a>],
}

/// A signature: an environment and the type names that it binds.
#[derive(Clone, Copy)]
pub struct SigNode<'a> {
    pub bound: &'a [TyName],
    pub env: &'a EnvNode<'a>,
}
