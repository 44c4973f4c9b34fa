use crate::tree::Tree;
use env_arena::EnvNode;

/// An environment with an index of its names. `IsIndexed` of `specs/Scopes.antt` says that the index finds
/// what the environment binds; each call gives such a scope, and needs one.
#[derive(Clone, Copy)]
pub struct Scope<'a> {
    pub env: &'a EnvNode<'a>,
    pub index: Tree<'a>,
}
