//! How a text of the OCaml subset is laid out, as a definition, and that its layout reads as its tree.
//!
//! Source: plain trees of oc_ast. Result: `Layout` of `specs/Layout.antt`, the bytes of a tree.
//! Rule: the layout is this project's own; its tokens are those of oc_rules.
//! Main contract: none, the crate has no calls; oc_print cites what stands here.
//! Knows nothing of: types, scopes, what a text does.
#![tactic(auto)]
