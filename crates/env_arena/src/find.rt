//! What a node binds to a name, in the node itself or in those under it.

ghost use Rattle.std.specs.Prelude.{◌≡◌, option_map};
ghost use Rattle.sml_static.specs.Lookups.{last_named};
ghost use Rattle.sml_static.specs.declared.env.Env.{out-Env};
ghost use Rattle.env_arena.specs.Spelling.{spelled, spelled_val, spelled_tycon, spelled_str};

use crate::node::{EnvNode, StrNode, TyNode, ValNode};
use crate::row::last_of;

// The value of that name.
#[tactic(auto, using(crate::proofs::Levels::val_level))]
pub fn find_val<'a>(node: &EnvNode<'a>, name: &[u8]) -> Option<ValNode<'a>>
    ensures { option_map spelled_val result
        ≡ last_named (λ v. v.0) name.now (out-Env (spelled node.now)).vals }
{
    let mut level = *node;
    loop {
        if let Some(val) = last_of(level.vals, name) {
            return Some(val);
        }
        match level.under {
            Some(under) => level = *under,
            None => return None,
        }
    }
}

// The type constructor of that name.
#[tactic(auto, using(crate::proofs::Levels::tycon_level))]
pub fn find_tycon<'a>(node: &EnvNode<'a>, name: &[u8]) -> Option<TyNode<'a>>
    ensures { option_map spelled_tycon result
        ≡ last_named (λ t. t.0) name.now (out-Env (spelled node.now)).tycons }
{
    let mut level = *node;
    loop {
        if let Some(tycon) = last_of(level.tycons, name) {
            return Some(tycon);
        }
        match level.under {
            Some(under) => level = *under,
            None => return None,
        }
    }
}

// The structure of that name.
#[tactic(auto, using(crate::proofs::Levels::str_level))]
pub fn find_str<'a>(node: &EnvNode<'a>, name: &[u8]) -> Option<StrNode<'a>>
    ensures { option_map spelled_str result
        ≡ last_named (λ s. s.0) name.now (out-Env (spelled node.now)).strs }
{
    let mut level = *node;
    loop {
        if let Some(str) = last_of(level.strs, name) {
            return Some(str);
        }
        match level.under {
            Some(under) => level = *under,
            None => return None,
        }
    }
}
