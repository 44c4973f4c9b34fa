//! Look-ups of long identifiers.

ghost use Rattle.std.specs.Prelude.{◌≡◌, Some, option_map};
ghost use Rattle.sml_static.specs.Lookups.{val_at, tycon_at, str_at};
ghost use Rattle.env_arena.specs.Paths.{env_along, place_of};
ghost use Rattle.env_arena.specs.Spelling.{spelled, spelled_val, spelled_tycon};

use crate::find::{find_str, find_tycon, find_val};
use crate::node::{EnvNode, TyNode, ValNode};
use tl_text::{Name, Path};

/// The value of a long identifier, and None where there is none (the Definition, section 4.3). The last
/// binding of a name counts. It takes no memory.
pub fn lookup<'a>(node: &EnvNode<'a>, path: &Path) -> Option<ValNode<'a>>
    ensures { option_map spelled_val result ≡ val_at (spelled node.now) path.now }
{
    val_along(node, path.parts())
}

/// The type constructor of a long identifier, and None where there is none. It takes no memory.
pub fn lookup_ty<'a>(node: &EnvNode<'a>, path: &Path) -> Option<TyNode<'a>>
    ensures { option_map spelled_tycon result ≡ tycon_at (spelled node.now) path.now }
{
    tycon_along(node, path.parts())
}

/// The environment of the structure of a long identifier, and None where there is none. It takes no memory.
pub fn lookup_str<'a>(node: &EnvNode<'a>, path: &Path) -> Option<&'a EnvNode<'a>>
    ensures { option_map (λ e. spelled e.now) result
        ≡ option_map (λ s. s.1) (str_at (spelled node.now) path.now) }
{
    str_along(node, path.parts())
}

/// The value of these names, the last one in the structure to which the others lead.
#[tactic(auto, using(crate::proofs::Places::at_path_place))]
pub fn val_along<'a>(node: &EnvNode<'a>, names: &[Name]) -> Option<ValNode<'a>>
    ensures { option_map spelled_val result ≡ val_at (spelled node.now) names.now }
{
    let (env, name) = place(node, names)?;
    find_val(&env, name.bytes())
}

/// The type constructor of these names.
#[tactic(auto, using(crate::proofs::Places::at_path_place))]
pub fn tycon_along<'a>(node: &EnvNode<'a>, names: &[Name]) -> Option<TyNode<'a>>
    ensures { option_map spelled_tycon result ≡ tycon_at (spelled node.now) names.now }
{
    let (env, name) = place(node, names)?;
    find_tycon(&env, name.bytes())
}

/// The environment of the structure of these names.
#[tactic(auto, using(crate::proofs::Places::at_path_place, crate::proofs::Levels::spelled_str_out))]
pub fn str_along<'a>(node: &EnvNode<'a>, names: &[Name]) -> Option<&'a EnvNode<'a>>
    ensures { option_map (λ e. spelled e.now) result
        ≡ option_map (λ s. s.1) (str_at (spelled node.now) names.now) }
{
    let (env, name) = place(node, names)?;
    let str = find_str(&env, name.bytes())?;
    Some(str.env)
}

// The environment in which the last of the names is sought, and that name.
#[tactic(auto, using(crate::proofs::Places::place_of_push))]
fn place<'a, 'p>(node: &EnvNode<'a>, names: &'p [Name]) -> Option<(EnvNode<'a>, &'p Name)>
    ensures { option_map (λ p. (spelled p.0, p.1.now)) result ≡ place_of (spelled node.now) names.now }
{
    match names.split_last() {
        None => None,
        Some((last, structures)) => {
            let env = along(node, structures)?;
            Some((env, last))
        }
    }
}

// The environment of the structure to which these names lead, one inside another.
fn along<'a>(node: &EnvNode<'a>, names: &[Name]) -> Option<EnvNode<'a>>
    ensures { option_map spelled result ≡ env_along (spelled node.now) names.now }
{
    let mut env = *node;
    for name in names {
        let str = find_str(&env, name.bytes())?;
        env = *str.env;
    }
    Some(env)
}
