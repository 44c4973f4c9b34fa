ghost use Rattle.std.specs.Prelude.{◌≡◌, None, Some, option_map, IfOk};
ghost use Rattle.env_arena.specs.declared.node.EnvNode.{out-EnvNode};
ghost use Rattle.env_arena.specs.Over.{env_over};
ghost use Rattle.env_arena.specs.Spelling.{own_rows, spelled};

use crate::flat::{all_strs, all_tycons, all_vals};
use crate::node::EnvNode;
use bumpalo::Bump;
use bumpalo::collections::into_bump_slice;
use tl_text::NoMemory;

/// A node for the second environment over the first (the Definition, section 4.3), with the first under it as
/// it stands: the cost does not depend on the first. NoMemory where none is left.
#[tactic(auto, using(crate::proofs::Joining::spelled_over, crate::proofs::Joining::under_made, crate::proofs::Joining::own_moved))]
pub fn joined<'a>(
    arena: &'a Bump,
    first: &'a EnvNode<'a>,
    then: &'a EnvNode<'a>,
) -> Result<&'a EnvNode<'a>, NoMemory>
    ensures over { IfOk result (λ n. spelled n.now ≡ env_over (spelled first.now) (spelled then.now)) }
    ensures under { IfOk result (λ n. option_map (λ u. spelled u.now) (out-EnvNode n.now).under ≡ Some (spelled first.now)) }
    ensures own { IfOk result (λ n. own_rows n.now ≡ spelled then.now) }
{
    let own = alone(arena, then)?;
    Ok(arena.try_alloc(EnvNode {
        under: Some(first),
        vals: own.vals,
        tycons: own.tycons,
        strs: own.strs,
    })?)
}

// A node for the same environment with nothing under it.
#[tactic(auto, using(crate::proofs::Joining::spelled_alone))]
fn alone<'a>(arena: &'a Bump, node: &EnvNode<'a>) -> Result<EnvNode<'a>, NoMemory>
    ensures { IfOk result (λ n. own_rows n ≡ spelled node.now) }
{
    match node.under {
        None => Ok(*node),
        Some(_) => {
            let vals = into_bump_slice(all_vals(arena, node)?);
            let tycons = into_bump_slice(all_tycons(arena, node)?);
            let strs = into_bump_slice(all_strs(arena, node)?);
            Ok(EnvNode {
                under: None,
                vals,
                tycons,
                strs,
            })
        }
    }
}
