ghost use Rattle.std.specs.Prelude.{◌≡◌, [], IfOk};
ghost use Rattle.sml_static.specs.declared.env.Env.{roll-Env};
ghost use Rattle.env_arena.specs.Over.{env_over};
ghost use Rattle.env_arena.specs.Spelling.{spelled};
ghost use Rattle.env_scope.specs.Scopes.{IsIndexed};

use crate::add::{add_strs, add_tycons, add_vals};
use crate::scope::Scope;
use crate::tree::Tree;
use bumpalo::Bump;
use env_arena::{EnvNode, joined};
use tl_text::NoMemory;

/// The scope without names. NoMemory where none is left.
pub fn empty_scope<'a>(arena: &'a Bump) -> Result<Scope<'a>, NoMemory>
    ensures index { IfOk result IsIndexed }
    ensures env { IfOk result (λ s. spelled s.env.now ≡ roll-Env (record { vals = []; tycons = []; strs = [] })) }
{
    let env = no_names(arena)?;
    Ok(Scope {
        env,
        index: Tree::Empty,
    })
}

/// The scope with an environment over its own (the Definition, section 4.3). The scope of before stays as it
/// is. NoMemory where none is left.
pub fn extended<'a>(
    arena: &'a Bump,
    scope: &Scope<'a>,
    then: &'a EnvNode<'a>,
) -> Result<Scope<'a>, NoMemory>
    requires { IsIndexed scope.now }
    ensures index { IfOk result IsIndexed }
    ensures env { IfOk result (λ s. spelled s.env.now ≡ env_over (spelled scope.now.env.now) (spelled then.now)) }
{
    let env = joined(arena, scope.env, then)?;
    let index = add_vals(arena, scope.index, env.vals)?;
    let index = add_tycons(arena, index, env.tycons)?;
    let index = add_strs(arena, index, env.strs)?;
    Ok(Scope { env, index })
}

// A node for the environment without names.
fn no_names<'a>(arena: &'a Bump) -> Result<&'a EnvNode<'a>, NoMemory>
    ensures { IfOk result (λ e. spelled e.now ≡ roll-Env (record { vals = []; tycons = []; strs = [] })) }
{
    Ok(arena.try_alloc(EnvNode {
        under: None,
        vals: &[],
        tycons: &[],
        strs: &[],
    })?)
}
