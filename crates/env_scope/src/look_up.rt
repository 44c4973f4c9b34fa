ghost use Rattle.std.specs.Prelude.{◌≡◌, option_map};
ghost use Rattle.sml_static.specs.Lookups.{last_named, val_at, tycon_at, str_at};
ghost use Rattle.sml_static.specs.declared.env.Env.{out-Env};
ghost use Rattle.env_arena.specs.Spelling.{spelled, spelled_str, spelled_tycon, spelled_val};
ghost use Rattle.env_scope.specs.Scopes.{IsIndexed};

use crate::binding::find;
use crate::scope::Scope;
use env_arena::{EnvNode, StrNode, TyNode, ValNode, str_along, tycon_along, val_along};
use tl_text::Path;

/// The value of a long identifier, and None where there is none (the Definition, section 4.3). Its first name
/// is found by the index. It takes no memory.
#[tactic(auto, using(crate::proofs::Ways::at_path_cons))]
pub fn scope_val<'a>(scope: &Scope<'a>, path: &Path) -> Option<ValNode<'a>>
    requires { IsIndexed scope.now }
    ensures { option_map spelled_val result ≡ val_at (spelled scope.now.env.now) path.now }
{
    match path.parts().split_first() {
        None => None,
        Some((first, rest)) => {
            if rest.is_empty() {
                return own_val(scope, first.bytes());
            }
            let str = own_str(scope, first.bytes())?;
            val_along(str.env, rest)
        }
    }
}

/// The type constructor of a long identifier, and None where there is none. It takes no memory.
#[tactic(auto, using(crate::proofs::Ways::at_path_cons))]
pub fn scope_ty<'a>(scope: &Scope<'a>, path: &Path) -> Option<TyNode<'a>>
    requires { IsIndexed scope.now }
    ensures { option_map spelled_tycon result ≡ tycon_at (spelled scope.now.env.now) path.now }
{
    match path.parts().split_first() {
        None => None,
        Some((first, rest)) => {
            if rest.is_empty() {
                return own_tycon(scope, first.bytes());
            }
            let str = own_str(scope, first.bytes())?;
            tycon_along(str.env, rest)
        }
    }
}

/// The environment of the structure of a long identifier, and None where there is none. It takes no memory.
#[tactic(auto, using(crate::proofs::Ways::at_path_cons, env_arena::proofs::Levels::spelled_str_out))]
pub fn scope_str<'a>(scope: &Scope<'a>, path: &Path) -> Option<&'a EnvNode<'a>>
    requires { IsIndexed scope.now }
    ensures { option_map (λ e. spelled e.now) result
        ≡ option_map (λ s. s.1) (str_at (spelled scope.now.env.now) path.now) }
{
    match path.parts().split_first() {
        None => None,
        Some((first, rest)) => {
            let str = own_str(scope, first.bytes())?;
            if rest.is_empty() {
                return Some(str.env);
            }
            str_along(str.env, rest)
        }
    }
}

// The value of a name.
fn own_val<'a>(scope: &Scope<'a>, name: &[u8]) -> Option<ValNode<'a>>
    requires { IsIndexed scope.now }
    ensures { option_map spelled_val result
        ≡ last_named (λ v. v.0) name.now (out-Env (spelled scope.now.env.now)).vals }
{
    let binding = find(&scope.index, name)?;
    binding.val.copied()
}

// The type constructor of a name.
fn own_tycon<'a>(scope: &Scope<'a>, name: &[u8]) -> Option<TyNode<'a>>
    requires { IsIndexed scope.now }
    ensures { option_map spelled_tycon result
        ≡ last_named (λ t. t.0) name.now (out-Env (spelled scope.now.env.now)).tycons }
{
    let binding = find(&scope.index, name)?;
    binding.tycon.copied()
}

// The structure of a name.
fn own_str<'a>(scope: &Scope<'a>, name: &[u8]) -> Option<StrNode<'a>>
    requires { IsIndexed scope.now }
    ensures { option_map spelled_str result
        ≡ last_named (λ s. s.0) name.now (out-Env (spelled scope.now.env.now)).strs }
{
    let binding = find(&scope.index, name)?;
    binding.str.copied()
}
