ghost use Rattle.std.specs.Prelude.{◌≡◌, map, IfOk, IsTrue};
ghost use Rattle.std.specs.List.{list_all};
ghost use Rattle.tl_text.specs.Pairs.{map_second};
ghost use Rattle.env_arena.specs.Settled.{is_settled_con, is_settled_val, is_settled_tycon, is_settled_env};
ghost use Rattle.env_arena.specs.Spelling.{spelled_con, spelled_val, spelled_tycon, spelled_str, spelled};

use crate::node::{EnvNode, StrNode, TyNode, ValNode};
use crate::put_types::put_ty;
use bumpalo::Bump;
use bumpalo::collections::into_bump_slice;
use sml_static::{Env, Scheme, Status, TyFun};
use tl_text::{List, Name, NoMemory};

/// A node that stands for the environment (the Definition, section 4.2). NoMemory where none is left.
#[cycle(put)]
pub fn put<'a>(arena: &'a Bump, env: &Env) -> Result<&'a EnvNode<'a>, NoMemory>
    requires { IsTrue (is_settled_env env.now) }
    ensures { IfOk result (λ n. spelled n.now ≡ env.now) }
{
    let vals = val_nodes(arena, env.vals.items())?;
    let tycons = tycon_nodes(arena, env.tycons.items())?;
    let strs = str_nodes(arena, env.strs.items())?;
    Ok(arena.try_alloc(EnvNode {
        under: None,
        vals,
        tycons,
        strs,
    })?)
}

#[cycle(put)]
fn str_nodes<'a>(arena: &'a Bump, strs: &[(Name, Env)]) -> Result<&'a [StrNode<'a>], NoMemory>
    requires { IsTrue (list_all (λ s. s.1) (map_second is_settled_env strs.now)) }
    ensures { IfOk result (λ ns. map spelled_str ns.now ≡ strs.now) }
{
    let mut nodes = Vec::with_capacity(arena, strs.len())?;
    for str in strs {
        let name = arena.try_alloc_slice_copy(str.0.bytes())?;
        let env = put(arena, &str.1)?;
        nodes.push(StrNode { name, env })?;
    }
    Ok(into_bump_slice(nodes))
}

fn val_nodes<'a>(
    arena: &'a Bump,
    vals: &[(Name, Status, Scheme)],
) -> Result<&'a [ValNode<'a>], NoMemory>
    requires { IsTrue (list_all is_settled_val vals.now) }
    ensures { IfOk result (λ ns. map spelled_val ns.now ≡ vals.now) }
{
    let mut nodes = Vec::with_capacity(arena, vals.len())?;
    for val in vals {
        nodes.push(val_node(arena, &val.0, val.1, &val.2)?)?;
    }
    Ok(into_bump_slice(nodes))
}

fn val_node<'a>(
    arena: &'a Bump,
    name: &Name,
    status: Status,
    scheme: &Scheme,
) -> Result<ValNode<'a>, NoMemory>
    requires { IsTrue (is_settled_val (name.now, status, scheme.now)) }
    ensures { IfOk result (λ n. spelled_val n ≡ (name.now, status, scheme.now)) }
{
    let name = arena.try_alloc_slice_copy(name.bytes())?;
    let kinds = arena.try_alloc_slice_copy(scheme.vars.items())?;
    let body = put_ty(arena, &scheme.body)?;
    Ok(ValNode {
        name,
        status,
        kinds,
        body,
    })
}

fn tycon_nodes<'a>(
    arena: &'a Bump,
    tycons: &[(Name, TyFun, List<(Name, Scheme)>)],
) -> Result<&'a [TyNode<'a>], NoMemory>
    requires { IsTrue (list_all is_settled_tycon tycons.now) }
    ensures { IfOk result (λ ns. map spelled_tycon ns.now ≡ tycons.now) }
{
    let mut nodes = Vec::with_capacity(arena, tycons.len())?;
    for tycon in tycons {
        nodes.push(tycon_node(arena, &tycon.0, &tycon.1, tycon.2.items())?)?;
    }
    Ok(into_bump_slice(nodes))
}

fn tycon_node<'a>(
    arena: &'a Bump,
    name: &Name,
    function: &TyFun,
    cons: &[(Name, Scheme)],
) -> Result<TyNode<'a>, NoMemory>
    requires { IsTrue (is_settled_tycon (name.now, function.now, cons.now)) }
    ensures { IfOk result (λ n. spelled_tycon n ≡ (name.now, function.now, cons.now)) }
{
    let name = arena.try_alloc_slice_copy(name.bytes())?;
    let body = put_ty(arena, &function.body)?;
    let cons = con_nodes(arena, cons)?;
    Ok(TyNode {
        name,
        arity: function.arity,
        body,
        cons,
    })
}

fn con_nodes<'a>(arena: &'a Bump, cons: &[(Name, Scheme)]) -> Result<&'a [ValNode<'a>], NoMemory>
    requires { IsTrue (list_all is_settled_con cons.now) }
    ensures { IfOk result (λ ns. map spelled_con ns.now ≡ cons.now) }
{
    let mut nodes = Vec::with_capacity(arena, cons.len())?;
    for con in cons {
        nodes.push(val_node(arena, &con.0, Status::Constructor, &con.1)?)?;
    }
    Ok(into_bump_slice(nodes))
}
