ghost use Rattle.std.specs.Prelude.{◌≡◌, map, IfOk};
ghost use Rattle.sml_static.specs.declared.env.Env.{out-Env};
ghost use Rattle.env_arena.specs.Spelling.{spelled, spelled_con, spelled_scheme, spelled_tycon, spelled_val};

use crate::flat::{all_strs, all_tycons, all_vals};
use crate::node::{EnvNode, TyNode, ValNode};
use crate::plain_types::plain_ty;
use bumpalo::Bump;
use sml_static::{Env, Scheme, Status, TyFun};
use std::alloc::Global;
use tl_text::{List, Name, NoMemory};

/// The environment for which the node stands. NoMemory where none is left.
pub fn plain(alloc: Global, node: &EnvNode<'_>) -> Result<Env, NoMemory>
    ensures { IfOk result (λ e. e ≡ spelled node.now) }
{
    let scratch = Bump::new(alloc);
    plain_env(alloc, &scratch, node)
}

#[cycle(plain_env)]
fn plain_env(alloc: Global, scratch: &Bump, node: &EnvNode<'_>) -> Result<Env, NoMemory>
    ensures { IfOk result (λ e. e ≡ spelled node.now) }
{
    let vals = plain_vals(alloc, scratch, node)?;
    let tycons = plain_tycons(alloc, scratch, node)?;
    let strs = plain_strs(alloc, scratch, node)?;
    Ok(Env { vals, tycons, strs })
}

#[cycle(plain_env)]
fn plain_strs(
    alloc: Global,
    scratch: &Bump,
    node: &EnvNode<'_>,
) -> Result<List<(Name, Env)>, NoMemory>
    ensures { IfOk result (λ ss. ss ≡ (out-Env (spelled node.now)).strs) }
{
    let row = all_strs(scratch, node)?;
    let mut done = List::new(alloc);
    for str in row.as_slice() {
        let name = Name::new(alloc, str.name)?;
        let env = plain_env(alloc, scratch, str.env)?;
        done.push((name, env))?;
    }
    Ok(done)
}

fn plain_vals(
    alloc: Global,
    scratch: &Bump,
    node: &EnvNode<'_>,
) -> Result<List<(Name, Status, Scheme)>, NoMemory>
    ensures { IfOk result (λ vs. vs ≡ (out-Env (spelled node.now)).vals) }
{
    let row = all_vals(scratch, node)?;
    let mut done = List::new(alloc);
    for val in row.as_slice() {
        let name = Name::new(alloc, val.name)?;
        done.push((name, val.status, plain_scheme(alloc, val)?))?;
    }
    Ok(done)
}

fn plain_tycons(
    alloc: Global,
    scratch: &Bump,
    node: &EnvNode<'_>,
) -> Result<List<(Name, TyFun, List<(Name, Scheme)>)>, NoMemory>
    ensures { IfOk result (λ ts. ts ≡ (out-Env (spelled node.now)).tycons) }
{
    let row = all_tycons(scratch, node)?;
    let mut done = List::new(alloc);
    for tycon in row.as_slice() {
        done.push(plain_tycon(alloc, tycon)?)?;
    }
    Ok(done)
}

fn plain_tycon(
    alloc: Global,
    tycon: &TyNode<'_>,
) -> Result<(Name, TyFun, List<(Name, Scheme)>), NoMemory>
    ensures { IfOk result (λ t. t ≡ spelled_tycon tycon.now) }
{
    let name = Name::new(alloc, tycon.name)?;
    let body = plain_ty(alloc, tycon.body)?;
    let cons = plain_cons(alloc, tycon.cons)?;
    let arity = tycon.arity;
    Ok((name, TyFun { arity, body }, cons))
}

fn plain_cons(alloc: Global, cons: &[ValNode<'_>]) -> Result<List<(Name, Scheme)>, NoMemory>
    ensures { IfOk result (λ cs. cs ≡ map spelled_con cons.now) }
{
    let mut done = List::new(alloc);
    for con in cons {
        let name = Name::new(alloc, con.name)?;
        done.push((name, plain_scheme(alloc, con)?))?;
    }
    Ok(done)
}

fn plain_scheme(alloc: Global, val: &ValNode<'_>) -> Result<Scheme, NoMemory>
    ensures { IfOk result (λ s. s ≡ spelled_scheme val.now) }
{
    let vars = List::from_vec(Vec::from_slice(alloc, val.kinds)?);
    let body = plain_ty(alloc, val.body)?;
    Ok(Scheme { vars, body })
}
