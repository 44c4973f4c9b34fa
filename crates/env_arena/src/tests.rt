ghost use Rattle.std.specs.Prelude.{IfOk, IsTrue};
ghost use Rattle.std.specs.List.{list_all};
ghost use Rattle.tl_text.specs.Pairs.{map_second};
ghost use Rattle.env_arena.specs.Settled.{is_settled, is_settled_env, is_settled_tycon, is_settled_val};

use crate::{EnvNode, TypeNode, joined, lookup, lookup_ty, plain, put};
use bumpalo::{Bump, ResetError};
use sml_static::{Env, Scheme, Status, Ty, TyFun, TyName};
use std::alloc::Global;
use std::mem;
use std::test::Fail;
use tl_text::{List, Name, NoMemory, Path};

fn numbered(alloc: Global, id: u32) -> Ty
    ensures { IsTrue (is_settled result) }
{
    let name = TyName {
        id,
        arity: 0,
        equality: true,
    };
    Ty::Con(name, List::new(alloc))
}

/// The words, each a value and a type constructor of that number.
fn env(alloc: Global, words: &[(&str, u32)], strs: List<(Name, Env)>) -> Result<Env, NoMemory>
    requires { IsTrue (list_all (λ s. s.1) (map_second is_settled_env strs)) }
    ensures { IfOk result (λ e. IsTrue (is_settled_env e)) }
{
    let mut vals = List::new(alloc);
    let mut tycons = List::new(alloc);
    for (word, id) in words {
        let vars = List::new(alloc);
        let body = numbered(alloc, *id);
        let name = Name::new(alloc, word.as_bytes())?;
        vals.push((name, Status::Variable, Scheme { vars, body }))?;
        let body = numbered(alloc, *id);
        let name = Name::new(alloc, word.as_bytes())?;
        tycons.push((name, TyFun { arity: 0, body }, List::new(alloc)))?;
    }
    Ok(Env { vals, tycons, strs })
}

fn structure(alloc: Global, word: &str, env: Env) -> Result<List<(Name, Env)>, NoMemory>
    requires { IsTrue (is_settled_env env) }
    ensures { IfOk result (λ ss. IsTrue (list_all (λ s. s.1) (map_second is_settled_env ss))) }
{
    let mut strs = List::new(alloc);
    strs.push((Name::new(alloc, word.as_bytes())?, env))?;
    Ok(strs)
}

fn first_env(alloc: Global) -> Result<Env, NoMemory>
    ensures { IfOk result (λ e. IsTrue (is_settled_env e)) }
{
    let inner = env(alloc, &[("x", 5)], List::new(alloc))?;
    let outer = env(alloc, &[("x", 4), ("v", 3)], structure(alloc, "T", inner)?)?;
    env(alloc, &[("x", 1), ("y", 2)], structure(alloc, "S", outer)?)
}

fn third_env(alloc: Global) -> Result<Env, NoMemory>
    ensures { IfOk result (λ e. IsTrue (is_settled_env e)) }
{
    let inner = env(alloc, &[("y", 9)], List::new(alloc))?;
    env(alloc, &[("z", 7)], structure(alloc, "S", inner)?)
}

fn path(alloc: Global, words: &[&str]) -> Result<Path, NoMemory> {
    let mut path = Path::new(alloc);
    for word in words {
        let name = Name::new(alloc, word.as_bytes())?;
        path.push(name)?;
    }
    Ok(path)
}

fn number(body: &TypeNode<'_>) -> u32 {
    match body {
        TypeNode::Con(name, _) => name.id,
        _ => 100,
    }
}

fn value(node: &EnvNode<'_>, path: &Path) -> u32 {
    match lookup(node, path) {
        Some(val) => number(val.body),
        None => 0,
    }
}

fn tycon(node: &EnvNode<'_>, path: &Path) -> u32 {
    match lookup_ty(node, path) {
        Some(tycon) => number(tycon.body),
        None => 0,
    }
}

/// The numbers of the value and of the type constructor, and 0 where there is none.
fn found(alloc: Global, node: &EnvNode<'_>, words: &[&str]) -> Result<(u32, u32), NoMemory> {
    let path = path(alloc, words)?;
    Ok((value(node, &path), tycon(node, &path)))
}

/// The values' names, each with its number.
fn shown(alloc: Global, node: &EnvNode<'_>) -> Result<String, NoMemory> {
    let env = plain(alloc, node)?;
    let mut text = String::new(alloc);
    for val in env.vals.items() {
        let word = str::from_utf8(val.0.bytes()).unwrap_or("?");
        let id = type_number(&val.2.body);
        let shown = format!(in alloc; "{word}{id}")?;
        text.push_str(shown.as_str())?;
    }
    Ok(text)
}

fn type_number(ty: &Ty) -> u32 {
    match ty {
        Ty::Con(name, _) => name.id,
        _ => 100,
    }
}

/// Environments of `x`, `y`, `S`, of `x` twice, and of `z`, `S`.
#[derive(Clone, Copy)]
struct Three<'a> {
    first: &'a EnvNode<'a>,
    second: &'a EnvNode<'a>,
    third: &'a EnvNode<'a>,
}

fn put_three(alloc: Global, arena: &Bump) -> Result<Three<'_>, NoMemory> {
    let first = first_env(alloc)?;
    let first = put(arena, &first)?;
    let second = env(alloc, &[("x", 3), ("w", 8), ("x", 6)], List::new(alloc))?;
    let second = put(arena, &second)?;
    let third = third_env(alloc)?;
    let third = put(arena, &third)?;
    Ok(Three {
        first,
        second,
        third,
    })
}

// Memory that is never enough; that the clauses' own words have the first binding of a name count, or the wrong
// environment over the other.
#[test]
fn the_last_binding_counts(rt: HostRuntime) -> Result<(), Fail> {
    let alloc = rt.alloc();
    let arena = Bump::new(alloc);
    let envs = put_three(alloc, &arena)?;
    let left = joined(&arena, joined(&arena, envs.first, envs.second)?, envs.third)?;
    let right = joined(&arena, envs.first, joined(&arena, envs.second, envs.third)?)?;
    for (words, in_first, in_all) in [
        (["x"].as_slice(), 1, 6),
        (["y"].as_slice(), 2, 2),
        (["z"].as_slice(), 0, 7),
        (["S", "y"].as_slice(), 0, 9),
        (["S", "v"].as_slice(), 3, 0),
        (["S", "T", "x"].as_slice(), 5, 0),
        (["x", "y"].as_slice(), 0, 0),
        ([].as_slice(), 0, 0),
    ] {
        assert_eq!(rt; found(alloc, envs.first, words)?, (in_first, in_first));
        assert_eq!(rt; found(alloc, left, words)?, (in_all, in_all));
        assert_eq!(rt; found(alloc, right, words)?, (in_all, in_all));
    }
    assert_eq!(rt; shown(alloc, left)?.as_str(), "y2x3w8x6z7");
    assert_eq!(rt; shown(alloc, right)?.as_str(), "y2x3w8x6z7");
    Ok(())
}

// An arena that is cleared while a part of it is out, or that stays full after nodes.
#[test]
fn an_arena_is_cleared_only_when_nothing_is_out(rt: HostRuntime) -> Result<(), Fail> {
    let alloc = rt.alloc();
    let mut arena = Bump::new(alloc);
    let size = put(&arena, &first_env(alloc)?)?.vals.len();
    assert_eq!(rt; (size, arena.reset()), (2, Ok(())));
    let mut row = Vec::new(&arena);
    row.push(put(&arena, &third_env(alloc)?)?.vals.len())?;
    mem::forget(row);
    assert_eq!(rt; arena.reset(), Err(ResetError));
    Ok(())
}
