ghost use Rattle.std.specs.Prelude.{IfOk, IsTrue};
ghost use Rattle.env_arena.specs.Settled.{is_settled, is_settled_env};
ghost use Rattle.env_scope.specs.Scopes.{IsIndexed};

use crate::{Scope, empty_scope, extended, scope_str, scope_ty, scope_val};
use bumpalo::Bump;
use env_arena::{EnvNode, TypeNode, put};
use sml_static::{Env, Scheme, Status, Ty, TyFun, TyName};
use std::alloc::Global;
use std::test::Fail;
use tl_text::{List, Name, NoMemory, Path};

fn numbered(alloc: Global, id: u32) -> Ty
    ensures { IsTrue (is_settled result) }
{
    let name = TyName {
        id,
        arity: 0,
        equality: true,
    };
    Ty::Con(name, List::new(alloc))
}

/// A value and a type constructor of that name and number.
fn single(alloc: Global, word: &str, id: u32) -> Result<Env, NoMemory>
    ensures { IfOk result (λ e. IsTrue (is_settled_env e)) }
{
    let mut vals = List::new(alloc);
    let vars = List::new(alloc);
    let body = numbered(alloc, id);
    let name = Name::new(alloc, word.as_bytes())?;
    vals.push((name, Status::Variable, Scheme { vars, body }))?;
    let mut tycons = List::new(alloc);
    let body = numbered(alloc, id);
    let name = Name::new(alloc, word.as_bytes())?;
    tycons.push((name, TyFun { arity: 0, body }, List::new(alloc)))?;
    let strs = List::new(alloc);
    Ok(Env { vals, tycons, strs })
}

/// A structure of that name.
fn structure(alloc: Global, word: &str, env: Env) -> Result<Env, NoMemory>
    requires { IsTrue (is_settled_env env) }
    ensures { IfOk result (λ e. IsTrue (is_settled_env e)) }
{
    let mut strs = List::new(alloc);
    let name = Name::new(alloc, word.as_bytes())?;
    strs.push((name, env))?;
    let vals = List::new(alloc);
    let tycons = List::new(alloc);
    Ok(Env { vals, tycons, strs })
}

fn put_single<'a>(
    alloc: Global,
    arena: &'a Bump,
    word: &str,
    id: u32,
) -> Result<&'a EnvNode<'a>, NoMemory> {
    let env = single(alloc, word, id)?;
    put(arena, &env)
}

fn put_structure<'a>(
    alloc: Global,
    arena: &'a Bump,
    word: &str,
    id: u32,
) -> Result<&'a EnvNode<'a>, NoMemory> {
    let inner = single(alloc, word, id)?;
    let env = structure(alloc, "S", inner)?;
    put(arena, &env)
}

fn number(body: &TypeNode<'_>) -> u32 {
    match body {
        TypeNode::Con(name, _) => name.id,
        _ => 100,
    }
}

/// The numbers of the value and of the type constructor, 0 where there is none, and whether it is a structure.
fn found(alloc: Global, scope: &Scope<'_>, words: &[&str]) -> Result<(u32, u32, bool), NoMemory>
    requires { IsIndexed scope.now }
{
    let mut path = Path::new(alloc);
    for word in words {
        let name = Name::new(alloc, word.as_bytes())?;
        path.push(name)?;
    }
    let val = scope_val(scope, &path).map_or(0, |val| number(val.body));
    let tycon = scope_ty(scope, &path).map_or(0, |tycon| number(tycon.body));
    Ok((val, tycon, scope_str(scope, &path).is_some()))
}

// Memory that is never enough; an index that finds too little or what is hidden; a scope that changes when another
// is made of it.
#[test]
fn the_newest_binding_is_found(rt: HostRuntime) -> Result<(), Fail> {
    let alloc = rt.alloc();
    let arena = Bump::new(alloc);
    let none = empty_scope(&arena)?;
    let first = extended(&arena, &none, put_single(alloc, &arena, "x", 1)?)?;
    let second = extended(&arena, &first, put_single(alloc, &arena, "x", 2)?)?;
    let third = extended(&arena, &second, put_structure(alloc, &arena, "y", 3)?)?;
    for (words, answer) in [
        (["x"].as_slice(), (2, 2, false)),
        (["S"].as_slice(), (0, 0, true)),
        (["S", "y"].as_slice(), (3, 3, false)),
        (["S", "x"].as_slice(), (0, 0, false)),
        (["y"].as_slice(), (0, 0, false)),
        ([].as_slice(), (0, 0, false)),
    ] {
        assert_eq!(rt; found(alloc, &third, words)?, answer);
    }
    assert_eq!(rt; found(alloc, &first, &["x"])?, (1, 1, false));
    assert_eq!(rt; found(alloc, &none, &["x"])?, (0, 0, false));
    Ok(())
}
