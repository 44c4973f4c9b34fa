//! For each restriction sources that break it: the front before the phrase that stands first among those that do, and the rest.

use crate::answers::{Answer, is, program, refused};
use crate::source::joined;
use sml_ast::Program;
use sml_restrict::restrict;
use std::process::Abort;
use std::test::Fail;
use tl_text::Code;

/// What the restrictions answer a program with, which is let go of.
fn breach(program: Program) -> Answer {
    match restrict(&program) {
        Ok(()) => None,
        Err(refusal) => refused(refusal),
    }
}

/// A source in two halves breaks no restriction, or the one of this code first where the second half begins.
fn check(
    rt: &(impl Abort + AllocGlobal),
    front: &str,
    rest: &str,
    expected: Option<Code>,
) -> Result<(), Fail> {
    let source = joined(rt.alloc(), front.as_bytes(), rest.as_bytes())?;
    let found = breach(program(rt.alloc(), source.as_slice())?);
    let stood = is(found, expected, front.len());
    assert!(rt; stood, "{front}{rest}: {found:?}");
    Ok(())
}

// A lawful source that is taken for one that breaks a restriction.
#[test]
fn nothing_is_broken(rt: HostRuntime) -> Result<(), Fail> {
    let sources = [
        "",
        "val x = {a = {a = 1}, b = {a = 2}}",
        "val {a = {a = x, ...}, b = y, ...} = z",
        "type t = {a : {a : u}, b : u}",
        "fun f (x, x) = x",
        "type 'a t = 'a datatype 'a u = A of 'a datatype v = A",
        "datatype 'a t = A of 'a * 'a u withtype 'a u = 'a list",
        "val rec (f : t) = (fn x => x : t)",
        "val rec f = fn x => x and g = ((fn y => y) : t) val f = 1",
        "fun f 1 y = 2 | f x _ = 3 and g x = f x x",
        "infix ++ fun x ++ y = 1 | op ++ (x, y) = 2 | (x ++ y) = 3",
        "exception E of 'a",
        "exception E and F exception E",
        "structure S = T structure S = U",
        "structure S = T and U = struct structure S = T end",
        "signature G = sig val x : t type x datatype y = x end",
        "signature G = sig type 'a t = 'a type ('a, 'b) u datatype 'a v = A of 'a end",
        "signature G = H where type ('a, 'b) t = 'a * 'b",
        "signature G = sig val x : 'a -> 'b end",
        "val true = false val nil = ref val x :: y = z",
        "val it = 1 fun it x = x",
        "val 'a x = let val 'b y = 1 in y end",
        "val 'a x = let val y : 'a = 1 in y end",
        "val x = let val 'a y = 1 in y end val 'a z = 1",
        "fun 'a f (x : 'a) : 'b = x and g (y : 'a) = y",
    ];
    for source in sources {
        check(&rt, source, "", None)?;
    }
    Ok(())
}

// A label, a type variable or a name that stands twice and is not found, or another phrase that is.
#[test]
fn names_are_bound_twice(rt: HostRuntime) -> Result<(), Fail> {
    let rows = [
        ("val x = {a = 1, ", "a = 2}"),
        ("val x = {1 = a, 2 = b, ", "1 = c, 2 = d}"),
        ("val {a = x, ", "a = y} = 1"),
        ("val {a, b, ", "a : t} = 1"),
        ("type t = {a : u, ", "a : v}"),
        ("val x : {a : u, ", "a : v} = 1"),
        ("val x = y : {a : u, ", "a : v}"),
        ("val {x : {a : u, ", "a : v}} = 1"),
        ("val x : {a : u, ", "a : v} as y = 1"),
        ("fun f x : {a : u, ", "a : v} = 1"),
        ("fun f {a, ", "a} = 1"),
        ("datatype t = A of {a : u, ", "a : v}"),
        ("exception E of {a : u, ", "a : v}"),
        ("type ('a, ", "'a) t = u"),
        ("fun ('a, ", "'a) f x = x"),
        ("val ('a, 'b, ", "'a) x = 1"),
        ("datatype ('a, ", "'a) t = A"),
        ("datatype t = A withtype ('a, ", "'a) u = v"),
        ("type t = u and ", "t = v"),
        ("datatype t = A and ", "t = B"),
        ("datatype t = A withtype ", "t = u"),
        ("datatype t = A withtype u = v and ", "u = w"),
        ("datatype t = A | ", "A of u"),
        ("datatype t = A and u = ", "A"),
        ("exception E and ", "E"),
        ("exception E and ", "E = F"),
        ("fun f x = x and ", "f y = y"),
        (
            "val x = fn y => let val z = fn {1 = w, ",
            "1 = v} => w in z end",
        ),
        ("val x = (case a of b => {c = 1, ", "c = 2}) handle E => 1"),
        ("local val x = {a = 1, ", "a = 2} in end"),
    ];
    for (front, rest) in rows {
        check(&rt, front, rest, Some(Code::Repeated))?;
    }
    Ok(())
}

// The same in the grammar of modules.
#[test]
fn names_of_modules_are_bound_twice(rt: HostRuntime) -> Result<(), Fail> {
    let rows = [
        ("structure S = T and ", "S = U"),
        ("structure S = struct structure T = U and ", "T = V end"),
        ("signature G = H and ", "G = I"),
        ("functor F () = X and ", "F () = X"),
        ("signature G = sig val x : t and ", "x : u end"),
        ("signature G = sig type t and ", "t end"),
        ("signature G = sig type ('a, ", "'a) t end"),
        ("signature G = sig eqtype t and ", "t end"),
        ("signature G = sig eqtype ('a, ", "'a) t end"),
        ("signature G = sig type t = u and ", "t = v end"),
        ("signature G = sig type ('a, ", "'a) t = u end"),
        ("signature G = sig datatype t = A and ", "t = B end"),
        ("signature G = sig datatype t = A | ", "A end"),
        ("signature G = sig datatype t = A and u = ", "A end"),
        ("signature G = sig datatype ('a, ", "'a) t = A end"),
        ("signature G = sig exception E and ", "E end"),
        ("signature G = sig structure S : H and ", "S : I end"),
        ("signature G = H where type ('a, ", "'a) t = u"),
        ("signature G = sig val x : {a : t, ", "a : u} end"),
        ("structure S = T : sig type t and ", "t end"),
        ("functor F (X : sig type t and ", "t end) = X"),
        ("functor F (type t and ", "t) = X"),
        ("structure S = F (type t = u and ", "t = v)"),
        ("structure S = let type t = u and ", "t = v in T end"),
        ("local structure S = T and ", "S = U in end"),
    ];
    for (front, rest) in rows {
        check(&rt, front, rest, Some(Code::Repeated))?;
    }
    Ok(())
}

// A name that nothing may bind, and is bound.
#[test]
fn names_cannot_be_bound(rt: HostRuntime) -> Result<(), Fail> {
    let rows = [
        ("fun ", "true x = x"),
        ("fun x ", ":: y = x"),
        ("fun (x ", ":: y) z = x"),
        ("val rec ", "nil = fn x => x"),
        ("val rec (", "false : t) = fn x => x"),
        ("val ", "ref as x = 1"),
        ("val op ", "ref as x = 1"),
        ("val {", "ref as x} = 1"),
        ("datatype t = ", "true"),
        ("datatype t = A | op ", ":: of u"),
        ("datatype t = ", "it"),
        ("exception ", "nil"),
        ("exception ", "it of t"),
        ("exception ", "it = E"),
        ("signature G = sig val ", "true : t end"),
        ("signature G = sig datatype t = ", "it end"),
        ("signature G = sig exception ", "it end"),
        ("signature G = sig exception ", "ref of t end"),
        ("fun f op ", "= = 1"),
        ("val op ", "= = 1"),
    ];
    for (front, rest) in rows {
        check(&rt, front, rest, Some(Code::Rebinds))?;
    }
    Ok(())
}

// A function that is bound by `val rec` or by clauses and has not their form.
#[test]
fn functions_have_no_form(rt: HostRuntime) -> Result<(), Fail> {
    let rows = [
        ("val rec ", "f = 1", Code::RecNotFn),
        ("val rec ", "f = f", Code::RecNotFn),
        ("val rec ", "_ = fn x => x", Code::RecNotFn),
        ("val rec ", "A.f = fn x => x", Code::RecNotFn),
        ("val rec ", "f = (fn x => x) y", Code::RecNotFn),
        ("val rec ", "f = let in fn x => x end", Code::RecNotFn),
        (
            "val rec f = fn x => x and ",
            "(x, y) = fn z => z",
            Code::RecNotFn,
        ),
        (
            "val rec f = fn x => x and ",
            "g = (f; fn x => x)",
            Code::RecNotFn,
        ),
        ("fun f x = 1 | ", "g x = 2", Code::Clauses),
        ("fun f x = 1 | f y = 2 | ", "f x y = 3", Code::Clauses),
        (
            "infix ++ fun x ++ y = 1 | ",
            "(x ++ y) z = 2",
            Code::Clauses,
        ),
        ("infix ++ fun x ++ y = 1 | ", "op ++ x y = 2", Code::Clauses),
        ("fun f x = 1 and g x = 2 | ", "f y = 3", Code::Clauses),
    ];
    for (front, rest, code) in rows {
        check(&rt, front, rest, Some(code))?;
    }
    Ok(())
}

// A type variable that nothing binds, or that is bound where it is in scope.
#[test]
fn type_variables_are_not_bound(rt: HostRuntime) -> Result<(), Fail> {
    let rows = [
        ("type t = ", "'a"),
        ("type 'a t = 'a * ", "'b"),
        ("datatype t = A of ", "'a"),
        ("datatype 'a t = A of 'a and 'b u = B of ", "'a"),
        ("datatype t = A withtype u = ", "'a"),
        ("signature G = sig type t = ", "'a end"),
        ("signature G = sig datatype t = A of ", "'a end"),
        ("signature G = H where type t = ", "'a"),
        (
            "signature G = sig structure S : H where type 'a t = ",
            "'b end",
        ),
        ("val 'a x = let val ", "'a y = 1 in y end"),
        ("val 'a x = 1 and y = let val ", "'a z = 1 in z end"),
        ("val x = fn y : 'a => let val ", "'a z = 1 in y end"),
        ("val x = let exception E of 'a val ", "'a y = 1 in y end"),
        ("fun 'a f x = let fun ", "'a g y = 1 in g end"),
        ("fun f (x : 'a) = let fun ", "'a g y = 1 in g end"),
        ("val 'a x = let local in val ", "'a y = 1 end in y end"),
    ];
    for (front, rest) in rows {
        check(&rt, front, rest, Some(Code::TyvarScope))?;
    }
    Ok(())
}

// Of several breaches another one than the first, or at one place another rule than the one of the lower number.
#[test]
fn the_first_breach_is_told(rt: HostRuntime) -> Result<(), Fail> {
    let rows = [
        ("type t = ", "'a and t = {a : u, a : v}", Code::TyvarScope),
        ("datatype t = ", "it of 'a | it", Code::Rebinds),
        ("datatype t = A | ", "A of 'a | true", Code::Repeated),
        ("exception E and ", "E of {a : t, a : u}", Code::Repeated),
        ("val rec ", "true = 1", Code::Rebinds),
        ("fun f x = 1 | ", "true x = {a = 1, a = 2}", Code::Rebinds),
        ("val x = {a = 1, ", "a = 2} type t = 'a", Code::Repeated),
    ];
    for (front, rest, code) in rows {
        check(&rt, front, rest, Some(code))?;
    }
    Ok(())
}
