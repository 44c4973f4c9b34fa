//! For each alternative of the grammar of the core a source that has it, and one that is refused in it.

use crate::answers::{Row, check_row};
use std::test::Fail;

#[test]
fn constants(rt: HostRuntime) -> Result<(), Fail> {
    let rows: [Row; 8] = [
        ("val ~1 = 1", "val 1 ", "1 = 1"),
        ("val 0 = 0", "val x = # ", "0"),
        ("val x = ~1", "val x = # ", "~1"),
        ("val x = 0x1F", "infix ", "0x1 ++"),
        ("val x = 0w1", "val x = # ", "0w1"),
        ("val x = 0wxFF", "infix ", "0wx1 ++"),
        ("val x = \"a\\n\"", "val x = # ", "\"a\""),
        ("val x = #\"a\"", "val x = # ", "#\"a\""),
    ];
    for row in rows {
        check_row(&rt, row)?;
    }
    Ok(())
}

#[test]
fn names(rt: HostRuntime) -> Result<(), Fail> {
    let rows: [Row; 15] = [
        ("val x = y'", "val x = ", "+ y"),
        ("val x = ++", "val x = y + ", "+"),
        ("val x = op +", "val x = op ", "1"),
        ("val x = A.B.y", "fun A.f ", "x = 1"),
        ("val x = A.+", "infix ", "A.+"),
        ("val x = op A.+", "fun op A.+ ", "x = 1"),
        ("type 'a t = 'a", "type 'a ", "= u"),
        ("type t = u", "type ", "* = u"),
        ("type t = A.B.u", "type ", "A.t = u"),
        (
            "val x = {a = 1, + = 2, * = 3, 4 = 5}",
            "val x = {",
            "A.a = 1}",
        ),
        ("infix 9 ++", "infix ", "12 ++"),
        ("structure S = A", "structure ", "+ = A"),
        ("open A.B.C", "open ", "A.+"),
        ("signature G = H", "signature G = ", "A.B"),
        ("structure S = F (T)", "structure S = A.F ", "(T)"),
    ];
    for row in rows {
        check_row(&rt, row)?;
    }
    Ok(())
}

#[test]
fn patterns(rt: HostRuntime) -> Result<(), Fail> {
    let rows: [Row; 22] = [
        ("val _ = 1", "val _ ", "_ = 1"),
        ("val \"a\" = 1", "val ", "= 1"),
        ("val x = 1", "val ", "+ = 1"),
        ("val op + = 1", "val op ", "_ = 1"),
        ("val {} = 1", "val {", "= x} = 1"),
        ("val {a = x, ...} = 1", "val {a = x, ...", ", b} = 1"),
        ("val {...} = 1", "val {...", ", a} = 1"),
        ("val {2 = x, + = y} = 1", "val {2 ", "} = 1"),
        ("val {x : t as y} = 1", "val {x as ", "} = 1"),
        ("val {x, y : t} = 1", "val {x : ", "} = 1"),
        ("val () = 1", "val (", ", x) = 1"),
        ("val (x, y, z) = 1", "val (x, ", ") = 1"),
        ("val [] = 1", "val [", ", x] = 1"),
        ("val [x, y] = 1", "val [x, ", "] = 1"),
        ("val (x) = 1", "val (x ", "= 1"),
        ("val A.C x = 1", "val C x ", "y = 1"),
        ("val op :: (x, y) = 1", "val op :: x ", "op y = 1"),
        ("val x :: y :: z = 1", "val x :: ", "= 1"),
        ("val x : t : u = 1", "val x : ", "= 1"),
        ("val x as y = 1", "val (x) ", "as y = 1"),
        ("val op x : t as y as z = 1", "val x as ", "= 1"),
        ("val x : t as y : u = 1", "val A.x : t ", "as y = 1"),
    ];
    for row in rows {
        check_row(&rt, row)?;
    }
    Ok(())
}

#[test]
fn types(rt: HostRuntime) -> Result<(), Fail> {
    let rows: [Row; 10] = [
        ("type t = 'a", "type t = 'a ", "'b"),
        ("type t = {}", "type t = {", ", a : u}"),
        ("type t = {a : u, 1 : v}", "type t = {a ", "= u}"),
        ("type t = u", "type t = ", "op u"),
        ("type t = u A.v w", "type t = u v ", "'a"),
        ("type t = (u, v) w x", "type t = (u, v) ", "-> w"),
        ("type t = u * v * w", "type t = u * ", "* v"),
        ("type t = u -> v -> w", "type t = u -> ", "-> w"),
        ("type t = u * v -> w * x", "type t = u * ", "-> v"),
        ("type t = (u -> v) w", "type t = (u ", "]"),
    ];
    for row in rows {
        check_row(&rt, row)?;
    }
    Ok(())
}

#[test]
fn expressions(rt: HostRuntime) -> Result<(), Fail> {
    let rows: [Row; 28] = [
        ("val x = 1", "val x = ", "=> 1"),
        ("val x = A.y", "val x = ", "= 1"),
        ("val x = op =", "val x = op ", "(1)"),
        ("val x = {}", "val x = {", ", a = 1}"),
        ("val x = {a = 1, 2 = y}", "val x = {a ", "}"),
        ("val x = #a y", "val x = # ", "(a)"),
        ("val x = ()", "val x = (", ", 1)"),
        ("val x = (1, 2, 3)", "val x = (1, ", ")"),
        ("val x = []", "val x = [", "; 1]"),
        ("val x = [1, 2]", "val x = [1, ", "]"),
        ("val x = (1; 2; 3)", "val x = (1; ", ")"),
        ("val x = let in 1 end", "val x = let ", "1 in 2 end"),
        (
            "val x = let val y = 1; in 1; 2 end",
            "val x = let val y = 1 in ",
            "end",
        ),
        ("val x = (1)", "val x = (1 ", "]"),
        ("val x = f 1 y", "val x = f 1 ", "=> y"),
        ("val x = 1 + 2 * y", "val x = 1 + ", "* y"),
        ("val x = a = b", "val x = a = ", "= b"),
        ("val x = y : t : u", "val x = y : ", "1"),
        ("val x = y : t andalso z", "val x = y : t ", "op + z"),
        ("val x = y andalso z", "val x = y andalso ", "andalso z"),
        ("val x = y orelse z", "val x = y orelse ", ")"),
        ("val x = y handle E => 1", "val x = y handle ", "=> 1"),
        ("val x = raise E", "val x = raise ", "handle"),
        (
            "val x = if a then b else c",
            "val x = if a then b ",
            "val y = 1",
        ),
        ("val x = while a do b", "val x = while a ", "then b"),
        ("val x = case a of b => c", "val x = case a ", "=> c"),
        ("val x = fn a => b", "val x = fn ", "=> b"),
        ("val x = f (fn a => b)", "val x = f ", "fn a => b"),
    ];
    for row in rows {
        check_row(&rt, row)?;
    }
    Ok(())
}

#[test]
fn matches(rt: HostRuntime) -> Result<(), Fail> {
    let rows: [Row; 7] = [
        (
            "val x = fn a => b | c => d",
            "val x = fn a => b | ",
            "| c => d",
        ),
        ("val x = fn A a => b", "val x = fn a ", "= b"),
        (
            "val x = fn a => fn b => c | d => e",
            "val x = fn a => ",
            "| d => e",
        ),
        (
            "val x = case a of b => c | d => e",
            "val x = case a of b => c ",
            "=> d",
        ),
        (
            "val x = y handle E => 1 | F z => 2",
            "val x = y handle E ",
            "| F",
        ),
        ("fun f x = fn a => b | c => d", "fun f x = 1 | ", "fn"),
        (
            "fun f x = (fn a => b) | f y = z",
            "fun f x = fn a => b | f y ",
            "= z",
        ),
    ];
    for row in rows {
        check_row(&rt, row)?;
    }
    Ok(())
}

#[test]
fn declarations(rt: HostRuntime) -> Result<(), Fail> {
    let rows: [Row; 22] = [
        ("val x = 1 and y = 2", "val x = 1 and ", "= 2"),
        ("val 'a x = 1", "val 'a ", "= 1"),
        ("val ('a, 'b) x = 1", "val ('a, ", ") x = 1"),
        ("val rec x = fn y => y and z = 1", "val rec ", "rec x = 1"),
        ("val 'a rec x = 1", "val rec ", "'a x = 1"),
        ("fun f x = x and g x = x", "fun f x = x and ", "= x"),
        ("fun 'a f x = x", "fun 'a ", "= x"),
        ("type t = u and 'a v = w", "type t ", "and v"),
        ("datatype t = A and u = B", "datatype t = A and u ", "and v"),
        (
            "datatype t = datatype A.u",
            "datatype t = datatype u ",
            "= v",
        ),
        ("datatype 'a t = A", "datatype 'a t = ", "datatype u"),
        ("exception E and F", "exception E and ", "and F"),
        (
            "local val x = 1 in val y = 2 end",
            "local val x = 1 ",
            "end",
        ),
        ("local in end", "local in ", "in end"),
        ("open A B.C", "open A ", ", B"),
        ("open A", "open ", "1"),
        ("infix ++", "infix 5 ", "5 ++"),
        ("infix 5 ++ --", "infix ++ ", "5"),
        ("infixr 5 ++", "infixr ", "op ++"),
        ("nonfix + -", "nonfix ", "5 +"),
        ("val x = 1; ; val y = 2;", "val x = 1; ", "and y = 2"),
        (
            "val x = let ; val y = 1 val z = 2; in 1 end",
            "val x = let val y = 1 ",
            "end",
        ),
    ];
    for row in rows {
        check_row(&rt, row)?;
    }
    Ok(())
}

#[test]
fn bindings(rt: HostRuntime) -> Result<(), Fail> {
    let rows: [Row; 20] = [
        ("val (x, y) = z", "val (x, y) ", "z"),
        ("fun f x y = x", "fun f ", "= 1"),
        ("fun f x : t = x", "fun f x : ", "= 1"),
        ("fun op f x = x", "fun op ", "(f) x = 1"),
        ("fun f x = x | f y = y", "fun f x = x | f y ", "| f z"),
        ("infix ++ fun x ++ y : t = x", "infix ++ fun x ++ ", "= x"),
        ("infix ++ fun (x ++ y) = x", "infix ++ fun (x ++ y ", "= x"),
        (
            "infix ++ fun (x ++ y) z : t = x",
            "infix ++ fun (x ++ y) z ",
            "++ w = x",
        ),
        ("type 'a t = u", "type ('a, ", "t) u = v"),
        ("type ('a, 'b) t = u", "type t = ", "= u"),
        ("datatype 'a t = A", "datatype ('a, ", "t) u = A"),
        ("datatype t = A | op + of u", "datatype t = A | ", "+ of u"),
        ("datatype t = A of u * v | B", "datatype t = A of ", "| B"),
        (
            "datatype t = A withtype u = v",
            "datatype t = A withtype ",
            "= w",
        ),
        (
            "datatype t = A withtype u = v and w = x",
            "datatype t = A withtype u ",
            "and w",
        ),
        ("exception op ++ of t", "exception E ", ": t"),
        ("exception E of t -> u", "exception E of ", "-> u"),
        ("exception E = F", "exception E = F ", "of t"),
        ("exception E = op A.F", "exception E = ", "of t"),
        (
            "exception E of t and op F = G",
            "exception E of t and ",
            "of u",
        ),
    ];
    for row in rows {
        check_row(&rt, row)?;
    }
    Ok(())
}
