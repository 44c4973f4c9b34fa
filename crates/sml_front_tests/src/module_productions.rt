//! For each alternative of the grammar of modules a source that has it, and one that is refused in it.

use crate::answers::{Row, check_row};
use std::test::Fail;

#[test]
fn structures(rt: HostRuntime) -> Result<(), Fail> {
    let rows: [Row; 24] = [
        ("structure S = struct end", "structure S = struct ", "in"),
        (
            "structure S = struct ; val x = 1 ; end",
            "structure S = struct ",
            "1 end",
        ),
        ("structure S = A.B.C", "structure S = ", "'a"),
        ("structure S = T : G", "structure S = T : ", "struct end"),
        ("structure S = T :> G", "structure S = T :> ", ":> G"),
        ("structure S = T : G :> H", "structure S = T : G :> ", ": H"),
        (
            "structure S = T : G where type t = u",
            "structure S = T ",
            "where type t = u",
        ),
        ("structure S = F (T)", "structure S = F (T ", ", U)"),
        ("structure S = F (T : G)", "structure S = F (T : ", ")"),
        ("structure S = F ()", "structure S = F ", "F"),
        (
            "structure S = F (val x = 1;)",
            "structure S = F (val x = 1; ",
            "in)",
        ),
        (
            "structure S = let val x = 1 in T end",
            "structure S = let val x = 1 in ",
            "end",
        ),
        (
            "structure S = let in T : G end",
            "structure S = let in T ",
            "; U end",
        ),
        ("structure S = T and U = V", "structure S = T and ", "1 = V"),
        ("structure S : G = T", "structure S : ", "= T"),
        ("structure S :> G = T", "structure S :> ", "1"),
        (
            "structure S : G where type t = u = T",
            "structure S : G where ",
            "t = u",
        ),
        (
            "structure S : G = T and U : H = V",
            "structure S : G ",
            "and U",
        ),
        (
            "local structure S = T in end",
            "local structure S = T ",
            "end",
        ),
        (
            "local in structure S = T end",
            "local in structure S ",
            "end",
        ),
        (
            "local open A in structure S = T end",
            "local open A in open B ",
            "in",
        ),
        (
            "structure S = T; structure U = V",
            "structure S = T; ",
            "and U = V",
        ),
        (
            "structure S = struct local in structure T = U end end",
            "structure S = struct val ",
            "end",
        ),
        (
            "structure S = struct structure T = U end",
            "structure S = struct ",
            "signature G = H",
        ),
    ];
    for row in rows {
        check_row(&rt, row)?;
    }
    Ok(())
}

#[test]
fn signatures(rt: HostRuntime) -> Result<(), Fail> {
    let rows: [Row; 8] = [
        ("signature G = sig end", "signature G = sig ", "in"),
        ("signature G = H", "signature G = H ", "H"),
        (
            "signature G = H where type t = u",
            "signature G = H where ",
            "t = u",
        ),
        (
            "signature G = H where type 'a A.t = u",
            "signature G = H where type t ",
            "and v",
        ),
        (
            "signature G = H where type t = u and type v = w",
            "signature G = H and ",
            "type v = w",
        ),
        (
            "signature G = H where type t = u where type v = w",
            "signature G = H where type t = ",
            "where",
        ),
        ("signature G = H and I = sig end", "signature G ", "sig end"),
        (
            "signature G = H where type t = u and I = J",
            "signature G = H where type t = u and ",
            "1 = J",
        ),
    ];
    for row in rows {
        check_row(&rt, row)?;
    }
    Ok(())
}

#[test]
fn specifications(rt: HostRuntime) -> Result<(), Fail> {
    let rows: [Row; 21] = [
        (
            "signature G = sig ; val x : t ; end",
            "signature G = sig val x : t ",
            "in",
        ),
        (
            "signature G = sig val x : t and + : u end",
            "signature G = sig val x : t and ",
            ": u",
        ),
        (
            "signature G = sig val x : t -> u end",
            "signature G = sig val x ",
            "= t",
        ),
        (
            "signature G = sig type t end",
            "signature G = sig type ",
            "end",
        ),
        (
            "signature G = sig type 'a t and ('a, 'b) u end",
            "signature G = sig type ('a, ",
            ") t",
        ),
        (
            "signature G = sig eqtype t and 'a u end",
            "signature G = sig eqtype t and ",
            "and u",
        ),
        (
            "signature G = sig eqtype t end",
            "signature G = sig eqtype t ",
            "= u",
        ),
        (
            "signature G = sig type t = u and v = w end",
            "signature G = sig type t = u and v ",
            "end",
        ),
        (
            "signature G = sig datatype 'a t = A and u = B end",
            "signature G = sig datatype t = A and ",
            "= B",
        ),
        (
            "signature G = sig datatype t = A | B of u end",
            "signature G = sig datatype t = A | ",
            "of u",
        ),
        (
            "signature G = sig datatype t = + end",
            "signature G = sig datatype t = ",
            "op + end",
        ),
        (
            "signature G = sig datatype t = datatype A.u end",
            "signature G = sig datatype t = datatype ",
            "'a",
        ),
        (
            "signature G = sig exception E and F of t end",
            "signature G = sig exception E of ",
            "and F",
        ),
        (
            "signature G = sig exception E end",
            "signature G = sig exception E ",
            "= F",
        ),
        (
            "signature G = sig structure S : H and T : I end",
            "signature G = sig structure S ",
            "= H",
        ),
        (
            "signature G = sig structure S : sig end end",
            "signature G = sig structure S : H and ",
            ": I",
        ),
        (
            "signature G = sig include sig end end",
            "signature G = sig include ",
            "end",
        ),
        (
            "signature G = sig include A B C end",
            "signature G = sig include A B ",
            "1",
        ),
        (
            "signature G = sig sharing type t = A.u = v end",
            "signature G = sig sharing type t ",
            "end",
        ),
        (
            "signature G = sig sharing S = A.T end",
            "signature G = sig sharing S ",
            ": H",
        ),
        (
            "signature G = sig sharing S = T = U end",
            "signature G = sig sharing S = ",
            "= T",
        ),
    ];
    for row in rows {
        check_row(&rt, row)?;
    }
    Ok(())
}

#[test]
fn functors(rt: HostRuntime) -> Result<(), Fail> {
    let rows: [Row; 8] = [
        ("functor F (X : G) = X", "functor F (X ", ") = X"),
        (
            "functor F (X : G where type t = u) = X",
            "functor F (X : G ",
            ", Y : H)",
        ),
        (
            "functor F (val x : t; type u) = X",
            "functor F (val x : t; ",
            "= X",
        ),
        (
            "functor F () = struct end",
            "functor F (",
            "struct end) = Y",
        ),
        ("functor F (X : G) : H = X", "functor F (X : G) : ", "= X"),
        ("functor F (X : G) :> H = X", "functor F (X : G) ", "X"),
        ("functor F () :> H = X : I", "functor F ", "= X"),
        (
            "functor F () = X and K (X : G) = Y",
            "functor F () = X and ",
            "(X : G)",
        ),
    ];
    for row in rows {
        check_row(&rt, row)?;
    }
    Ok(())
}

#[test]
fn programs(rt: HostRuntime) -> Result<(), Fail> {
    let rows: [Row; 8] = [
        ("", "", ")"),
        (";;", "; ", "and"),
        ("val x = 1; val y = 2", "val x = 1; ", ")"),
        ("val x = 1 val y = 2;", "val x = 1 ", "end"),
        ("structure S = T", "structure S = T ", "print x"),
        ("signature G = H", "signature G = H ", "1"),
        ("functor F () = X", "functor F () = X; ", "where"),
        (
            "signature G = H; functor F () = X; structure S = T",
            "signature G = H; ",
            "in",
        ),
    ];
    for row in rows {
        check_row(&rt, row)?;
    }
    Ok(())
}
