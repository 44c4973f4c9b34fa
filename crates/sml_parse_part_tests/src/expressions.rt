use crate::answers::stops;
use crate::patterns::fixities;
use crate::source::joined;
use readers::{Code, ReadError};
use sml_ast::Exp;
use sml_fix::Side;
use sml_lex::{Token, lex};
use sml_parse_exp::{Tall, dec, exp};
use sml_scope::Scope;
use std::alloc::Global;
use std::process::Abort;
use std::test::Fail;
use tl_text::Boxed;

/// Whether an expression of at most this height is read or refused as expected, and the call stops where the rest begins.
fn answered(
    alloc: Global,
    room: u32,
    source: &[u8],
    byte: usize,
    refusal: Option<Code>,
) -> Result<bool, Fail> {
    if source.len() > 1000 {
        return Err("out of range".into());
    }
    let tokens = lex(alloc, 1, source)?;
    let mut scope = Scope::of(alloc, &fixities(alloc)?)?;
    stops(exp(alloc, room, &mut scope, tokens.items()), byte, refusal)
}

fn check(
    rt: &(impl Abort + AllocGlobal),
    room: u32,
    front: &[u8],
    rest: &[u8],
    refusal: Option<Code>,
) -> Result<(), Fail> {
    let source = joined(rt.alloc(), front, rest)?;
    let stood = answered(rt.alloc(), room, source.as_slice(), front.len(), refusal)?;
    assert!(rt; stood);
    Ok(())
}

// A form that is not read to its end, or that is read too far.
#[test]
fn forms(rt: HostRuntime) -> Result<(), Fail> {
    let cases: [(u32, &[u8], &[u8], Option<Code>); 21] = [
        (100, b"f 0 1 ~2 0w3 0x4 0wx5 \"a\" #\"b\" ", b")", None),
        (100, b"f op + A.B.x op = op A.y op z A.+ ", b"of", None),
        (100, b"f {} {a = 1} {b = x, 2 = y : t, * = z} ", b"}", None),
        (100, b"#a x #1 # * ", b"]", None),
        (100, b"f () (x) (x, 1, ()) (x; 1; ()) ", b", y", None),
        (100, b"f [] [x] [x, [y, z]] ", b"'a", None),
        (
            100,
            b"let ;; val x = 1;; fun f y = y type t = u; in f; x end y ",
            b"; z",
            None,
        ),
        (100, b"f ", b"fn x => x", None),
        (100, b"x + y * z - f u = 1 :: v @ w ", b"in", None),
        (100, b"x + y : t : u * v ", b"and", None),
        (
            100,
            b"x andalso y : t andalso z orelse u orelse v andalso w ",
            b"| x",
            None,
        ),
        (100, b"x andalso if y then 1 else z orelse u ", b")", None),
        (100, b"x orelse y handle y => 1 | z => 2 ", b"val", None),
        (100, b"raise x : t handle _ => y ", b"else", None),
        (100, b"if x then y else z + 1 : t ", b"else u", None),
        (100, b"while x andalso y do f z ", b"; u", None),
        (100, b"case fn x => y of z => 1 | u => 2 ", b"of", None),
        (100, b"fn x => x : t | {a = _, ...} => 1 ", b"fun", None),
        (
            100,
            b"fn x => case x of y :: z => y | _ => fn z => z ",
            b"structure",
            None,
        ),
        (100, b"let infix 6 -- in x -- y end --", b"", None),
        (
            100,
            b"let local infix 7 -- in infixr 3 ** end in x ** -- ** y end ",
            b")",
            None,
        ),
    ];
    for (room, front, rest, refusal) in cases {
        check(&rt, room, front, rest, refusal)?;
    }
    Ok(())
}

// A refusal at another token, or with another code; directives that leave their scope, or end before it.
#[test]
fn refusals(rt: HostRuntime) -> Result<(), Fail> {
    let cases: [(u32, &[u8], &[u8], Option<Code>); 21] = [
        (100, b"", b")", Some(Code::Grammar)),
        (100, b"", b"+ x", Some(Code::Grammar)),
        (100, b"#", b"0", Some(Code::Grammar)),
        (100, b"(x, ", b")", Some(Code::Grammar)),
        (100, b"(x, y", b"; z)", Some(Code::Grammar)),
        (100, b"{a = 1, b", b"}", Some(Code::Grammar)),
        (100, b"let val x = 1 in ", b"end", Some(Code::Grammar)),
        (100, b"let ", b"x in y end", Some(Code::Grammar)),
        (100, b"x + ", b"* y", Some(Code::Grammar)),
        (100, b"x + ", b"if y then 1 else 2", Some(Code::Grammar)),
        (100, b"x andalso ", b"orelse y", Some(Code::Grammar)),
        (100, b"if x then y", b"", Some(Code::Grammar)),
        (
            100,
            b"fn x => fn y => y | z => z | ",
            b")",
            Some(Code::Grammar),
        ),
        (100, b"x + y ", b"++ z", Some(Code::FixityClash)),
        (100, b"x ++ y ", b"+ z", Some(Code::FixityClash)),
        (
            100,
            b"let infix 6 ++ in x ++ y + z end ++ u ",
            b"+ v",
            Some(Code::FixityClash),
        ),
        (
            100,
            b"let nonfix + in + x y end +",
            b"",
            Some(Code::Grammar),
        ),
        (100, b"let infix 6 -- in x -- ", b"end", Some(Code::Grammar)),
        (
            100,
            b"let local infix 7 -- in infixr 3 ** end in x -- y ** ",
            b"end",
            Some(Code::Grammar),
        ),
        (
            100,
            b"let local infix 7 -- in val x = y -- ",
            b"end in x end",
            Some(Code::Grammar),
        ),
        (
            100,
            b"let abstype t = A with infix 6 -- end in x -- ",
            b"end",
            Some(Code::Grammar),
        ),
    ];
    for (room, front, rest, refusal) in cases {
        check(&rt, room, front, rest, refusal)?;
    }
    Ok(())
}

// A height that is counted too high, or too low.
#[test]
fn rooms(rt: HostRuntime) -> Result<(), Fail> {
    let cases: [(u32, &[u8], &[u8], Option<Code>); 18] = [
        (0, b"", b")", Some(Code::Grammar)),
        (1, b"", b"x", Some(Code::Depth)),
        (2, b"f () [] {} #a 1 ", b")", None),
        (2, b"x ", b"+ y", Some(Code::Depth)),
        (3, b"x : t ", b": u", Some(Code::Depth)),
        (3, b"(", b"x)", Some(Code::Depth)),
        (3, b"[", b"+ x]", Some(Code::Grammar)),
        (4, b"f (x) [x, y] {a = x} (x; y) let in x end ", b")", None),
        (3, b"x + y ", b"- z", Some(Code::Depth)),
        (3, b"x ++ y ", b"++ z", Some(Code::Depth)),
        (3, b"x + y ", b"++ z", Some(Code::FixityClash)),
        (3, b"x andalso y ", b"andalso z", Some(Code::Depth)),
        (3, b"x orelse y ", b"orelse z", Some(Code::Depth)),
        (3, b"raise ", b"raise x", Some(Code::Depth)),
        (3, b"if x then y else z ", b"do", None),
        (3, b"x ", b"handle y => z", Some(Code::Depth)),
        (3, b"", b"fn x => x", Some(Code::Depth)),
        (4, b"x handle y => z | u => v ", b")", None),
    ];
    for (room, front, rest, refusal) in cases {
        check(&rt, room, front, rest, refusal)?;
    }
    Ok(())
}

/// The side to which an expression of two operators groups.
fn side(tree: &Exp) -> Option<Side> {
    match tree {
        Exp::Infix(_, left, _, right) => match (left.get(), right.get()) {
            (Exp::Infix(..), Exp::Apply(..)) => Some(Side::Left),
            (Exp::Apply(..), Exp::Infix(..)) => Some(Side::Right),
            _ => None,
        },
        _ => None,
    }
}

/// The side to which what was read groups.
fn grouped(
    found: Result<(Tall<Boxed<Exp>>, &[Token]), ReadError<'_, Token>>,
) -> Result<Option<Side>, Fail> {
    match found {
        Ok((read, _)) => Ok(side(read.tree.get())),
        Err(_) => Err("refused".into()),
    }
}

/// The side to which an expression groups behind a declaration.
fn grouped_behind(
    alloc: Global,
    declaration: &[u8],
    expression: &[u8],
) -> Result<Option<Side>, Fail> {
    if declaration.len() > 1000 || expression.len() > 1000 {
        return Err("out of range".into());
    }
    let before = lex(alloc, 1, declaration)?;
    let tokens = lex(alloc, 1, expression)?;
    let mut scope = Scope::of(alloc, &fixities(alloc)?)?;
    let found = dec(alloc, 100, &mut scope, before.items());
    if !stops(found, declaration.len(), None)? {
        return Err("not read".into());
    }
    grouped(exp(alloc, 100, &mut scope, tokens.items()))
}

// A row that groups to the wrong side, or under other directives than those in force.
#[test]
fn sides(rt: HostRuntime) -> Result<(), Fail> {
    let cases: [(&[u8], &[u8], Option<Side>); 8] = [
        (b"open A", b"1 - 2 - 3", Some(Side::Left)),
        (b"open A", b"1 ++ 2 ++ 3", Some(Side::Right)),
        (b"open A", b"1 + 2 * 3", Some(Side::Right)),
        (b"infixr 6 -", b"1 - 2 - 3", Some(Side::Right)),
        (b"infix 6 ++", b"1 ++ 2 ++ 3", Some(Side::Left)),
        (b"nonfix -", b"1 - 2 - 3", None),
        (b"local infixr 6 - in end", b"1 - 2 - 3", Some(Side::Left)),
        (b"local in infixr 6 - end", b"1 - 2 - 3", Some(Side::Right)),
    ];
    for (declaration, expression, expected) in cases {
        let found = grouped_behind(rt.alloc(), declaration, expression)?;
        assert!(rt; found == expected);
    }
    Ok(())
}
