use crate::answers::stops;
use crate::patterns::fixities;
use crate::source::joined;
use readers::Code;
use sml_fix::Side;
use sml_lex::lex;
use sml_parse_exp::dec;
use sml_scope::Scope;
use std::alloc::Global;
use std::process::Abort;
use std::test::Fail;
use tl_text::Name;

/// Whether a declaration of at most this height is read or refused as expected, and the call stops where the rest begins.
fn answered(
    alloc: Global,
    room: u32,
    source: &[u8],
    byte: usize,
    refusal: Option<Code>,
) -> Result<bool, Fail> {
    if source.len() > 1000 {
        return Err("out of range".into());
    }
    let tokens = lex(alloc, 1, source)?;
    let mut scope = Scope::of(alloc, &fixities(alloc)?)?;
    stops(dec(alloc, room, &mut scope, tokens.items()), byte, refusal)
}

fn check(
    rt: &(impl Abort + AllocGlobal),
    room: u32,
    front: &[u8],
    rest: &[u8],
    refusal: Option<Code>,
) -> Result<(), Fail> {
    let source = joined(rt.alloc(), front, rest)?;
    let stood = answered(rt.alloc(), room, source.as_slice(), front.len(), refusal)?;
    assert!(rt; stood);
    Ok(())
}

// A form that is not read to its end, or that is read too far.
#[test]
fn forms(rt: HostRuntime) -> Result<(), Fail> {
    let cases: [(u32, &[u8], &[u8], Option<Code>); 20] = [
        (100, b"val 'a x = 1 and (y, _) : t = u ", b"in", None),
        (
            100,
            b"val x as y :: z : t = fn x => y | z => 1 ",
            b"; y",
            None,
        ),
        (
            100,
            b"val ('a, 'b) rec f = fn x => x and g = f ",
            b"end",
            None,
        ),
        (100, b"fun f x = 1 | f _ = 2 and g 1 : t = 3 ", b"fun", None),
        (
            100,
            b"fun 'a op f x y = case x of 1 => y | _ => z and g y = 1 ",
            b")",
            None,
        ),
        (
            100,
            b"fun ('a, 'b) f (x, y) {z, ...} [] = x ",
            b"type",
            None,
        ),
        (100, b"fun x + y = z | x + _ : t = 1 ", b"datatype", None),
        (
            100,
            b"fun (x ++ y) z u = 1 | (x ++ y) = 2 ",
            b"abstype",
            None,
        ),
        (100, b"fun op + (x, y) = x ++ y ++ 1 ", b"local", None),
        (
            100,
            b"type t = u and 'a v = 'a w and ('a, 'b) ++ = 'a -> 'b ",
            b"open",
            None,
        ),
        (
            100,
            b"datatype 'a t = A | op :: of 'a * t and ('a, 'b) u = op C withtype v = w and 'a x = y ",
            b"infixr",
            None,
        ),
        (100, b"datatype t = datatype A.u ", b"nonfix", None),
        (
            100,
            b"abstype t = A and 'a u = B of t withtype v = w with ;; val x = A; type y = v end ",
            b";",
            None,
        ),
        (
            100,
            b"exception E of t and op + and F = A.G and op - = op B.+ ",
            b"functor",
            None,
        ),
        (100, b"local in end ", b"val", None),
        (
            100,
            b"local val x = 1; in ;; val y = x;; local in open A end; end ",
            b"end",
            None,
        ),
        (100, b"open A B.C ", b"then", None),
        (100, b"infix ++ -- x ", b"]", None),
        (100, b"infixr 9 ++ ", b"else", None),
        (100, b"nonfix + y ", b"", None),
    ];
    for (room, front, rest, refusal) in cases {
        check(&rt, room, front, rest, refusal)?;
    }
    Ok(())
}

// A refusal at another token, or with another code.
#[test]
fn refusals(rt: HostRuntime) -> Result<(), Fail> {
    let cases: [(u32, &[u8], &[u8], Option<Code>); 17] = [
        (100, b"", b"structure S = T", Some(Code::Grammar)),
        (100, b"val ", b"= 1", Some(Code::Grammar)),
        (100, b"val x ", b"and y = 1", Some(Code::Grammar)),
        (100, b"val x = 1 ", b"of", Some(Code::Grammar)),
        (100, b"val x = y + z ", b"++ u", Some(Code::FixityClash)),
        (100, b"fun f ", b"= 1", Some(Code::Grammar)),
        (100, b"fun 1 ", b"= 2", Some(Code::Grammar)),
        (100, b"fun x + y ", b"z = 1", Some(Code::Grammar)),
        (100, b"fun (x + y) : ", b"= 1", Some(Code::Grammar)),
        (
            100,
            b"fun f x = fn y => y | f _ ",
            b"= 1",
            Some(Code::Grammar),
        ),
        (100, b"type t = u ", b"= v", Some(Code::Grammar)),
        (
            100,
            b"datatype t = datatype u ",
            b"and v = A",
            Some(Code::Grammar),
        ),
        (100, b"abstype t = A ", b"end", Some(Code::Grammar)),
        (
            100,
            b"abstype t = A with val x = 1 ",
            b"in",
            Some(Code::Grammar),
        ),
        (100, b"local val x = 1 ", b"end", Some(Code::Grammar)),
        (
            100,
            b"local in ",
            b"structure S = T end",
            Some(Code::Grammar),
        ),
        (100, b"open A ", b"+", Some(Code::Grammar)),
    ];
    for (room, front, rest, refusal) in cases {
        check(&rt, room, front, rest, refusal)?;
    }
    Ok(())
}

// A height that is counted too high, or too low.
#[test]
fn rooms(rt: HostRuntime) -> Result<(), Fail> {
    let cases: [(u32, &[u8], &[u8], Option<Code>); 18] = [
        (0, b"", b"x", Some(Code::Grammar)),
        (0, b"", b"local in end", Some(Code::Depth)),
        (1, b"local in end ", b"val", None),
        (1, b"local ", b"infix ++ in end", Some(Code::Depth)),
        (1, b"datatype t = datatype u ", b"val", None),
        (2, b"datatype t = A | B withtype u = v ", b"val", None),
        (2, b"datatype t = A ", b"of u", Some(Code::Depth)),
        (1, b"", b"type t = u", Some(Code::Depth)),
        (2, b"exception E ", b"of t", Some(Code::Depth)),
        (2, b"abstype t = A with infix ++ end ", b"val", None),
        (
            2,
            b"abstype t = A with ",
            b"val x = 1 end",
            Some(Code::Depth),
        ),
        (2, b"", b"val x = 1", Some(Code::Depth)),
        (3, b"val x = 1 ", b"val", None),
        (3, b"val x = 1 ", b"+ 2", Some(Code::Depth)),
        (3, b"", b"fun f x = 1", Some(Code::Depth)),
        (4, b"fun f x : t = 1 ", b"val", None),
        (4, b"fun f x = 1 ", b"+ 2", Some(Code::Depth)),
        (4, b"fun f (", b"x) = 1", Some(Code::Depth)),
    ];
    for (room, front, rest, refusal) in cases {
        check(&rt, room, front, rest, refusal)?;
    }
    Ok(())
}

/// How an identifier binds behind a declaration.
fn behind(alloc: Global, source: &[u8], word: &[u8]) -> Result<Option<(u8, Side)>, Fail> {
    if source.len() > 1000 {
        return Err("out of range".into());
    }
    let tokens = lex(alloc, 1, source)?;
    let mut scope = Scope::of(alloc, &fixities(alloc)?)?;
    let found = dec(alloc, 100, &mut scope, tokens.items());
    if !stops(found, source.len(), None)? {
        return Err("not read".into());
    }
    let name = Name::new(alloc, word)?;
    Ok(scope.fixities().get(&name))
}

// A directive that is not in force behind its declaration, or is although it was in a scope inside.
#[test]
fn directives(rt: HostRuntime) -> Result<(), Fail> {
    let cases: [(&[u8], &[u8], Option<(u8, Side)>); 8] = [
        (b"infix 4 -- +", b"--", Some((4, Side::Left))),
        (b"infixr --", b"--", Some((0, Side::Right))),
        (b"val x = let infix 4 -- in y end", b"--", None),
        (
            b"fun f x = let nonfix + in y end",
            b"+",
            Some((6, Side::Left)),
        ),
        (b"local infix 4 -- in infixr 5 ** end", b"--", None),
        (
            b"local infix 4 -- in infixr 5 ** end",
            b"**",
            Some((5, Side::Right)),
        ),
        (
            b"local infix 1 -- in infix 2 -- end",
            b"--",
            Some((2, Side::Left)),
        ),
        (
            b"abstype t = A with infix 4 -- end",
            b"--",
            Some((4, Side::Left)),
        ),
    ];
    for (source, word, expected) in cases {
        let found = behind(rt.alloc(), source, word)?;
        assert!(rt; found == expected);
    }
    Ok(())
}
