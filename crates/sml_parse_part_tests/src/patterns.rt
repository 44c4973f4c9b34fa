use crate::answers::stops;
use crate::source::joined;
use readers::Code;
use sml_fix::{Fixities, Side};
use sml_lex::{Token, lex};
use sml_parse_pat::{at_pat, name, pat};
use std::alloc::Global;
use std::process::Abort;
use std::test::Fail;
use tl_text::Name;

/// The calls that read a part of a pattern.
#[derive(Clone, Copy)]
enum Call {
    Name,
    Atom,
    Pattern,
    /// A pattern of a height of at most 3.
    Low,
}

fn called(
    alloc: Global,
    fix: &Fixities,
    tokens: &[Token],
    call: Call,
    byte: usize,
    refusal: Option<Code>,
) -> Result<bool, Fail> {
    match call {
        Call::Name => stops(name(alloc, fix, tokens), byte, refusal),
        Call::Atom => stops(at_pat(alloc, 1000, fix, tokens), byte, refusal),
        Call::Pattern => stops(pat(alloc, 1000, fix, tokens), byte, refusal),
        Call::Low => stops(pat(alloc, 3, fix, tokens), byte, refusal),
    }
}

/// The fixities of the start, and `infixr 6 ++`.
pub fn fixities(alloc: Global) -> Result<Fixities, Fail> {
    let mut fix = Fixities::start(alloc)?;
    let plus = Name::new(alloc, b"++")?;
    fix.set(plus, Some((6, Side::Right)))?;
    Ok(fix)
}

fn check(
    rt: &(impl Abort + AllocGlobal),
    call: Call,
    front: &[u8],
    rest: &[u8],
    refusal: Option<Code>,
) -> Result<(), Fail> {
    let alloc = rt.alloc();
    let source = joined(alloc, front, rest)?;
    if source.len() > 1000 {
        return Err("out of range".into());
    }
    let tokens = lex(alloc, 1, source.as_slice())?;
    let fix = fixities(alloc)?;
    let stood = called(alloc, &fix, tokens.items(), call, front.len(), refusal)?;
    assert!(rt; stood);
    Ok(())
}

// A call that reads too far, or not to the end of its phrase, or only answers that there is no memory.
#[test]
fn patterns(rt: HostRuntime) -> Result<(), Fail> {
    let cases: [(Call, &[u8], &[u8], Option<Code>); 36] = [
        (Call::Name, b"op + ", b"x", None),
        (Call::Name, b"A.x ", b"y", None),
        (Call::Name, b"", b"+ x", Some(Code::Grammar)),
        (Call::Name, b"op ", b"1", Some(Code::Grammar)),
        (Call::Atom, b"_ ", b"y", None),
        (Call::Atom, b"1 ", b"y", None),
        (Call::Atom, b"x ", b"y", None),
        (Call::Atom, b"() ", b"z", None),
        (Call::Atom, b"(x y) ", b"z", None),
        (Call::Atom, b"(x, y) ", b"z", None),
        (Call::Atom, b"[x, y] ", b"z", None),
        (Call::Atom, b"{a = x, b : t as y, ...} ", b"z", None),
        (Call::Atom, b"{a = x, ... ", b", b}", Some(Code::Grammar)),
        (Call::Atom, b"{+", b"}", Some(Code::Grammar)),
        (Call::Atom, b"[x, y", b"", Some(Code::Grammar)),
        (Call::Atom, b"", b"+ x", Some(Code::Grammar)),
        (Call::Pattern, b"x y", b"", None),
        (Call::Pattern, b"A x ", b"y", Some(Code::Grammar)),
        (Call::Pattern, b"op :: x ", b"=> z", None),
        (Call::Pattern, b"x :: y :: z ", b"=> z", None),
        (Call::Pattern, b"x + y : t ", b"=> z", None),
        (Call::Pattern, b"x as y ", b"=> z", None),
        (Call::Pattern, b"x : t as y : u ", b"=> z", None),
        (Call::Pattern, b"op x as A y ", b"=> z", None),
        (Call::Pattern, b"x :: ", b"=> z", Some(Code::Grammar)),
        (Call::Pattern, b"x as ", b"=> z", Some(Code::Grammar)),
        (Call::Pattern, b"A x ", b"as y", Some(Code::Grammar)),
        (Call::Pattern, b"", b"=> x", Some(Code::Grammar)),
        (Call::Pattern, b"x + y ", b"++ z", Some(Code::FixityClash)),
        (Call::Pattern, b"x ++ y ", b"+ z", Some(Code::FixityClash)),
        (Call::Pattern, b"x ++ y ++ z ", b"=> z", None),
        (Call::Low, b"x : t ", b"=> z", None),
        (Call::Low, b"(", b"x)", Some(Code::Depth)),
        (Call::Low, b"x :: y ", b":: z", Some(Code::Depth)),
        (Call::Low, b"x + y ", b"=> z", None),
        (Call::Low, b"[] ", b"=> z", None),
    ];
    for (call, front, rest, refusal) in cases {
        check(&rt, call, front, rest, refusal)?;
    }
    Ok(())
}
