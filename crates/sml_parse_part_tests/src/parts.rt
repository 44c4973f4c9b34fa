use crate::answers::stops;
use crate::source::joined;
use readers::Code;
use sml_fix::Fixities;
use sml_lex::{Token, lex};
use sml_parse_bind::{
    abstract_types, any_vid, clause_front, datatype, directive, exceptions, long_strid, opens,
    operator, plain_directive, tycon, types, under_two,
};
use std::alloc::Global;
use std::process::Abort;
use std::test::Fail;

const ROOM: u32 = 100;

/// The calls that read a part of a declaration, behind its first word.
#[derive(Clone, Copy)]
enum Part {
    Types,
    Datatype,
    Exceptions,
    Opens,
    AbstractTypes,
    Directive,
    PlainDirective,
    Front,
    Variables,
    AnyVid,
    Tycon,
    LongStrid,
    Operator,
}

/// The calls whose tree begins at the place of a word before it.
fn of_part(
    alloc: Global,
    fix: &Fixities,
    tokens: &[Token],
    part: Part,
    byte: usize,
    refusal: Option<Code>,
) -> Result<bool, Fail> {
    let [first, ..] = tokens else {
        return Err("no token".into());
    };
    let place = first.place;
    match part {
        Part::Types => stops(types(alloc, place, ROOM, tokens), byte, refusal),
        Part::Datatype => stops(datatype(alloc, place, ROOM, fix, tokens), byte, refusal),
        Part::Exceptions => stops(exceptions(alloc, place, ROOM, fix, tokens), byte, refusal),
        Part::Opens => stops(opens(alloc, place, tokens), byte, refusal),
        other => of_piece(alloc, fix, tokens, other, byte, refusal),
    }
}

fn of_piece(
    alloc: Global,
    fix: &Fixities,
    tokens: &[Token],
    part: Part,
    byte: usize,
    refusal: Option<Code>,
) -> Result<bool, Fail> {
    match part {
        Part::AbstractTypes => stops(abstract_types(alloc, ROOM, fix, tokens), byte, refusal),
        Part::Directive => stops(directive(alloc, tokens), byte, refusal),
        Part::PlainDirective => stops(plain_directive(alloc, tokens), byte, refusal),
        Part::Front => stops(clause_front(alloc, ROOM, true, fix, tokens), byte, refusal),
        Part::Variables => stops(under_two(alloc, tokens), byte, refusal),
        Part::AnyVid => stops(any_vid(alloc, tokens), byte, refusal),
        Part::Tycon => stops(tycon(alloc, tokens), byte, refusal),
        Part::LongStrid => stops(long_strid(alloc, tokens), byte, refusal),
        Part::Operator => stops(operator(alloc, fix, tokens), byte, refusal),
        _ => Err("no call".into()),
    }
}

fn check(
    rt: &(impl Abort + AllocGlobal),
    part: Part,
    front: &[u8],
    rest: &[u8],
    refusal: Option<Code>,
) -> Result<(), Fail> {
    let alloc = rt.alloc();
    let source = joined(alloc, front, rest)?;
    if source.len() > 1000 {
        return Err("out of range".into());
    }
    let tokens = lex(alloc, 1, source.as_slice())?;
    let fix = Fixities::start(alloc)?;
    let stood = of_part(alloc, &fix, tokens.items(), part, front.len(), refusal)?;
    assert!(rt; stood);
    Ok(())
}

// A call that reads too far, or not to the end of its part, or only answers that there is no memory.
#[test]
fn parts(rt: HostRuntime) -> Result<(), Fail> {
    let cases: [(Part, &[u8], &[u8], Option<Code>); 36] = [
        (Part::Types, b"t = u and 'a v = w ", b"val", None),
        (Part::Types, b"t = ", b"", Some(Code::Grammar)),
        (Part::Types, b"", b"* = u", Some(Code::Grammar)),
        (Part::Datatype, b"t = A | B of u withtype v = w", b"", None),
        (Part::Datatype, b"t = datatype A.u", b"", None),
        (Part::Datatype, b"t = ", b"| A", Some(Code::Grammar)),
        (Part::Exceptions, b"E of t and op F = A.G", b"", None),
        (Part::Exceptions, b"E of ", b"and", Some(Code::Grammar)),
        (Part::Opens, b"A B.C ", b"val", None),
        (Part::Opens, b"", b"1", Some(Code::Grammar)),
        (
            Part::AbstractTypes,
            b"t = A and u = B withtype v = w ",
            b"with",
            None,
        ),
        (
            Part::AbstractTypes,
            b"t = ",
            b"datatype u",
            Some(Code::Grammar),
        ),
        (Part::Directive, b"5 ++ --", b"", None),
        (Part::Directive, b"++ ", b"val", None),
        (Part::Directive, b"", b"12 ++", Some(Code::Grammar)),
        (Part::Directive, b"5", b"", Some(Code::Grammar)),
        (Part::PlainDirective, b"+ - ", b"val", None),
        (Part::PlainDirective, b"", b"5", Some(Code::Grammar)),
        (Part::Front, b"f x y ", b"= 1", None),
        (Part::Front, b"op f x ", b": t", None),
        (Part::Front, b"x + y ", b"= 1", None),
        (Part::Front, b"(x + y) z ", b"= 1", None),
        (Part::Front, b"f ", b"= 1", Some(Code::Grammar)),
        (Part::Front, b"x + ", b"= 1", Some(Code::Grammar)),
        (Part::Variables, b"'a ", b"x", None),
        (Part::Variables, b"('a, 'b) ", b"x", None),
        (Part::Variables, b"", b"(x) = ", None),
        (Part::Variables, b"('a, ", b") x", Some(Code::Grammar)),
        (Part::AnyVid, b"+ ", b"x", None),
        (Part::Tycon, b"t ", b"u", None),
        (Part::Tycon, b"", b"* u", Some(Code::Grammar)),
        (Part::LongStrid, b"A.B", b"", None),
        (Part::LongStrid, b"", b"+", Some(Code::Grammar)),
        (Part::Operator, b"+ ", b"1", None),
        (Part::Operator, b"= ", b"1", None),
        (Part::Operator, b"", b"x", Some(Code::Grammar)),
    ];
    for (part, front, rest, refusal) in cases {
        check(&rt, part, front, rest, refusal)?;
    }
    Ok(())
}
