use crate::answers::stops;
use crate::source::joined;
use readers::Code;
use sml_lex::lex;
use sml_parse_sig::sig_exp;
use std::alloc::Global;
use std::process::Abort;
use std::test::Fail;

/// Whether a signature of at most this height is read or refused as expected, and the call stops where the rest begins.
fn answered(
    alloc: Global,
    room: u32,
    source: &[u8],
    byte: usize,
    refusal: Option<Code>,
) -> Result<bool, Fail> {
    if source.len() > 1000 {
        return Err("out of range".into());
    }
    let tokens = lex(alloc, 1, source)?;
    stops(sig_exp(alloc, room, tokens.items()), byte, refusal)
}

fn check(
    rt: &(impl Abort + AllocGlobal),
    room: u32,
    front: &[u8],
    rest: &[u8],
    refusal: Option<Code>,
) -> Result<(), Fail> {
    let source = joined(rt.alloc(), front, rest)?;
    let stood = answered(rt.alloc(), room, source.as_slice(), front.len(), refusal)?;
    assert!(rt; stood);
    Ok(())
}

// A form that is not read to its end, or that needs more room.
#[test]
fn forms(rt: HostRuntime) -> Result<(), Fail> {
    let cases: [(u32, &[u8]); 25] = [
        (1, b"G"),
        (1, b"sig end"),
        (3, b"sig ;; val x : t; end"),
        (3, b"sig val x : t and + : u end"),
        (2, b"sig eqtype t and 'a u type ('a, 'b) v and w end"),
        (3, b"sig type 'a t = u and v = w end"),
        (4, b"sig datatype 'a t = A | B of t and u = C end"),
        (3, b"sig datatype t = A and 'a u = B end"),
        (2, b"sig datatype t = datatype A.u end"),
        (3, b"sig exception E of t and F end"),
        (3, b"sig structure S : G and T : sig end end"),
        (3, b"sig include G include sig end end"),
        (2, b"sig include G H end"),
        (2, b"sig sharing type t = A.u = v end"),
        (2, b"sig sharing S = A.T = U end"),
        (2, b"G where type t = u"),
        (3, b"G where type t = u and type 'a A.v = w"),
        (3, b"G where type t = u where type v = w"),
        (5, b"sig include G where type t = u H end"),
        (
            5,
            b"sig structure S : G and T : H where type t = u and type v = w and U : I end",
        ),
        (1, b"sig end"),
        (3, b"sig val x : t end"),
        (3, b"sig include G end"),
        (2, b"sig include G H end"),
        (2, b"G where type t = u"),
    ];
    for (room, source) in cases {
        check(&rt, room, source, b"", None)?;
    }
    Ok(())
}

// A refusal at another token, or with another code.
#[test]
fn refusals(rt: HostRuntime) -> Result<(), Fail> {
    let cases: [(u32, &[u8], &[u8], Code); 34] = [
        (100, b"", b")", Code::Grammar),
        (100, b"sig val ", b"end", Code::Grammar),
        (100, b"sig val x ", b"end", Code::Grammar),
        (100, b"sig val x : ", b"end", Code::Grammar),
        (100, b"sig val x : t", b"", Code::Grammar),
        (100, b"sig val x : t ", b"of", Code::Grammar),
        (100, b"G where", b"", Code::Grammar),
        (100, b"G where ", b"t", Code::Grammar),
        (100, b"G where type t ", b"u", Code::Grammar),
        (100, b"G ", b"and type t = u", Code::Grammar),
        (100, b"sig type t = ", b"end", Code::Grammar),
        (100, b"sig type t and u ", b"= v end", Code::Grammar),
        (100, b"sig type t = u and v ", b"end", Code::Grammar),
        (
            100,
            b"sig datatype 'a t = ",
            b"datatype u end",
            Code::Grammar,
        ),
        (100, b"sig datatype t = A and u ", b"end", Code::Grammar),
        (
            100,
            b"sig include G H ",
            b"where type t = u end",
            Code::Grammar,
        ),
        (100, b"sig include sig end ", b"H end", Code::Grammar),
        (100, b"sig structure S ", b"end", Code::Grammar),
        (
            100,
            b"sig structure S : G and ",
            b"type t = u end",
            Code::Grammar,
        ),
        (100, b"sig sharing type t ", b"end", Code::Grammar),
        (100, b"sig sharing S ", b"end", Code::Grammar),
        (100, b"sig exception ", b"op E end", Code::Grammar),
        (100, b"sig eqtype t ", b"= u end", Code::Grammar),
        (0, b"", b"G", Code::Depth),
        (0, b"", b"1", Code::Grammar),
        (0, b"", b"sig end", Code::Depth),
        (2, b"sig ", b"val x : t end", Code::Depth),
        (2, b"sig include G ", b"end", Code::Depth),
        (2, b"sig include G", b"; include H I end", Code::Depth),
        (1, b"G ", b"where type t = u", Code::Depth),
        (2, b"G where type t = u ", b"and type v = w", Code::Depth),
        (2, b"sig type t ", b"= u end", Code::Depth),
        (2, b"sig datatype t = ", b"A end", Code::Depth),
        (2, b"sig exception E ", b"of t end", Code::Depth),
    ];
    for (room, front, rest, code) in cases {
        check(&rt, room, front, rest, Some(code))?;
    }
    Ok(())
}
