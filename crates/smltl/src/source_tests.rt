use crate::end::End;
use crate::tests::{COMMAND, NO_FAULTS, RT, joined, refused, run_over};
use std::alloc::Global;
use std::test::Fail;
use tl_text::Code;

/// A source with one part as many times.
#[derive(Clone, Copy)]
struct Large {
    front: &'static str,
    part: &'static str,
    count: usize,
    behind: &'static str,
}

// A unit with another text or name, or a source that is refused wrongly.
#[test]
fn translates_a_source(rt: HostRuntime) -> Result<(), Fail> {
    let alloc = rt.alloc();
    let cases: [(&[u8], &str); 18] = [
        (b"val _ = print \"hi\\n\"", "  let _ = Rt.print \"hi\\n\"\n"),
        (b"", ""),
        (b" \t\r\n", ""),
        (b";;", ""),
        (b"val x = 1 val y = \"a\"", "  let x = 1\n  let y = \"a\"\n"),
        (
            b"val\nx1\n=\n999999999\nval x1 = 007\n",
            "  let x1 = 999999999\n  let x1 = 7\n",
        ),
        (
            b"val _ = print \"\" val s = \"a'\\\"\\\\b\"",
            "  let _ = Rt.print \"\"\n  let s = \"a'\\\"\\\\b\"\n",
        ),
        (b"val x = 5 (* a (* b *) *);", "  let x = 5\n"),
        (b"val x=1;val y=2", "  let x = 1\n  let y = 2\n"),
        (
            b"val u = print \"a\" val _ = 5",
            "  let u = Rt.print \"a\"\n  let _ = 5\n",
        ),
        (b"val _ = op print \"a\"", "  let _ = Rt.print \"a\"\n"),
        (
            b"val Foo' = 3 val it's = 1",
            "  let v_Foo' = 3\n  let it's = 1\n",
        ),
        (
            b"val method = 1 val v_x = 2",
            "  let v_method = 1\n  let v_v_x = 2\n",
        ),
        (
            b"infix 3 ++ val op ++ = 1 nonfix ++ val ++ = 2",
            "  let s_plus_plus = 1\n  let s_plus_plus = 2\n",
        ),
        (b"val n = ~5", "  let n = (-5)\n"),
        (
            b"val w = 0wxFF val c = #\"a\"",
            "  let w = 255\n  let c = 'a'\n",
        ),
        (
            b"val n = ~4611686018427387903 val w = 0w4294967295",
            "  let n = (-4611686018427387903)\n  let w = 4294967295\n",
        ),
        (b"val s = \"\\^A\\200\"", "  let s = \"\\001\\200\"\n"),
    ];
    for (source, items) in cases {
        let files: [(&str, &[u8]); 2] = [("l.txt", b"a.sml\n"), ("a.sml", source)];
        let got = run_over(alloc, COMMAND, &files, &NO_FAULTS)?;
        let want = joined(alloc, &[RT, "module U1_a = struct\n", items, "end\n"])?;
        assert_eq!(rt; got.end, End::Done, "of {items}");
        assert_eq!(rt; got.out.bytes(), want.as_slice(), "of {items}");
        assert_eq!(rt; got.notes.bytes(), b"".as_slice(), "of {items}");
    }
    Ok(())
}

// A source that is accepted, or refused at another place or with another number.
#[test]
fn refuses_a_source(rt: HostRuntime) -> Result<(), Fail> {
    let alloc = rt.alloc();
    let cases: [(&[u8], u32, Code, &str); 34] = [
        (b"val x = .", 9, Code::BadToken, "1: no token begins here"),
        (b"val s = \"\\300\"", 10, Code::BadEscape, "2: bad escape"),
        (
            b"val x = (* a (* b *) 1",
            9,
            Code::OpenComment,
            "3: comment is not closed",
        ),
        (
            b"val x = \"ab",
            9,
            Code::OpenString,
            "4: string is not closed",
        ),
        (
            b"val x = 4611686018427387904",
            9,
            Code::LiteralRange,
            "5: literal out of range",
        ),
        (
            b"val x = 1.5",
            9,
            Code::RealLiteral,
            "6: real literals are not supported",
        ),
        (b"val x = let", 12, Code::Grammar, "11: syntax error"),
        (b"val x = 1 val", 14, Code::Grammar, "11: syntax error"),
        (b"val o = 1", 5, Code::Grammar, "11: syntax error"),
        (
            b"infix 5 ++ infixr 5 ** val x = a ++ b ** c",
            39,
            Code::FixityClash,
            "12: operators of one precedence associate differently",
        ),
        (
            b"val x = {a = 1, a = 2}",
            17,
            Code::Repeated,
            "13: bound twice",
        ),
        (
            b"fun true x = 1",
            5,
            Code::Rebinds,
            "14: this identifier cannot be bound",
        ),
        (
            b"val rec f = 1",
            9,
            Code::RecNotFn,
            "15: val rec binds a variable to fn",
        ),
        (
            b"fun f x = 1 | g x = 2",
            15,
            Code::Clauses,
            "16: clauses do not agree",
        ),
        (
            b"datatype t = A of 'a",
            19,
            Code::TyvarScope,
            "17: type variable out of scope",
        ),
        (
            b"abstype t = A with end",
            1,
            Code::Abstype,
            "33: abstype is not supported",
        ),
        (
            b"print \"a\"; val x = 1",
            1,
            Code::TopExp,
            "34: top-level expression is not supported",
        ),
        (b"val a = 1 ++ 2", 1, Code::Unbuilt, "36: not supported yet"),
        (
            b"val a = 1 val b = a",
            11,
            Code::Unbuilt,
            "36: not supported yet",
        ),
        (
            b"val a = 1;val b = (2)",
            11,
            Code::Unbuilt,
            "36: not supported yet",
        ),
        (
            b"val a = 1 and b = 2",
            1,
            Code::Unbuilt,
            "36: not supported yet",
        ),
        (b"val (a) = 1", 1, Code::Unbuilt, "36: not supported yet"),
        (
            b"val a : int = 1",
            1,
            Code::Unbuilt,
            "36: not supported yet",
        ),
        (b"val true = 1", 1, Code::Unbuilt, "36: not supported yet"),
        (b"val print = 1", 1, Code::Unbuilt, "36: not supported yet"),
        (b"val int = 1", 1, Code::Unbuilt, "36: not supported yet"),
        (
            b"val a = size \"a\"",
            1,
            Code::Unbuilt,
            "36: not supported yet",
        ),
        (
            b"val a = print 1",
            1,
            Code::Unbuilt,
            "36: not supported yet",
        ),
        (b"val a = print", 1, Code::Unbuilt, "36: not supported yet"),
        (
            b"val a = S.print \"a\"",
            1,
            Code::Unbuilt,
            "36: not supported yet",
        ),
        (b"infix 5 +", 1, Code::Unbuilt, "36: not supported yet"),
        (
            b"fun f (x, x) = x",
            1,
            Code::Unbuilt,
            "36: not supported yet",
        ),
        (
            b"structure S = struct end",
            1,
            Code::Unbuilt,
            "36: not supported yet",
        ),
        (
            b"val a = 1 functor F (X : G) = X",
            11,
            Code::Unbuilt,
            "36: not supported yet",
        ),
    ];
    for (source, col, code, said) in cases {
        let files: [(&str, &[u8]); 2] = [("l.txt", b"a.sml\n"), ("a.sml", source)];
        let got = run_over(alloc, COMMAND, &files, &NO_FAULTS)?;
        let notes = format!(in alloc; "a.sml:1:{col}: error {said}\n")?;
        assert_eq!(rt; got.end, refused(1, col, code), "{said} at {col}");
        assert_eq!(rt; got.out.bytes(), RT.as_bytes(), "{said} at {col}");
        assert_eq!(rt; got.notes.bytes(), notes.as_bytes(), "{said} at {col}");
    }
    Ok(())
}

// The same of sources that are long or high.
#[test]
fn refuses_large_sources(rt: HostRuntime) -> Result<(), Fail> {
    let alloc = rt.alloc();
    let long = Large {
        front: "val x",
        part: "x",
        count: 255,
        behind: " = 1",
    };
    let high = Large {
        front: "val x = ",
        part: "(",
        count: 1_200,
        behind: "1",
    };
    // Each loop stands for five expressions in one another.
    let loops = Large {
        front: "val x = ",
        part: "while a do ",
        count: 980,
        behind: "a",
    };
    let cases = [
        (long, 5, Code::NameLength, "9: name is too long"),
        (high, 507, Code::Depth, "10: nesting is too deep"),
        (loops, 1, Code::Unbuilt, "36: not supported yet"),
    ];
    for (source, col, code, said) in cases {
        let mut text = Vec::from_slice(alloc, source.front.as_bytes())?;
        for _ in 0..source.count {
            text.extend_from_slice(source.part.as_bytes())?;
        }
        text.extend_from_slice(source.behind.as_bytes())?;
        let files: [(&str, &[u8]); 2] = [("l.txt", b"a.sml\n"), ("a.sml", text.as_slice())];
        let got = run_over(alloc, COMMAND, &files, &NO_FAULTS)?;
        let notes = format!(in alloc; "a.sml:1:{col}: error {said}\n")?;
        assert_eq!(rt; got.end, refused(1, col, code), "{said}");
        assert_eq!(rt; got.notes.bytes(), notes.as_bytes(), "{said}");
    }
    Ok(())
}

// Directives of an earlier source that are forgotten, or of an inner scope that are kept.
#[test]
fn keeps_fixities(rt: HostRuntime) -> Result<(), Fail> {
    let alloc = rt.alloc();
    let cases: [(&[u8], &[u8], End); 6] = [
        (
            b"infix 3 ++",
            b"val a = 1 ++ 2",
            refused(2, 1, Code::Unbuilt),
        ),
        (b"infix 3 ++", b"val ++ = 1", refused(2, 5, Code::Grammar)),
        (b"infix 3 ++", b"val op ++ = 1", End::Done),
        (b"infix 3 ++ nonfix ++", b"val ++ = 1", End::Done),
        (
            b"infix 5 ++ infixr 5 **",
            b"val x = a ++ b ** c",
            refused(2, 16, Code::FixityClash),
        ),
        (b"val x = 1", b"val o = 1", refused(2, 5, Code::Grammar)),
    ];
    for (first, second, end) in cases {
        let files: [(&str, &[u8]); 3] = [
            ("l.txt", b"a.sml\nb.sml\n"),
            ("a.sml", first),
            ("b.sml", second),
        ];
        let got = run_over(alloc, COMMAND, &files, &NO_FAULTS)?;
        assert_eq!(rt; got.end, end, "{second:?}");
    }
    Ok(())
}
