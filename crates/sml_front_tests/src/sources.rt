use crate::answers::{answer, answered, check, is, program, read};
use crate::source::{joined, repeated};
use sml_ast::{Program, StrDec, Top};
use sml_fix::Fixities;
use std::alloc::Global;
use std::process::Abort;
use std::test::Fail;
use tl_text::{Code, Fault};

/// The form of a top-level declaration: of the core, structures, `local`, signatures, functors.
fn form(top: &Top) -> &'static str {
    match top {
        Top::Strs(_, StrDec::Core(..)) => "c",
        Top::Strs(_, StrDec::Structs(..)) => "s",
        Top::Strs(_, StrDec::LocalStr(..)) => "l",
        Top::Sigs(..) => "G",
        Top::Funs(..) => "F",
        Top::Run(..) => "R",
    }
}

/// The forms of the top-level declarations of a program, which is let go of.
fn forms(alloc: Global, program: Program) -> Result<String, Fail> {
    let Program::Tops(_, tops) = &program;
    let mut found = String::new(alloc);
    for top in tops.items() {
        found.push_str(form(top))?;
    }
    Ok(found)
}

// A form that is read as another one, or not to its end.
#[test]
fn top_level_declarations(rt: HostRuntime) -> Result<(), Fail> {
    let rows = [
        ("", ""),
        (";;", ""),
        ("val x = 1", "c"),
        ("; val x = 1; ; fun f y = y", "cc"),
        ("structure S = struct end", "s"),
        (
            "structure S : G = struct ;; val x = 1; end and T :> H = A.B",
            "s",
        ),
        ("structure S = F (G (T))", "s"),
        ("structure S = F (val x = 1; structure T = U)", "s"),
        (
            "structure S = T : G where type t = u and type v = w and U = V :> H where type t = u",
            "s",
        ),
        (
            "structure S : G where type t = u and type v = w = T : G :> H and U = V",
            "s",
        ),
        ("local val x = 1 in val y = 2 end", "c"),
        ("local structure S = T in val y = 2 end", "l"),
        ("local in structure S = T end", "l"),
        ("local local in end; in end", "c"),
        ("local local structure S = T in end in end", "l"),
        (
            "signature G = sig end and H = G where type t = u and type v = w and I = H",
            "G",
        ),
        (
            "functor F (X : G where type t = u and type v = w) = X : G",
            "F",
        ),
        (
            "functor F (X : G) : H = struct end and K (val x : t) :> H = X",
            "F",
        ),
        (
            "functor F (include G) = X : H where type t = u and K () = Y",
            "F",
        ),
        (
            "functor F () = X structure S = F () signature G = H val x = 1",
            "FsGc",
        ),
    ];
    for (source, expected) in rows {
        let program = program(rt.alloc(), source.as_bytes())?;
        let found = forms(rt.alloc(), program)?;
        assert_eq!(rt; found.as_str(), expected, "{source}");
    }
    Ok(())
}

// A directive that leaks out of its scope, or ends before it.
#[test]
fn directives(rt: HostRuntime) -> Result<(), Fail> {
    let rows = [
        ("infix ++ val x = ", "++ 1 2", Some(Code::Grammar)),
        ("infix ++ infix ++ nonfix ++ val x = ++ 1 2", "", None),
        ("nonfix + val x = + 1 2 infix 6 + val y = 1 + 2", "", None),
        ("structure S = struct infix ++ end val x = ++ 1 2", "", None),
        (
            "structure S = struct infix ++ val x = ",
            "++ 1 2 end",
            Some(Code::Grammar),
        ),
        (
            "structure S = struct infix ++ end and T = struct val x = ++ 1 2 end",
            "",
            None,
        ),
        (
            "structure S = struct structure T = struct infix ++ end val x = ++ 1 2 end",
            "",
            None,
        ),
        ("structure S = F (infix ++) val x = ++ 1 2", "", None),
        (
            "structure S = F (infix ++ val x = ",
            "++ 1 2)",
            Some(Code::Grammar),
        ),
        (
            "functor F () = struct infix ++ end val x = ++ 1 2",
            "",
            None,
        ),
        (
            "structure S = let infix ++ in T end val x = ++ 1 2",
            "",
            None,
        ),
        (
            "structure S = let infix ++ in struct val x = ",
            "++ 1 end end",
            Some(Code::Grammar),
        ),
        (
            "val x = let infix ++ in 1 ++ 2 end val y = ++ 1 2",
            "",
            None,
        ),
        (
            "val x = let infix ++ in ",
            "++ 1 2 end",
            Some(Code::Grammar),
        ),
        ("val x = (let nonfix + in + 1 2 end) + 3", "", None),
        (
            "fun f x = let infix ++ in x ++ x end | f y = ++ y y",
            "",
            None,
        ),
        (
            "local infix ++ structure S = T in val y = 1 ++ 2 end val x = ++ 1 2",
            "",
            None,
        ),
        (
            "local structure S = T in infix ++ end val x = ",
            "++ 1 2",
            Some(Code::Grammar),
        ),
        (
            "local infix ++ in infix -- val y = 1 ++ 2 end val x = ++ 1 -- 2",
            "",
            None,
        ),
        (
            "local infix ++ in infix -- end val x = ",
            "-- 1 2",
            Some(Code::Grammar),
        ),
        (
            "local local in infix ++ end in val x = ",
            "++ 1 2 end",
            Some(Code::Grammar),
        ),
        (
            "infix 5 ++ infixr 5 -- val x = 1 ++ 2 ",
            "-- 3",
            Some(Code::FixityClash),
        ),
        (
            "infix 5 ++ infixr 5 -- val x ++ y ",
            "-- z = 1",
            Some(Code::FixityClash),
        ),
        ("infix 5 ++ infixr 6 -- val x = 1 ++ 2 -- 3 ++ 4", "", None),
        (
            "infix 5 ++ structure S = struct infixr 5 ++ val x = 1 ++ 2 ",
            ":: 3 end",
            None,
        ),
        (
            "infix 5 ++ structure S = struct infixr 5 ++ end val x = 1 ++ 2 ",
            ":: 3",
            Some(Code::FixityClash),
        ),
    ];
    for (front, rest, expected) in rows {
        check(&rt, front, rest, expected)?;
    }
    Ok(())
}

/// The fixities behind a source that is a program.
fn left(alloc: Global, source: &[u8]) -> Result<Fixities, Fail> {
    let fix = Fixities::start(alloc)?;
    match read(alloc, &fix, source)? {
        Ok((_, left)) => Ok(left),
        Err(Fault::Refused(_)) => Err("no program".into()),
        Err(Fault::NoMemory(none)) => Err(none.into()),
    }
}

/// A second source in two halves is accepted behind a first one, or refused with this code where its second half begins.
fn check_behind(
    rt: &(impl Abort + AllocGlobal),
    first: &str,
    halves: (&str, &str),
    expected: Option<Code>,
) -> Result<(), Fail> {
    let alloc = rt.alloc();
    let (front, rest) = halves;
    let source = joined(alloc, front.as_bytes(), rest.as_bytes())?;
    let fix = left(alloc, first.as_bytes())?;
    let found = answered(read(alloc, &fix, source.as_slice())?)?;
    let stood = is(found, expected, front.len());
    assert!(rt; stood, "{first} / {front}{rest}: {found:?}");
    Ok(())
}

// A directive that is not in force in the next source, or one that is though its scope has ended.
#[test]
fn directives_are_handed_on(rt: HostRuntime) -> Result<(), Fail> {
    let rows = [
        ("val x = 1", ("val y = 1 + 2", ""), None),
        ("infix ++", ("val y = 1 ++ 2", ""), None),
        ("infix ++", ("val y = ", "++ 1 2"), Some(Code::Grammar)),
        ("infix ++; nonfix ++", ("val y = ++ 1 2", ""), None),
        ("nonfix +", ("val y = + 1 2", ""), None),
        (
            "nonfix +",
            ("fun + x = x fun x ", ": t = x"),
            Some(Code::Grammar),
        ),
        (
            "structure S = struct infix ++ end",
            ("val y = ++ 1 2", ""),
            None,
        ),
        (
            "local infix ++ in infix -- end",
            ("val y = ++ 1 -- 2", ""),
            None,
        ),
        (
            "local structure S = T in infix ++ end",
            ("val y = 1 ++ 2", ""),
            None,
        ),
        (
            "val x = let infix ++ in 1 end",
            ("val y = ++ 1 2", ""),
            None,
        ),
        (
            "functor F () = struct nonfix + end",
            ("val y = 1 + 2", ""),
            None,
        ),
        (
            "infix 5 ++",
            ("val y = 1 ++ 2 ", ":: 3"),
            Some(Code::FixityClash),
        ),
        ("infix 6 ++", ("val y = 1 ++ 2 :: 3", ""), None),
    ];
    for (first, halves, expected) in rows {
        check_behind(&rt, first, halves, expected)?;
    }
    Ok(())
}

// A refusal at another token.
#[test]
fn refusals(rt: HostRuntime) -> Result<(), Fail> {
    let rows = [
        ("", ")", Code::Grammar),
        ("val x = 1 ", "end", Code::Grammar),
        ("structure", "", Code::Grammar),
        ("structure S", "", Code::Grammar),
        ("structure S =", "", Code::Grammar),
        ("structure S = struct val", "", Code::Grammar),
        ("structure S = F (T", "", Code::Grammar),
        ("structure S = T and ", "type t = u", Code::Grammar),
        ("local structure S = T in end ", "end", Code::Grammar),
        ("signature G", "", Code::Grammar),
        ("signature G ", ": sig end", Code::Grammar),
        ("signature G = sig end ", ": H", Code::Grammar),
        ("functor F ", "X = Y", Code::Grammar),
        ("functor F (X : G)", "", Code::Grammar),
        ("functor F (val x", ") = X", Code::Grammar),
        ("print 1 ", "val x = 2", Code::Grammar),
        ("structure S = T ", "print x", Code::Grammar),
        ("abstype t = A with end ", ")", Code::Grammar),
    ];
    for (front, rest, code) in rows {
        check(&rt, front, rest, Some(code))?;
    }
    Ok(())
}

// A refusal of a phrase that is not supported at another place than the first one, or before the grammar's.
#[test]
fn phrases_that_are_not_supported(rt: HostRuntime) -> Result<(), Fail> {
    let rows = [
        ("", "print x", Code::TopExp),
        ("", "1 + 2; 3", Code::TopExp),
        ("val x = 1; ", "print x; val y = 2", Code::TopExp),
        ("val x = 1; ", "f x : t;", Code::TopExp),
        ("", "let in 1 end", Code::TopExp),
        ("", "abstype t = A with val x = 1 end", Code::Abstype),
        (
            "",
            "abstype 'a t = A of u withtype u = v with end",
            Code::Abstype,
        ),
        (
            "val x = let ",
            "abstype t = A with end in 1 end",
            Code::Abstype,
        ),
        (
            "structure S = struct ",
            "abstype t = A with end end",
            Code::Abstype,
        ),
        ("local ", "abstype t = A with end in end", Code::Abstype),
        ("", "print 1; abstype t = A with end", Code::TopExp),
        ("", "abstype t = A with end; print 1", Code::Abstype),
        ("", "let abstype t = A with end in 1 end", Code::TopExp),
    ];
    for (front, rest, code) in rows {
        check(&rt, front, rest, Some(code))?;
    }
    Ok(())
}

// A refusal of the lexer that the parser's comes before, or at another place.
#[test]
fn texts_without_tokens(rt: HostRuntime) -> Result<(), Fail> {
    let rows = [
        ("val x = ", "\x01", Code::BadToken),
        (") A", ".val", Code::BadToken),
        ("val x = \"a", "\\q\"", Code::BadEscape),
        ("val x = 1 ", "(* (* *)", Code::OpenComment),
        ("val x = ", "\"a\n\"", Code::OpenString),
        ("val x = ", "4611686018427387904", Code::LiteralRange),
        ("val x = ", "0w4294967296", Code::LiteralRange),
        ("val x = ", "1.5", Code::RealLiteral),
        ("abstype ) ", "1e5", Code::RealLiteral),
    ];
    for (front, rest, code) in rows {
        check(&rt, front, rest, Some(code))?;
    }
    Ok(())
}

/// The front, as many pieces and the back are accepted, or refused for the height of their tree at this byte.
fn check_chain(
    rt: &(impl Abort + AllocGlobal),
    parts: (&str, &str, &str),
    times: usize,
    byte: Option<usize>,
) -> Result<(), Fail> {
    let alloc = rt.alloc();
    let (front, piece, back) = parts;
    let source = repeated(
        alloc,
        front.as_bytes(),
        piece.as_bytes(),
        times,
        back.as_bytes(),
    )?;
    let found = answer(alloc, source.as_slice())?;
    let stood = match byte {
        None => is(found, None, 0),
        Some(byte) => is(found, Some(Code::Depth), byte),
    };
    assert!(rt; stood, "{front}{piece}{back} {times}: {found:?}");
    Ok(())
}

/// The greatest number of pieces is accepted, and one more is refused at this byte.
fn check_height(
    rt: &(impl Abort + AllocGlobal),
    parts: (&str, &str, &str),
    most: usize,
    byte: usize,
) -> Result<(), Fail> {
    check_chain(rt, parts, most, None)?;
    check_chain(rt, parts, most.saturating_add(1), Some(byte))
}

// A tree of a height of 1,000 that is refused, or one that is higher and is not, or at another token.
#[test]
fn heights_of_operators(rt: HostRuntime) -> Result<(), Fail> {
    check_height(&rt, ("val x = 1", " + 1", ""), 994, 3986)
}

// The same of expressions with types.
#[test]
fn heights_of_expressions(rt: HostRuntime) -> Result<(), Fail> {
    check_height(&rt, ("val x = y", " : t", ""), 994, 3986)
}

// The same of patterns with types.
#[test]
fn heights_of_patterns(rt: HostRuntime) -> Result<(), Fail> {
    check_height(&rt, ("val x", " : t", " = 1"), 994, 3982)
}

// The same of types.
#[test]
fn heights_of_types(rt: HostRuntime) -> Result<(), Fail> {
    check_height(&rt, ("type t = u", " v", ""), 995, 2001)
}

// The same of structures.
#[test]
fn heights_of_structures(rt: HostRuntime) -> Result<(), Fail> {
    check_height(&rt, ("structure S = T", " : G", ""), 994, 3992)
}

// The same of signatures.
#[test]
fn heights_of_signatures(rt: HostRuntime) -> Result<(), Fail> {
    check_height(
        &rt,
        ("signature G = H", " where type t = u", ""),
        996,
        16948,
    )
}
