//! Sources of a moderate size. Much larger ones are measured by a benchmark.

use crate::answers::program;
use crate::source::{joined, nested, repeated};
use sml_ast::Program;
use sml_restrict::restrict;
use std::process::Abort;
use std::test::Fail;

/// Whether a program breaks no restriction. It is let go of.
fn is_lawful(program: Program) -> bool {
    restrict(&program).is_ok()
}

/// The source is a program that breaks no restriction.
fn check(rt: &(impl Abort + AllocGlobal), name: &str, source: &[u8]) -> Result<(), Fail> {
    let program = program(rt.alloc(), source)?;
    let stood = is_lawful(program);
    assert!(rt; stood, "{name}");
    Ok(())
}

// A row that is read in more than linear time, or on a stack as deep as it is long.
#[test]
fn items(rt: HostRuntime) -> Result<(), Fail> {
    let source = repeated(rt.alloc(), b"val x = [1", b",1", 20_000, b"]")?;
    check(&rt, "items", source.as_slice())
}

// The same of declarations.
#[test]
fn declarations(rt: HostRuntime) -> Result<(), Fail> {
    let source = repeated(rt.alloc(), b"", b"val x = 1\n", 2_000, b"")?;
    check(&rt, "declarations", source.as_slice())
}

// The same of expressions.
#[test]
fn sequences(rt: HostRuntime) -> Result<(), Fail> {
    let source = repeated(rt.alloc(), b"val x = (1", b";1", 5_000, b")")?;
    check(&rt, "expressions", source.as_slice())
}

// The same of rows of the grammar of modules.
#[test]
fn modules(rt: HostRuntime) -> Result<(), Fail> {
    let alloc = rt.alloc();
    let source = repeated(alloc, b"signature G = sig ", b"val x : t ", 2_000, b"end")?;
    check(&rt, "specifications", source.as_slice())?;
    let source = repeated(alloc, b"structure S = struct ", b"open A;", 2_000, b"end")?;
    check(&rt, "structures", source.as_slice())
}

// The same of operators, in rows of a hundred.
#[test]
fn operators(rt: HostRuntime) -> Result<(), Fail> {
    let alloc = rt.alloc();
    let row = repeated(alloc, b"x", b"+x", 100, b",")?;
    let source = repeated(alloc, b"val x = [", row.as_slice(), 50, b"x]")?;
    check(&rt, "operators to the left", source.as_slice())?;
    let row = repeated(alloc, b"x", b"::x", 100, b",")?;
    let source = repeated(alloc, b"val x = [", row.as_slice(), 50, b"x]")?;
    check(&rt, "operators to the right", source.as_slice())
}

/// A nest of as many levels behind a front and before a back is a program that breaks no restriction.
fn check_nest(
    rt: &(impl Abort + AllocGlobal),
    ends: (&str, &str),
    nest: (&str, &str, &str),
    levels: usize,
) -> Result<(), Fail> {
    let alloc = rt.alloc();
    let (front, back) = ends;
    let (opening, middle, closing) = nest;
    let nest = nested(
        alloc,
        opening.as_bytes(),
        middle.as_bytes(),
        closing.as_bytes(),
        levels,
    )?;
    let rest = joined(alloc, nest.as_slice(), back.as_bytes())?;
    let source = joined(alloc, front.as_bytes(), rest.as_slice())?;
    check(rt, opening, source.as_slice())
}

// A nest whose time grows faster than its height, or that is not read.
#[test]
fn nests(rt: HostRuntime) -> Result<(), Fail> {
    let rows = [
        (("val x = ", ""), ("(", "1", ")"), 50),
        (("val ", " = 1"), ("(", "x", ")"), 50),
        (("val x : ", " = 1"), ("(", "t", ")"), 150),
        (("val x = ", ""), ("let val x = ", "1", " in x end"), 50),
        (("val x = ", ""), ("case 1 of _ => (", "1", ")"), 50),
        (
            ("", ""),
            ("structure S = struct ", "structure S = T", " end"),
            50,
        ),
        (("structure S = ", ""), ("F (", "T", ")"), 100),
        (
            ("signature G = ", ""),
            ("sig structure S : ", "H", " end"),
            150,
        ),
    ];
    for (ends, nest, levels) in rows {
        check_nest(&rt, ends, nest, levels)?;
    }
    Ok(())
}
