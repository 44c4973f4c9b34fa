use crate::parse_ty;
use sml_ast::Ty;
use sml_fix::Fixities;
use sml_lex::lex;
use std::alloc::Global;
use std::process::Abort;
use std::test::Fail;
use tl_text::Fault;

fn form(ty: &Ty) -> &'static str {
    match ty {
        Ty::Tyvar(..) => "variable",
        Ty::TFields(..) => "record",
        Ty::TCon(..) => "constructor",
        Ty::TTuple(..) => "tuple",
        Ty::Arrow(..) => "arrow",
        Ty::TParen(..) => "parentheses",
    }
}

/// The form of the type and the number of the next token, or the code and the byte of a refusal.
fn answer(alloc: Global, source: &[u8], room: u32) -> Result<String, Fail> {
    if source.len() > 1000 || room == 0 {
        return Err("out of range".into());
    }
    let tokens = lex(alloc, 1, source)?;
    let count = tokens.items().len();
    if count == 0 || count > 1000 {
        return Err("out of range".into());
    }
    let mut fix = Fixities::start(alloc)?;
    match parse_ty(alloc, &tokens, 0, room, &mut fix) {
        Ok((ty, next)) => {
            let form = form(&ty);
            Ok(format!(in alloc; "{form} {next}")?)
        }
        Err(Fault::Refused(refusal)) => {
            let code = refusal.code;
            let byte = refusal.place.byte;
            Ok(format!(in alloc; "{code:?} {byte}")?)
        }
        Err(Fault::NoMemory(none)) => Err(none.into()),
    }
}

fn check(
    rt: &(impl Abort + AllocGlobal),
    source: &[u8],
    room: u32,
    expected: &str,
) -> Result<(), Fail> {
    let found = answer(rt.alloc(), source, room)?;
    assert_eq!(rt; found.as_str(), expected);
    Ok(())
}

// A form that is read as another one, or not to its end; a call that only answers that there is no memory.
#[test]
fn forms(rt: HostRuntime) -> Result<(), Fail> {
    check(&rt, b"'a list", 1000, "constructor 2")?;
    check(&rt, b"('a, int) A.t ref = 1", 1000, "constructor 7")?;
    check(&rt, b"{} * {a : int, 2 : t}", 1000, "tuple 12")?;
    check(&rt, b"a * b -> (c -> d) list", 1000, "arrow 10")?;
    check(&rt, b"(a)", 1000, "parentheses 3")?;
    check(&rt, b"'a of", 1000, "variable 1")
}

// A refusal at another token, or with another code.
#[test]
fn refusals(rt: HostRuntime) -> Result<(), Fail> {
    check(&rt, b"* a", 1000, "Grammar 0")?;
    check(&rt, b"a *", 1000, "Grammar 3")?;
    check(&rt, b"(a, b) -> c", 1000, "Grammar 7")?;
    check(&rt, b"{a : b,}", 1000, "Grammar 7")?;
    check(&rt, b"{0 : b}", 1000, "Grammar 1")?;
    check(&rt, b"((a))", 2, "Depth 1")?;
    check(&rt, b"a list list", 2, "Depth 7")?;
    check(&rt, b"a -> b -> c", 2, "Depth 7")
}
