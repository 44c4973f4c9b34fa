//! What a source is answered with: nothing where it is accepted, else the code of the refusal and the byte at which it stands.

use crate::source::joined;
use sml_ast::Program;
use sml_fix::Fixities;
use sml_lex::lex;
use sml_parse_mod::parse;
use std::alloc::Global;
use std::process::Abort;
use std::test::Fail;
use tl_text::{Code, Fault, Refusal};

/// The length of the longest source that is read here.
const LONGEST: usize = 1_000_000;

pub type Answer = Option<(Code, u32)>;

/// What a source is read as, with the fixities behind it, where these are before it.
pub fn read(
    alloc: Global,
    fix: &Fixities,
    source: &[u8],
) -> Result<Result<(Program, Fixities), Fault>, Fail> {
    if source.len() > LONGEST {
        return Err("out of range".into());
    }
    match lex(alloc, 1, source) {
        Ok(tokens) => Ok(parse(alloc, &tokens, fix)),
        Err(fault) => Ok(Err(fault)),
    }
}

/// The program of a source that is one, at the fixities of the start.
pub fn program(alloc: Global, source: &[u8]) -> Result<Program, Fail> {
    let fix = Fixities::start(alloc)?;
    match read(alloc, &fix, source)? {
        Ok((program, _)) => Ok(program),
        Err(Fault::Refused(_)) => Err("no program".into()),
        Err(Fault::NoMemory(none)) => Err(none.into()),
    }
}

/// The code and the byte of a refusal.
pub fn refused(refusal: Refusal) -> Answer {
    Some((refusal.code, refusal.place.byte))
}

/// What was found is let go of.
pub fn answered<T: Drop>(found: Result<T, Fault>) -> Result<Answer, Fail> {
    match found {
        Ok(_) => Ok(None),
        Err(Fault::Refused(refusal)) => Ok(refused(refusal)),
        Err(Fault::NoMemory(none)) => Err(none.into()),
    }
}

/// What the lexer and the parser answer a source with, at the fixities of the start.
pub fn answer(alloc: Global, source: &[u8]) -> Result<Answer, Fail> {
    let fix = Fixities::start(alloc)?;
    answered(read(alloc, &fix, source)?)
}

/// Whether the answer is a refusal with this code at this byte, or, where no code is given, that the source is accepted.
pub fn is(answer: Answer, expected: Option<Code>, byte: usize) -> bool {
    match (answer, expected) {
        (None, None) => true,
        (Some((code, place)), Some(expected)) => code == expected && place as usize == byte,
        _ => false,
    }
}

/// A source in two halves is accepted, or refused with this code where the second half begins.
pub fn check(
    rt: &(impl Abort + AllocGlobal),
    front: &str,
    rest: &str,
    expected: Option<Code>,
) -> Result<(), Fail> {
    let source = joined(rt.alloc(), front.as_bytes(), rest.as_bytes())?;
    let found = answer(rt.alloc(), source.as_slice())?;
    let stood = is(found, expected, front.len());
    assert!(rt; stood, "{front}{rest}: {found:?}");
    Ok(())
}

/// A source that is accepted, and one that is refused: the front before the refused token, and the rest that begins with it.
pub type Row = (&'static str, &'static str, &'static str);

/// The first source is accepted, and the second one refused by the grammar where its second half begins.
pub fn check_row(rt: &(impl Abort + AllocGlobal), row: Row) -> Result<(), Fail> {
    let (accepted, front, rest) = row;
    check(rt, accepted, "", None)?;
    check(rt, front, rest, Some(Code::Grammar))
}
