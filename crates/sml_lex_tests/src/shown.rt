use sml_lex::{Kind, Token, lex};
use std::alloc::{AllocError, Global};
use std::fmt;
use std::fmt::Write;
use tl_cases::sml_words;
use tl_text::{Fault, Lit, Path, code_number};

/// The most bytes of a source of these tests.
const MOST_BYTES: usize = 100_000;

fn text(bytes: &[u8]) -> &str {
    match str::from_utf8(bytes) {
        Ok(text) => text,
        Err(_) => "?",
    }
}

fn path<W: fmt::Write>(out: &mut W, path: &Path) -> fmt::Result {
    let mut first = true;
    for part in path.parts() {
        if !first {
            out.write_str(".")?;
        }
        first = false;
        out.write_str(text(part.bytes()))?;
    }
    Ok(())
}

fn literal<W: fmt::Write>(out: &mut W, lit: &Lit) -> fmt::Result {
    match lit {
        Lit::Int(value) => write!(out, "int {value}"),
        Lit::Word(value) => write!(out, "word {value}"),
        Lit::Char(value) => write!(out, "char {value}"),
        Lit::Text(name) => {
            out.write_str("text")?;
            for byte in name.bytes() {
                write!(out, " {byte}")?;
            }
            Ok(())
        }
    }
}

fn word<W: fmt::Write>(out: &mut W, number: u32) -> fmt::Result {
    let words = sml_words();
    for i in 0..58 {
        let row = words.at(i);
        if row.value == number {
            out.write_str(text(row.key))?;
        }
    }
    Ok(())
}

fn token<W: fmt::Write>(out: &mut W, token: &Token) -> fmt::Result {
    match &token.kind {
        Kind::Word(number) => word(out, *number)?,
        Kind::Id(name) => {
            out.write_str("id ")?;
            path(out, name)?;
        }
        Kind::Tyvar(name) => {
            out.write_str("tyvar ")?;
            out.write_str(text(name.bytes()))?;
        }
        Kind::Lit(lit) => literal(out, lit)?,
        Kind::End => out.write_str("end")?,
    }
    let place = token.place;
    let byte = place.byte;
    let len = token.len;
    let plain = if token.decimal { " plain" } else { "" };
    write!(out, "{plain} @{place}/{byte}+{len}; ")
}

/// The tokens of a source, or its refusal, as one text.
pub fn shown(alloc: Global, source: &[u8]) -> Result<String, fmt::Error> {
    let mut out = String::new(alloc);
    if source.len() > MOST_BYTES {
        return Err(fmt::Error);
    }
    match lex(alloc, 1, source) {
        Ok(tokens) => {
            for found in tokens.items() {
                token(&mut out, found)?;
            }
        }
        Err(Fault::Refused(refusal)) => {
            let number = code_number(refusal.code);
            let place = refusal.place;
            let byte = place.byte;
            write!(&mut out, "error {number} @{place}/{byte}")?;
        }
        Err(Fault::NoMemory(_)) => out.write_str("no memory")?,
    }
    Ok(out)
}
