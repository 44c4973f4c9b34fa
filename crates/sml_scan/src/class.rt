ghost use Rattle.std.specs.Prelude.{◌≡◌, ◌∷◌, []};
ghost use Rattle.readers.specs.Reader.{first, head_is};
ghost use Rattle.sml_lex.specs.Bytes.{is_letter};
ghost use Rattle.sml_grammar.specs.Tokens as grammar;
ghost use Rattle.sml_scan.specs.Classes as spec;

use sml_lex::{Kind, Token};
use tl_text::{Lit, Name};

pub const TYVAR: u32 = 0;

pub const ZERO: u32 = 1;

pub const DIGIT: u32 = 2;

pub const NUMBER: u32 = 3;

pub const LITERAL: u32 = 4;

pub const LAST: u32 = 5;

pub const NO_NAME: u32 = 6;

pub const ALPHA: u32 = 7;

pub const SYMBOL: u32 = 8;

pub const STAR: u32 = 9;

pub const LONG_ALPHA: u32 = 10;

pub const LONG_SYMBOL: u32 = 11;

pub const LONG_STAR: u32 = 12;

pub const WORD: u32 = 13;

fn is_letter(byte: u8) -> bool
    ensures { result ≡ is_letter byte }
{
    (b'A' <= byte && byte <= b'Z') || (b'a' <= byte && byte <= b'z')
}

/// The class of an integer.
fn int_class(decimal: bool, value: i64) -> u32
    ensures { result ≡ grammar.int_class decimal value }
{
    if !decimal || value < 0 {
        LITERAL
    } else if value == 0 {
        ZERO
    } else if value < 10 {
        DIGIT
    } else if value < 4294967296 {
        NUMBER
    } else {
        LITERAL
    }
}

pub(crate) fn lit_class(decimal: bool, lit: &Lit) -> u32
    ensures { result ≡ grammar.lit_class decimal lit.now }
{
    match lit {
        Lit::Int(value) => int_class(decimal, *value),
        _ => LITERAL,
    }
}

fn name_class(name: &[u8]) -> u32
    ensures { result ≡ grammar.name_class name.now }
{
    match name {
        [] => SYMBOL,
        [only] if *only == b'*' => STAR,
        [first, ..] => { if is_letter(*first) { ALPHA } else { SYMBOL } }
    }
}

fn last_class(name: &[u8]) -> u32
    ensures { result ≡ grammar.long_class (name.now ∷ []) }
{
    match name {
        [] => LONG_SYMBOL,
        [only] if *only == b'*' => LONG_STAR,
        [first, ..] => {
            if is_letter(*first) {
                LONG_ALPHA
            } else {
                LONG_SYMBOL
            }
        }
    }
}

/// The class of an identifier behind structures, which its last part decides.
fn long_class(parts: &[Name]) -> u32
    ensures { result ≡ grammar.long_class parts.now }
{
    let mut rest = parts;
    'parts: while rest.len() > 1 {
        rest = &rest[1..];
    }
    match rest {
        [last, ..] => last_class(last.bytes()),
        [] => NO_NAME,
    }
}

pub(crate) fn path_class(parts: &[Name]) -> u32
    ensures { result ≡ grammar.path_class parts.now }
{
    match parts {
        [] => NO_NAME,
        [name] => name_class(name.bytes()),
        [_, others @ ..] => long_class(others),
    }
}

/// The class of the token.
fn token_class(token: &Token) -> u32
    ensures { result ≡ spec.class_of token.now }
{
    match &token.kind {
        Kind::Word(_) => WORD,
        Kind::Id(path) => path_class(path.parts()),
        Kind::Tyvar(_) => TYVAR,
        Kind::Lit(lit) => lit_class(token.decimal, lit),
        Kind::End => LAST,
    }
}

pub(crate) fn is_listed(number: u32, list: &[u32]) -> bool
    ensures { result ≡ grammar.listed number list.now }
{
    for one in list {
        if number == *one {
            return true;
        }
    }
    false
}

/// Whether the next token is of one of the classes.
pub fn has_class(classes: &[u32], tokens: &[Token]) -> bool
    ensures { result ≡ head_is (λ t. grammar.listed (spec.class_of t) classes.now) (first tokens.now) }
{
    match tokens {
        [token, ..] => is_listed(token_class(token), classes),
        [] => false,
    }
}
