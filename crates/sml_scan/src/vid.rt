ghost use Rattle.std.specs.Prelude.{◌≡◌, IfOk};
ghost use Rattle.readers.specs.Reader.{first, head_is, token_by};
ghost use Rattle.readers.specs.Given.{Gives};
ghost use Rattle.sml_fix.specs.Fixities.{settings};
ghost use Rattle.sml_grammar.specs.Tokens as grammar;
ghost use Rattle.sml_grammar.specs.Pats as pats;
ghost use Rattle.sml_scan.specs.Fixed as spec;

use crate::class::{
    ALPHA, DIGIT, LITERAL, LONG_ALPHA, LONG_STAR, LONG_SYMBOL, NUMBER, STAR, SYMBOL, ZERO,
};
use crate::name::{first_name, label, long_ident};
use crate::set::{is_among, is_in};
use readers::{Code, Fixity, ReadError};
use sml_ast::{Ident, Label, LongIdent};
use sml_fix::{Fixities, Side};
use sml_lex::{Kind, Token};
use std::alloc::Global;
use tl_text::{Lit, Name, NoMemory, Place};

const EQUALS: u32 = 53;

/// The identifier that the token shows.
fn ident(alloc: Global, token: &Token) -> Result<Ident, NoMemory>
    ensures { IfOk result (λ x. x ≡ grammar.ident token.now) }
{
    Ok((token.place, first_name(alloc, &token.kind)?))
}

/// Whether an identifier without infix status is next, alone or behind structures.
pub fn is_long_vid(fix: &Fixities, tokens: &[Token]) -> bool
    ensures { result ≡ head_is (grammar.among (settings fix.now) grammar.plain_long_names) (first tokens.now) }
{
    is_among(
        fix,
        &[],
        &[ALPHA, SYMBOL, STAR, LONG_ALPHA, LONG_SYMBOL, LONG_STAR],
        &[],
        tokens,
    )
}

/// An identifier without infix status, and the tokens behind it.
///
/// # Errors
/// Grammar where none is next.
pub fn long_vid<'a>(
    alloc: Global,
    fix: &Fixities,
    tokens: &'a [Token],
) -> Result<(LongIdent, &'a [Token]), ReadError<'a, Token>>
    ensures { Gives (λ x. (x.0, x.1.now)) result (token_by (grammar.long_vid (settings fix.now)) tokens.now) }
{
    if !is_long_vid(fix, tokens) {
        return Err(ReadError::Refused(Code::Grammar, tokens));
    }
    match tokens {
        [token, rest @ ..] => Ok((long_ident(alloc, token)?, rest)),
        [] => Err(ReadError::Refused(Code::Grammar, tokens)),
    }
}

fn is_op_long_vid(tokens: &[Token]) -> bool
    ensures { result ≡ head_is (grammar.tokens_of grammar.op_long_names) (first tokens.now) }
{
    is_in(
        &[EQUALS],
        &[ALPHA, SYMBOL, STAR, LONG_ALPHA, LONG_SYMBOL, LONG_STAR],
        tokens,
    )
}

/// An identifier behind `op`, whatever its status, and the tokens behind it.
///
/// # Errors
/// Grammar where none is next.
pub fn op_long_vid(
    alloc: Global,
    tokens: &[Token],
) -> Result<(LongIdent, &[Token]), ReadError<'_, Token>>
    ensures { Gives (λ x. (x.0, x.1.now)) result (token_by grammar.op_long_vid tokens.now) }
{
    if !is_op_long_vid(tokens) {
        return Err(ReadError::Refused(Code::Grammar, tokens));
    }
    match tokens {
        [token, rest @ ..] => Ok((long_ident(alloc, token)?, rest)),
        [] => Err(ReadError::Refused(Code::Grammar, tokens)),
    }
}

/// Whether an identifier with infix status is next.
fn is_infix_vid(fix: &Fixities, tokens: &[Token]) -> bool
    ensures { result ≡ head_is (grammar.among (settings fix.now) grammar.infix_names) (first tokens.now) }
{
    is_among(fix, &[], &[], &[ALPHA, SYMBOL, STAR], tokens)
}

/// An identifier with infix status, and the tokens behind it.
///
/// # Errors
/// Grammar where none is next.
pub fn infix_vid<'a>(
    alloc: Global,
    fix: &Fixities,
    tokens: &'a [Token],
) -> Result<(Ident, &'a [Token]), ReadError<'a, Token>>
    ensures { Gives (λ x. (x.0, x.1.now)) result (token_by (grammar.infix_vid (settings fix.now)) tokens.now) }
{
    if !is_infix_vid(fix, tokens) {
        return Err(ReadError::Refused(Code::Grammar, tokens));
    }
    match tokens {
        [token, rest @ ..] => Ok((ident(alloc, token)?, rest)),
        [] => Err(ReadError::Refused(Code::Grammar, tokens)),
    }
}

/// How an operator binds; what is none binds as loosely as can be, to the left.
pub fn fixity_of(fix: &Fixities, name: &Name) -> Fixity
    ensures { result ≡ spec.fixity_at (settings fix.now) name.now }
{
    match fix.get(name) {
        None => Fixity {
            tight: 0,
            right: false,
        },
        Some((tight, Side::Left)) => Fixity {
            tight,
            right: false,
        },
        Some((tight, Side::Right)) => Fixity { tight, right: true },
    }
}

/// How the next token binds, where it is an identifier with infix status.
pub fn next_fixity(fix: &Fixities, tokens: &[Token]) -> Option<Fixity>
    ensures { result ≡ spec.fixity_next (settings fix.now) (first tokens.now) }
{
    match tokens {
        [token, ..] => kind_fixity(fix, &token.kind),
        [] => None,
    }
}

fn kind_fixity(fix: &Fixities, kind: &Kind) -> Option<Fixity>
    ensures { result ≡ spec.kind_fixity (settings fix.now) kind.now }
{
    match kind {
        Kind::Id(path) => path_fixity(fix, path.parts()),
        _ => None,
    }
}

fn path_fixity(fix: &Fixities, parts: &[Name]) -> Option<Fixity>
    ensures { result ≡ spec.path_fixity (settings fix.now) parts.now }
{
    match parts {
        [name] => {
            if fix.get(name).is_some() {
                Some(fixity_of(fix, name))
            } else {
                None
            }
        }
        _ => None,
    }
}

/// Whether a special constant is next.
pub fn is_constant(tokens: &[Token]) -> bool
    ensures { result ≡ head_is (grammar.tokens_of grammar.literals) (first tokens.now) }
{
    is_in(&[], &[ZERO, DIGIT, NUMBER, LITERAL], tokens)
}

fn copy_lit(alloc: Global, lit: &Lit) -> Result<Lit, NoMemory>
    ensures { IfOk result (λ x. x ≡ lit.now) }
{
    match lit {
        Lit::Int(value) => Ok(Lit::Int(*value)),
        Lit::Word(value) => Ok(Lit::Word(*value)),
        Lit::Char(code) => Ok(Lit::Char(*code)),
        Lit::Text(text) => Ok(Lit::Text(Name::new(alloc, text.bytes())?)),
    }
}

fn kind_lit(alloc: Global, kind: &Kind) -> Result<Lit, NoMemory>
    ensures { IfOk result (λ x. x ≡ grammar.kind_lit kind.now) }
{
    match kind {
        Kind::Lit(lit) => copy_lit(alloc, lit),
        _ => Ok(Lit::Word(0)),
    }
}

/// A special constant, and the tokens behind it.
///
/// # Errors
/// Grammar where none is next.
pub fn constant(
    alloc: Global,
    tokens: &[Token],
) -> Result<((Place, Lit), &[Token]), ReadError<'_, Token>>
    ensures { Gives (λ x. (x.0, x.1.now)) result (token_by grammar.scon tokens.now) }
{
    if !is_constant(tokens) {
        return Err(ReadError::Refused(Code::Grammar, tokens));
    }
    match tokens {
        [token, rest @ ..] => Ok(((token.place, kind_lit(alloc, &token.kind)?), rest)),
        [] => Err(ReadError::Refused(Code::Grammar, tokens)),
    }
}

fn is_vid(fix: &Fixities, tokens: &[Token]) -> bool
    ensures { result ≡ head_is (grammar.among (settings fix.now) grammar.plain_names) (first tokens.now) }
{
    is_among(fix, &[], &[ALPHA, SYMBOL, STAR], &[], tokens)
}

/// An identifier without infix status, as a label and as itself, and the tokens behind it.
///
/// # Errors
/// Grammar where none is next.
pub fn vid_or_label<'a>(
    alloc: Global,
    fix: &Fixities,
    tokens: &'a [Token],
) -> Result<((Label, Ident), &'a [Token]), ReadError<'a, Token>>
    ensures { Gives (λ x. (x.0, x.1.now)) result (token_by (pats.vid_or_lab (settings fix.now)) tokens.now) }
{
    if !is_vid(fix, tokens) {
        return Err(ReadError::Refused(Code::Grammar, tokens));
    }
    match tokens {
        [token, rest @ ..] => Ok(((label(alloc, token)?, ident(alloc, token)?), rest)),
        [] => Err(ReadError::Refused(Code::Grammar, tokens)),
    }
}

/// Whether a label is next that is no identifier without infix status.
pub fn is_other_label(fix: &Fixities, tokens: &[Token]) -> bool
    ensures { result ≡ head_is (grammar.among (settings fix.now) pats.other_labels) (first tokens.now) }
{
    is_among(fix, &[], &[DIGIT, NUMBER], &[ALPHA, SYMBOL, STAR], tokens)
}

/// A label that is no identifier without infix status, and the tokens behind it.
///
/// # Errors
/// Grammar where none is next.
pub fn other_label<'a>(
    alloc: Global,
    fix: &Fixities,
    tokens: &'a [Token],
) -> Result<(Label, &'a [Token]), ReadError<'a, Token>>
    ensures { Gives (λ x. (x.0, x.1.now)) result (token_by (pats.other_lab (settings fix.now)) tokens.now) }
{
    if !is_other_label(fix, tokens) {
        return Err(ReadError::Refused(Code::Grammar, tokens));
    }
    match tokens {
        [token, rest @ ..] => Ok((label(alloc, token)?, rest)),
        [] => Err(ReadError::Refused(Code::Grammar, tokens)),
    }
}
