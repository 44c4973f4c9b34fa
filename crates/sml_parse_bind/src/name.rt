ghost use Rattle.std.specs.Prelude.{◌≡◌, IfOk, IfSome};
ghost use Rattle.readers.specs.Reader.{first, head_is, token_by};
ghost use Rattle.readers.specs.Given.{Gives};
ghost use Rattle.sml_fix.specs.Fixities.{settings};
ghost use Rattle.sml_grammar.specs.Tokens as grammar;
ghost use Rattle.sml_parse_bind.specs.Operators as spec;

use readers::{Code, Fixity, ReadError};
use sml_ast::{Ident, LongIdent};
use sml_fix::Fixities;
use sml_lex::{Kind, Token};
use sml_scan::{
    ALPHA, DIGIT, LONG_ALPHA, STAR, SYMBOL, ZERO, fixity_of, is_among, is_in, is_next, next_fixity,
    op_long_vid,
};
use std::alloc::Global;
use tl_text::{Lit, Name, NoMemory};

const EQUALS: u32 = 53;

/// What was read, and the tokens behind it.
pub type Read<'a, T> = Result<(T, &'a [Token]), ReadError<'a, Token>>;

/// The identifier of the token; of a word it is `=`.
fn first_name(alloc: Global, kind: &Kind) -> Result<Name, NoMemory>
    ensures { IfOk result (λ v. v ≡ grammar.first_part (grammar.parts_of kind.now)) }
{
    match kind {
        Kind::Id(path) => match path.parts() {
            [name, ..] => Name::new(alloc, name.bytes()),
            [] => Name::new(alloc, b""),
        },
        Kind::Word(_) => Name::new(alloc, b"="),
        _ => Name::new(alloc, b""),
    }
}

fn ident(alloc: Global, token: &Token) -> Result<Ident, NoMemory>
    ensures { IfOk result (λ x. x ≡ grammar.ident token.now) }
{
    Ok((token.place, first_name(alloc, &token.kind)?))
}

/// Whether the name of a type is next.
pub fn is_tycon(tokens: &[Token]) -> bool
    ensures { result ≡ head_is (grammar.tokens_of grammar.tycons) (first tokens.now) }
{
    is_in(&[], &[ALPHA, SYMBOL], tokens)
}

/// The name of a type.
pub fn tycon(alloc: Global, tokens: &[Token]) -> Read<'_, Ident>
    ensures { Gives (λ x. (x.0, x.1.now)) result (token_by grammar.tycon tokens.now) }
{
    if !is_tycon(tokens) {
        return Err(ReadError::Refused(Code::Grammar, tokens));
    }
    match tokens {
        [token, rest @ ..] => Ok((ident(alloc, token)?, rest)),
        [] => Err(ReadError::Refused(Code::Grammar, tokens)),
    }
}

fn is_vid(fix: &Fixities, tokens: &[Token]) -> bool
    ensures { result ≡ head_is (grammar.among (settings fix.now) grammar.plain_names) (first tokens.now) }
{
    is_among(fix, &[], &[ALPHA, SYMBOL, STAR], &[], tokens)
}

/// An identifier without infix status.
pub fn vid<'a>(alloc: Global, fix: &Fixities, tokens: &'a [Token]) -> Read<'a, Ident>
    ensures { Gives (λ x. (x.0, x.1.now)) result (token_by (grammar.vid (settings fix.now)) tokens.now) }
{
    if !is_vid(fix, tokens) {
        return Err(ReadError::Refused(Code::Grammar, tokens));
    }
    match tokens {
        [token, rest @ ..] => Ok((ident(alloc, token)?, rest)),
        [] => Err(ReadError::Refused(Code::Grammar, tokens)),
    }
}

fn is_op_vid(tokens: &[Token]) -> bool
    ensures { result ≡ head_is (grammar.tokens_of grammar.op_names) (first tokens.now) }
{
    is_in(&[EQUALS], &[ALPHA, SYMBOL, STAR], tokens)
}

/// An identifier behind `op`, whatever its status.
pub fn op_vid(alloc: Global, tokens: &[Token]) -> Read<'_, Ident>
    ensures { Gives (λ x. (x.0, x.1.now)) result (token_by grammar.op_vid tokens.now) }
{
    if !is_op_vid(tokens) {
        return Err(ReadError::Refused(Code::Grammar, tokens));
    }
    match tokens {
        [token, rest @ ..] => Ok((ident(alloc, token)?, rest)),
        [] => Err(ReadError::Refused(Code::Grammar, tokens)),
    }
}

/// Whether an identifier is next, whatever its status.
pub fn is_any_vid(tokens: &[Token]) -> bool
    ensures { result ≡ head_is (grammar.tokens_of grammar.names) (first tokens.now) }
{
    is_in(&[], &[ALPHA, SYMBOL, STAR], tokens)
}

/// An identifier, whatever its status.
pub fn any_vid(alloc: Global, tokens: &[Token]) -> Read<'_, Ident>
    ensures { Gives (λ x. (x.0, x.1.now)) result (token_by grammar.any_vid tokens.now) }
{
    if !is_any_vid(tokens) {
        return Err(ReadError::Refused(Code::Grammar, tokens));
    }
    match tokens {
        [token, rest @ ..] => Ok((ident(alloc, token)?, rest)),
        [] => Err(ReadError::Refused(Code::Grammar, tokens)),
    }
}

/// Whether the digit of a directive is next.
pub fn is_digit(tokens: &[Token]) -> bool
    ensures { result ≡ head_is (grammar.tokens_of grammar.digits) (first tokens.now) }
{
    is_in(&[], &[ZERO, DIGIT], tokens)
}

/// The number of a literal, where a byte holds it.
fn small_number(kind: &Kind) -> Option<u8>
    ensures { IfSome result (λ n. n ≡ grammar.kind_number kind.now) }
{
    match kind {
        Kind::Lit(Lit::Int(value)) => {
            let value = *value;
            if 0 <= value && value <= 255 {
                Some(value as u8)
            } else {
                None
            }
        }
        _ => Some(0),
    }
}

/// The digit of a directive. NoMemory for a number of more than eight bits, which is no digit: that is tested before.
pub fn digit(tokens: &[Token]) -> Read<'_, u8>
    ensures { Gives (λ x. (x.0, x.1.now)) result (token_by grammar.digit tokens.now) }
{
    if !is_digit(tokens) {
        return Err(ReadError::Refused(Code::Grammar, tokens));
    }
    match tokens {
        [token, rest @ ..] => match small_number(&token.kind) {
            Some(number) => Ok((number, rest)),
            None => Err(ReadError::NoMemory),
        },
        [] => Err(ReadError::Refused(Code::Grammar, tokens)),
    }
}

/// Whether the name of a structure is next, alone or behind structures.
pub fn is_long_strid(tokens: &[Token]) -> bool
    ensures { result ≡ head_is (grammar.tokens_of grammar.long_alphas) (first tokens.now) }
{
    is_in(&[], &[ALPHA, LONG_ALPHA], tokens)
}

/// The name of a structure, alone or behind structures.
pub fn long_strid(alloc: Global, tokens: &[Token]) -> Read<'_, LongIdent>
    ensures { Gives (λ x. (x.0, x.1.now)) result (token_by grammar.long_strid tokens.now) }
{
    if !is_long_strid(tokens) {
        return Err(ReadError::Refused(Code::Grammar, tokens));
    }
    op_long_vid(alloc, tokens)
}

/// Whether an operator of patterns is next.
pub fn is_infix_vid(fix: &Fixities, tokens: &[Token]) -> bool
    ensures { result ≡ head_is (grammar.among (settings fix.now) grammar.infix_names) (first tokens.now) }
{
    is_among(fix, &[], &[], &[ALPHA, SYMBOL, STAR], tokens)
}

fn is_operator(fix: &Fixities, tokens: &[Token]) -> bool
    ensures { result ≡ head_is (grammar.among (settings fix.now) grammar.operators) (first tokens.now) }
{
    is_among(fix, &[EQUALS], &[], &[ALPHA, SYMBOL, STAR], tokens)
}

/// An operator of expressions, `=` too, and the tokens behind it.
///
/// # Errors
/// Grammar where none is next.
pub fn operator<'a>(alloc: Global, fix: &Fixities, tokens: &'a [Token]) -> Read<'a, Ident>
    ensures { Gives (λ x. (x.0, x.1.now)) result (token_by (grammar.operator (settings fix.now)) tokens.now) }
{
    if !is_operator(fix, tokens) {
        return Err(ReadError::Refused(Code::Grammar, tokens));
    }
    match tokens {
        [token, rest @ ..] => Ok((ident(alloc, token)?, rest)),
        [] => Err(ReadError::Refused(Code::Grammar, tokens)),
    }
}

/// How the next token binds, where it is an operator of expressions. NoMemory where none is left.
pub fn next_operator(
    alloc: Global,
    fix: &Fixities,
    tokens: &[Token],
) -> Result<Option<Fixity>, NoMemory>
    ensures { IfOk result (λ o. o ≡ spec.operator_next (settings fix.now) (first tokens.now)) }
{
    if is_next(EQUALS, tokens) {
        let equals = Name::new(alloc, b"=")?;
        return Ok(Some(fixity_of(fix, &equals)));
    }
    Ok(next_fixity(fix, tokens))
}
