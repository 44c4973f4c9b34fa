ghost use Rattle.std.specs.Prelude.{◌≡◌, IfOk};
ghost use Rattle.readers.specs.Reader.{first, head_is, one, token_by};
ghost use Rattle.readers.specs.Given.{Gives};
ghost use Rattle.sml_grammar.specs.Tokens as grammar;

use crate::class::{ALPHA, DIGIT, LONG_ALPHA, LONG_SYMBOL, NUMBER, STAR, SYMBOL, TYVAR, has_class};
use readers::{Code, ReadError};
use sml_ast::{Ident, Lab, Label, LongIdent};
use sml_lex::{Kind, Token};
use std::alloc::Global;
use tl_text::{Lit, Name, NoMemory, Path};

/// Whether a type variable is next.
pub fn is_tyvar(tokens: &[Token]) -> bool
    ensures { result ≡ head_is (grammar.tokens_of grammar.tyvars) (first tokens.now) }
{
    has_class(&[TYVAR], tokens)
}

/// Whether a type constructor is next, alone or behind structures.
pub fn is_long_tycon(tokens: &[Token]) -> bool
    ensures { result ≡ head_is (grammar.tokens_of grammar.long_tycons) (first tokens.now) }
{
    has_class(&[ALPHA, SYMBOL, LONG_ALPHA, LONG_SYMBOL], tokens)
}

/// Whether the star between the parts of a tuple type is next.
pub fn is_times(tokens: &[Token]) -> bool
    ensures { result ≡ head_is grammar.is_times (first tokens.now) }
{
    has_class(&[STAR], tokens)
}

/// The tokens behind the star.
///
/// # Errors
/// Grammar where none is next.
pub fn behind_times(tokens: &[Token]) -> Result<&[Token], ReadError<'_, Token>>
    ensures { Gives (λ x. (tt, x.now)) result (one grammar.is_times tokens.now) }
{
    if !is_times(tokens) {
        return Err(ReadError::Refused(Code::Grammar, tokens));
    }
    match tokens {
        [_, rest @ ..] => Ok(rest),
        [] => Err(ReadError::Refused(Code::Grammar, tokens)),
    }
}

/// Whether the label of a record is next.
pub fn is_label(tokens: &[Token]) -> bool
    ensures { result ≡ head_is (grammar.tokens_of grammar.labels) (first tokens.now) }
{
    has_class(&[ALPHA, SYMBOL, STAR, DIGIT, NUMBER], tokens)
}

/// The same path once more.
fn copy_path(alloc: Global, path: &Path) -> Result<Path, NoMemory>
    ensures { IfOk result (λ p. p ≡ path.now) }
{
    let mut copy = Path::new(alloc);
    for part in path.parts() {
        copy.push(Name::new(alloc, part.bytes())?)?;
    }
    Ok(copy)
}

/// The path of the identifier; of a word it is `=`, and of another token there is none.
fn path(alloc: Global, kind: &Kind) -> Result<Path, NoMemory>
    ensures { IfOk result (λ p. p ≡ grammar.parts_of kind.now) }
{
    match kind {
        Kind::Id(path) => copy_path(alloc, path),
        Kind::Word(_) => {
            let mut path = Path::new(alloc);
            path.push(Name::new(alloc, b"=")?)?;
            Ok(path)
        }
        _ => Ok(Path::new(alloc)),
    }
}

/// The long identifier that the token shows.
pub(crate) fn long_ident(alloc: Global, token: &Token) -> Result<LongIdent, NoMemory>
    ensures { IfOk result (λ x. x ≡ grammar.long_ident token.now) }
{
    Ok((token.place, path(alloc, &token.kind)?))
}

fn tyvar_name(alloc: Global, kind: &Kind) -> Result<Name, NoMemory>
    ensures { IfOk result (λ v. v ≡ grammar.kind_tyvar kind.now) }
{
    match kind {
        Kind::Tyvar(name) => Name::new(alloc, name.bytes()),
        _ => Name::new(alloc, b""),
    }
}

pub(crate) fn first_name(alloc: Global, kind: &Kind) -> Result<Name, NoMemory>
    ensures { IfOk result (λ v. v ≡ grammar.first_part (grammar.parts_of kind.now)) }
{
    match kind {
        Kind::Id(path) => match path.parts() {
            [name, ..] => Name::new(alloc, name.bytes()),
            [] => Name::new(alloc, b""),
        },
        Kind::Word(_) => Name::new(alloc, b"="),
        _ => Name::new(alloc, b""),
    }
}

/// The label that the token shows. NoMemory for a number of more than 32 bits, which is no label: the caller has tested that.
pub(crate) fn label(alloc: Global, token: &Token) -> Result<Label, NoMemory>
    ensures { IfOk result (λ x. x ≡ grammar.label token.now) }
{
    match &token.kind {
        Kind::Lit(Lit::Int(value)) => {
            let value = *value;
            if 0 <= value && value <= 4294967295 {
                Ok((token.place, Lab::Num(value as u32)))
            } else {
                Err(NoMemory)
            }
        }
        Kind::Lit(_) => Ok((token.place, Lab::Num(0))),
        kind => Ok((token.place, Lab::Word(first_name(alloc, kind)?))),
    }
}

/// A type variable, and the tokens behind it.
///
/// # Errors
/// Grammar where none is next.
pub fn type_variable(
    alloc: Global,
    tokens: &[Token],
) -> Result<(Ident, &[Token]), ReadError<'_, Token>>
    ensures { Gives (λ x. (x.0, x.1.now)) result (token_by grammar.tyvar tokens.now) }
{
    if !is_tyvar(tokens) {
        return Err(ReadError::Refused(Code::Grammar, tokens));
    }
    match tokens {
        [token, rest @ ..] => Ok(((token.place, tyvar_name(alloc, &token.kind)?), rest)),
        [] => Err(ReadError::Refused(Code::Grammar, tokens)),
    }
}

/// A type constructor, and the tokens behind it.
///
/// # Errors
/// Grammar where none is next.
pub fn long_tycon(
    alloc: Global,
    tokens: &[Token],
) -> Result<(LongIdent, &[Token]), ReadError<'_, Token>>
    ensures { Gives (λ x. (x.0, x.1.now)) result (token_by grammar.long_tycon tokens.now) }
{
    if !is_long_tycon(tokens) {
        return Err(ReadError::Refused(Code::Grammar, tokens));
    }
    match tokens {
        [token, rest @ ..] => Ok((long_ident(alloc, token)?, rest)),
        [] => Err(ReadError::Refused(Code::Grammar, tokens)),
    }
}

/// The label of a record, and the tokens behind it.
///
/// # Errors
/// Grammar where none is next.
pub fn record_label(
    alloc: Global,
    tokens: &[Token],
) -> Result<(Label, &[Token]), ReadError<'_, Token>>
    ensures { Gives (λ x. (x.0, x.1.now)) result (token_by grammar.lab tokens.now) }
{
    if !is_label(tokens) {
        return Err(ReadError::Refused(Code::Grammar, tokens));
    }
    match tokens {
        [token, rest @ ..] => Ok((label(alloc, token)?, rest)),
        [] => Err(ReadError::Refused(Code::Grammar, tokens)),
    }
}
