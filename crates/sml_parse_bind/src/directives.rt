ghost use Rattle.std.specs.Prelude.{◌≡◌};
ghost use Rattle.readers.specs.Reader.{both, mapped, token_by};
ghost use Rattle.readers.specs.Forms.{ended, optional};
ghost use Rattle.readers.specs.Given.{Gives};
ghost use Rattle.sml_grammar.specs.Tokens as tokens_spec;
ghost use Rattle.sml_grammar.specs.Tokens.{tokens_of};
ghost use Rattle.sml_grammar_exp.specs.Decs as grammar;
ghost use Rattle.sml_grammar_exp.specs.ReadClauses.{many_read};
ghost use Rattle.sml_grammar_exp.specs.ReadDecs as read;

use crate::first::goes_on;
use crate::name::{
    Read, any_vid, digit as read_digit, is_any_vid, is_digit, is_long_strid, long_strid,
};
use readers::{Code, ReadError};
use sml_ast::{Dec, Ident, LongIdent};
use sml_lex::Token;
use std::alloc::Global;
use tl_text::{List, Place};

/// One structure or more.
fn structures(alloc: Global, tokens: &[Token]) -> Read<'_, List<LongIdent>>
    ensures { Gives (λ x. (x.0, x.1.now)) result (many_read (tokens_of tokens_spec.long_alphas) (token_by tokens_spec.long_strid) tokens.now) }
{
    let (first, mut rest) = long_strid(alloc, tokens)?;
    let mut found = List::new(alloc);
    found.push(first)?;
    'items: while is_long_strid(rest) {
        let (other, after) = long_strid(alloc, rest)?;
        found.push(other)?;
        rest = after;
    }
    Ok((found, rest))
}

/// One identifier or more.
fn names(alloc: Global, tokens: &[Token]) -> Read<'_, List<Ident>>
    ensures { Gives (λ x. (x.0, x.1.now)) result (many_read (tokens_of tokens_spec.names) (token_by tokens_spec.any_vid) tokens.now) }
{
    let (first, mut rest) = any_vid(alloc, tokens)?;
    let mut found = List::new(alloc);
    found.push(first)?;
    'items: while is_any_vid(rest) {
        let (other, after) = any_vid(alloc, rest)?;
        found.push(other)?;
        rest = after;
    }
    Ok((found, rest))
}

/// The digit of a directive, where one is next.
fn digit(tokens: &[Token]) -> Read<'_, Option<u8>>
    ensures { Gives (λ x. (x.0, x.1.now)) result (optional (tokens_of tokens_spec.digits) (token_by tokens_spec.digit) tokens.now) }
{
    if !is_digit(tokens) {
        return Ok((None, tokens));
    }
    let (digit, rest) = read_digit(tokens)?;
    Ok((Some(digit), rest))
}

/// Behind `open`, whose place is given: `S T`.
///
/// # Errors
/// Grammar at the first token with which no declaration goes on. NoMemory where none is left.
pub fn opens(alloc: Global, place: Place, tokens: &[Token]) -> Read<'_, (Dec, u32)>
    ensures { Gives (λ x. (x.0, x.1.now)) result (mapped (λ x. grammar.opens_of (place, x)) (ended (tokens_of read.dec_goes) (many_read (tokens_of tokens_spec.long_alphas) (token_by tokens_spec.long_strid))) tokens.now) }
{
    let (found, rest) = structures(alloc, tokens)?;
    if goes_on(rest) {
        return Err(ReadError::Refused(Code::Grammar, rest));
    }
    Ok(((Dec::Opens(place, found), 1), rest))
}

/// The digit of a directive and its identifiers, `3 ++ --`, where the declaration ends behind them.
///
/// # Errors
/// Grammar at the first token with which no declaration goes on. NoMemory where none is left.
pub fn directive(alloc: Global, tokens: &[Token]) -> Read<'_, (Option<u8>, List<Ident>)>
    ensures { Gives (λ x. (x.0, x.1.now)) result (ended (tokens_of read.dec_goes) (both (optional (tokens_of tokens_spec.digits) (token_by tokens_spec.digit)) (many_read (tokens_of tokens_spec.names) (token_by tokens_spec.any_vid))) tokens.now) }
{
    let (digit, rest) = digit(tokens)?;
    let (found, rest) = names(alloc, rest)?;
    if goes_on(rest) {
        return Err(ReadError::Refused(Code::Grammar, rest));
    }
    Ok(((digit, found), rest))
}

/// The identifiers of a directive without a digit, where the declaration ends behind them.
///
/// # Errors
/// Grammar at the first token with which no declaration goes on. NoMemory where none is left.
pub fn plain_directive(alloc: Global, tokens: &[Token]) -> Read<'_, List<Ident>>
    ensures { Gives (λ x. (x.0, x.1.now)) result (ended (tokens_of read.dec_goes) (many_read (tokens_of tokens_spec.names) (token_by tokens_spec.any_vid)) tokens.now) }
{
    let (found, rest) = names(alloc, tokens)?;
    if goes_on(rest) {
        return Err(ReadError::Refused(Code::Grammar, rest));
    }
    Ok((found, rest))
}
