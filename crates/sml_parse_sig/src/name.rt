ghost use Rattle.std.specs.Prelude.{◌≡◌, IfOk};
ghost use Rattle.readers.specs.Reader.{first, head_is, row, token_by};
ghost use Rattle.readers.specs.Given.{Gives};
ghost use Rattle.sml_grammar.specs.Tokens as grammar;
ghost use Rattle.sml_grammar_exp.specs.ReadClauses.{many_read};

use readers::{Code, ReadError};
use sml_ast::Ident;
use sml_lex::Token;
use sml_parse_bind::any_vid;
use sml_scan::{ALPHA, is_in};
use std::alloc::Global;
use tl_text::List;

/// What was read, and the tokens behind it.
pub type Read<'a, T> = Result<(T, &'a [Token]), ReadError<'a, Token>>;

/// Whether the name of a structure, a signature or a functor is next.
pub fn is_strid(tokens: &[Token]) -> bool
    ensures { result ≡ head_is (grammar.tokens_of grammar.alphas) (first tokens.now) }
{
    is_in(&[], &[ALPHA], tokens)
}

/// The name of a structure, a signature or a functor, and the tokens behind it.
///
/// # Errors
/// Grammar where none is next.
pub fn strid(alloc: Global, tokens: &[Token]) -> Read<'_, Ident>
    ensures { Gives (λ x. (x.0, x.1.now)) result (token_by grammar.strid tokens.now) }
{
    if !is_strid(tokens) {
        return Err(ReadError::Refused(Code::Grammar, tokens));
    }
    any_vid(alloc, tokens)
}

/// One name or more, with nothing between.
pub fn strids(alloc: Global, tokens: &[Token]) -> Read<'_, List<Ident>>
    ensures { Gives (λ x. (x.0, x.1.now)) result (many_read (grammar.tokens_of grammar.alphas) (token_by grammar.strid) tokens.now) }
{
    let (first, mut rest) = strid(alloc, tokens)?;
    let mut found = List::new(alloc);
    found.push(first)?;
    'items: while is_strid(rest) {
        let (other, after) = strid(alloc, rest)?;
        found.push(other)?;
        rest = after;
    }
    Ok((found, rest))
}
