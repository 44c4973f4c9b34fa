ghost use Rattle.std.specs.Prelude.{◌≡◌};
ghost use Rattle.readers.specs.Reader.{first, head_is, one, token_by};
ghost use Rattle.readers.specs.Given.{Gives};
ghost use Rattle.sml_grammar.specs.Tokens as grammar;

use readers::{Code, ReadError};
use sml_lex::{Kind, Token};
use tl_text::Place;

/// Whether the next token is the reserved word of this number.
pub fn is_next(word: u32, tokens: &[Token]) -> bool
    ensures { result ≡ head_is (grammar.is word) (first tokens.now) }
{
    match tokens {
        [token, ..] => match &token.kind {
            Kind::Word(number) => *number == word,
            _ => false,
        },
        [] => false,
    }
}

/// The tokens behind the word.
///
/// # Errors
/// Grammar where it is not next.
pub fn behind(word: u32, tokens: &[Token]) -> Result<&[Token], ReadError<'_, Token>>
    ensures { Gives (λ x. (tt, x.now)) result (one (grammar.is word) tokens.now) }
{
    match tokens {
        [token, rest @ ..] => match &token.kind {
            Kind::Word(number) if *number == word => Ok(rest),
            _ => Err(ReadError::Refused(Code::Grammar, tokens)),
        },
        [] => Err(ReadError::Refused(Code::Grammar, tokens)),
    }
}

/// The place of the word, and the tokens behind it.
///
/// # Errors
/// Grammar where it is not next.
pub fn place_of(word: u32, tokens: &[Token]) -> Result<(Place, &[Token]), ReadError<'_, Token>>
    ensures { Gives (λ x. (x.0, x.1.now)) result (token_by (grammar.the word) tokens.now) }
{
    match tokens {
        [token, rest @ ..] => match &token.kind {
            Kind::Word(number) if *number == word => Ok((token.place, rest)),
            _ => Err(ReadError::Refused(Code::Grammar, tokens)),
        },
        [] => Err(ReadError::Refused(Code::Grammar, tokens)),
    }
}
