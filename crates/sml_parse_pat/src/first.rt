ghost use Rattle.std.specs.Prelude.{◌≡◌};
ghost use Rattle.readers.specs.Reader.{first, head_is};
ghost use Rattle.sml_fix.specs.Fixities.{settings};
ghost use Rattle.sml_grammar.specs.Tokens.{among, tokens_of};
ghost use Rattle.sml_grammar.specs.ReadPats as read;

use sml_fix::Fixities;
use sml_lex::Token;
use sml_scan::{
    ALPHA, DIGIT, LITERAL, LONG_ALPHA, LONG_STAR, LONG_SYMBOL, NUMBER, STAR, SYMBOL, ZERO,
    is_among, is_in,
};

const AS: u32 = 2;

const OP: u32 = 20;

const OPEN_PAREN: u32 = 40;

const OPEN_BRACKET: u32 = 42;

const OPEN_BRACE: u32 = 44;

const COLON: u32 = 47;

const DOTS: u32 = 50;

const WILDCARD: u32 = 51;

const EQUALS: u32 = 53;

const ARROW: u32 = 55;

/// Whether an identifier that may stand in a pattern is next, or `op`.
pub fn begins_name(fix: &Fixities, tokens: &[Token]) -> bool
    ensures { result ≡ head_is (read.begins_name (settings fix.now)) (first tokens.now) }
{
    is_among(
        fix,
        &[OP],
        &[ALPHA, SYMBOL, STAR, LONG_ALPHA, LONG_SYMBOL, LONG_STAR],
        &[],
        tokens,
    )
}

/// Whether an atomic pattern begins that is no identifier.
pub fn begins_other(tokens: &[Token]) -> bool
    ensures { result ≡ head_is read.begins_other (first tokens.now) }
{
    is_in(
        &[WILDCARD, OPEN_BRACE, OPEN_BRACKET, OPEN_PAREN],
        &[ZERO, DIGIT, NUMBER, LITERAL],
        tokens,
    )
}

/// Whether an atomic pattern begins.
pub fn begins_at(fix: &Fixities, tokens: &[Token]) -> bool
    ensures { result ≡ head_is (read.begins_at (settings fix.now)) (first tokens.now) }
{
    is_among(
        fix,
        &[OP, WILDCARD, OPEN_BRACE, OPEN_BRACKET, OPEN_PAREN],
        &[
            ALPHA,
            SYMBOL,
            STAR,
            LONG_ALPHA,
            LONG_SYMBOL,
            LONG_STAR,
            ZERO,
            DIGIT,
            NUMBER,
            LITERAL,
        ],
        &[],
        tokens,
    )
}

/// Whether a field begins that is `...` or begins with an identifier without infix status.
pub fn begins_vid_field(fix: &Fixities, tokens: &[Token]) -> bool
    ensures { result ≡ head_is (among (settings fix.now) read.vid_firsts) (first tokens.now) }
{
    is_among(fix, &[DOTS], &[ALPHA, SYMBOL, STAR], &[], tokens)
}

/// Whether a field of a record pattern begins.
pub fn begins_field(fix: &Fixities, tokens: &[Token]) -> bool
    ensures { result ≡ head_is (read.begins_field (settings fix.now)) (first tokens.now) }
{
    is_among(
        fix,
        &[DOTS],
        &[ALPHA, SYMBOL, STAR, DIGIT, NUMBER],
        &[ALPHA, SYMBOL, STAR],
        tokens,
    )
}

/// Whether a type or a pattern follows the identifier of a field.
pub fn begins_tail(tokens: &[Token]) -> bool
    ensures { result ≡ head_is read.begins_tail (first tokens.now) }
{
    is_in(&[COLON, EQUALS, AS], &[], tokens)
}

/// Whether a token is next with which a row or a type would go on, were another one before it.
pub fn goes_inside(tokens: &[Token]) -> bool
    ensures { result ≡ head_is (tokens_of read.inner_goes) (first tokens.now) }
{
    is_in(
        &[OP, WILDCARD, OPEN_BRACE, OPEN_BRACKET, OPEN_PAREN, ARROW],
        &[
            ALPHA,
            SYMBOL,
            STAR,
            LONG_ALPHA,
            LONG_SYMBOL,
            LONG_STAR,
            ZERO,
            DIGIT,
            NUMBER,
            LITERAL,
        ],
        tokens,
    )
}

/// The same, of a field.
pub fn goes_in_field(tokens: &[Token]) -> bool
    ensures { result ≡ head_is (tokens_of read.field_goes) (first tokens.now) }
{
    is_in(
        &[
            OP,
            WILDCARD,
            OPEN_BRACE,
            OPEN_BRACKET,
            OPEN_PAREN,
            ARROW,
            COLON,
            AS,
            EQUALS,
        ],
        &[
            ALPHA,
            SYMBOL,
            STAR,
            LONG_ALPHA,
            LONG_SYMBOL,
            LONG_STAR,
            ZERO,
            DIGIT,
            NUMBER,
            LITERAL,
        ],
        tokens,
    )
}
