ghost use Rattle.std.specs.Prelude.{◌≡◌};
ghost use Rattle.readers.specs.Reader.{first, head_is};
ghost use Rattle.sml_fix.specs.Fixities.{settings};
ghost use Rattle.sml_grammar.specs.Tokens.{tokens_of};
ghost use Rattle.sml_grammar_exp.specs.ReadDecs as decs;
ghost use Rattle.sml_grammar_exp.specs.ReadExps as exps;

use sml_fix::Fixities;
use sml_lex::Token;
use sml_parse_bind::goes_on;
use sml_scan::{
    ALPHA, DIGIT, LITERAL, LONG_ALPHA, LONG_STAR, LONG_SYMBOL, NUMBER, STAR, SYMBOL, ZERO,
    is_among, is_in, is_next,
};

const ABSTYPE: u32 = 0;

const CASE: u32 = 3;

const DATATYPE: u32 = 4;

const EXCEPTION: u32 = 8;

const FN: u32 = 9;

const FUN: u32 = 10;

const IF: u32 = 12;

const INFIX: u32 = 14;

const INFIXR: u32 = 15;

const LET: u32 = 16;

const LOCAL: u32 = 17;

const NONFIX: u32 = 18;

const OP: u32 = 20;

const OPEN: u32 = 21;

const RAISE: u32 = 23;

const TYPE: u32 = 26;

const VAL: u32 = 27;

const WHILE: u32 = 30;

const OPEN_PAREN: u32 = 40;

const OPEN_BRACKET: u32 = 42;

const OPEN_BRACE: u32 = 44;

const SEMICOLON: u32 = 49;

const HASH: u32 = 57;

/// Whether an atomic expression begins.
pub fn begins_at(fix: &Fixities, tokens: &[Token]) -> bool
    ensures { result ≡ head_is (exps.begins_at (settings fix.now)) (first tokens.now) }
{
    is_among(
        fix,
        &[HASH, OPEN_BRACE, OPEN_BRACKET, OPEN_PAREN, OP, LET],
        &[
            ZERO,
            DIGIT,
            NUMBER,
            LITERAL,
            ALPHA,
            SYMBOL,
            STAR,
            LONG_ALPHA,
            LONG_SYMBOL,
            LONG_STAR,
        ],
        &[],
        tokens,
    )
}

/// Whether an expression begins.
pub fn begins_exp(fix: &Fixities, tokens: &[Token]) -> bool
    ensures { result ≡ head_is (exps.begins_exp (settings fix.now)) (first tokens.now) }
{
    is_among(
        fix,
        &[
            HASH,
            OPEN_BRACE,
            OPEN_BRACKET,
            OPEN_PAREN,
            OP,
            LET,
            RAISE,
            IF,
            WHILE,
            CASE,
            FN,
        ],
        &[
            ZERO,
            DIGIT,
            NUMBER,
            LITERAL,
            ALPHA,
            SYMBOL,
            STAR,
            LONG_ALPHA,
            LONG_SYMBOL,
            LONG_STAR,
        ],
        &[],
        tokens,
    )
}

/// Whether a declaration begins.
pub fn begins_dec(tokens: &[Token]) -> bool
    ensures { result ≡ head_is decs.begins_dec (first tokens.now) }
{
    is_in(
        &[
            OPEN, INFIX, INFIXR, NONFIX, LOCAL, DATATYPE, TYPE, EXCEPTION, ABSTYPE, VAL, FUN,
        ],
        &[],
        tokens,
    )
}

/// Whether a token is next with which some declaration would go on, or the semicolons behind one.
pub fn goes_in_item(tokens: &[Token]) -> bool
    ensures { result ≡ head_is (tokens_of decs.item_goes) (first tokens.now) }
{
    goes_on(tokens) || is_next(SEMICOLON, tokens)
}

/// The same, of a row of declarations.
pub fn goes_in_decs(tokens: &[Token]) -> bool
    ensures { result ≡ head_is (tokens_of decs.decs_goes) (first tokens.now) }
{
    goes_in_item(tokens) || begins_dec(tokens)
}
