ghost use Rattle.std.specs.Prelude.{◌≡◌};
ghost use Rattle.readers.specs.Reader.{first, head_is};
ghost use Rattle.sml_fix.specs.Fixities.{settings};
ghost use Rattle.sml_grammar.specs.Tokens.{tokens_of};
ghost use Rattle.sml_grammar_exp.specs.ReadExps as exps;
ghost use Rattle.sml_grammar_mod.specs.Programs as programs;
ghost use Rattle.sml_grammar_mod.specs.ReadPrograms as tops;
ghost use Rattle.sml_grammar_mod.specs.ReadStrs as strs;

use sml_fix::Fixities;
use sml_lex::Token;
use sml_scan::{
    ALPHA, DIGIT, LITERAL, LONG_ALPHA, LONG_STAR, LONG_SYMBOL, NUMBER, STAR, SYMBOL, ZERO,
    is_among, is_in,
};

const ABSTYPE: u32 = 0;

const ANDALSO: u32 = 1;

const CASE: u32 = 3;

const DATATYPE: u32 = 4;

const EXCEPTION: u32 = 8;

const FN: u32 = 9;

const FUN: u32 = 10;

const HANDLE: u32 = 11;

const IF: u32 = 12;

const INFIX: u32 = 14;

const INFIXR: u32 = 15;

const LET: u32 = 16;

const LOCAL: u32 = 17;

const NONFIX: u32 = 18;

const OF: u32 = 19;

const OP: u32 = 20;

const OPEN: u32 = 21;

const ORELSE: u32 = 22;

const RAISE: u32 = 23;

const TYPE: u32 = 26;

const VAL: u32 = 27;

const WITHTYPE: u32 = 29;

const WHILE: u32 = 30;

const FUNCTOR: u32 = 32;

const SIGNATURE: u32 = 36;

const STRUCT: u32 = 37;

const STRUCTURE: u32 = 38;

const WHERE: u32 = 39;

const OPEN_PAREN: u32 = 40;

const OPEN_BRACKET: u32 = 42;

const OPEN_BRACE: u32 = 44;

const COLON: u32 = 47;

const SEAL: u32 = 48;

const SEMICOLON: u32 = 49;

const BAR: u32 = 52;

const EQUALS: u32 = 53;

const ARROW: u32 = 55;

const AND: u32 = 56;

const HASH: u32 = 57;

/// The class of the end of the source.
const LAST: u32 = 5;

/// The words with which some declaration at structure level goes on.
const GOING: &[u32] = &[
    HASH,
    OPEN_BRACE,
    OPEN_BRACKET,
    OPEN_PAREN,
    OP,
    LET,
    EQUALS,
    ARROW,
    OF,
    COLON,
    ANDALSO,
    ORELSE,
    HANDLE,
    BAR,
    AND,
    WITHTYPE,
    COLON,
    SEAL,
    AND,
    WHERE,
];

/// The same, or the semicolons behind one.
const GOING_IN_ITEM: &[u32] = &[
    HASH,
    OPEN_BRACE,
    OPEN_BRACKET,
    OPEN_PAREN,
    OP,
    LET,
    EQUALS,
    ARROW,
    OF,
    COLON,
    ANDALSO,
    ORELSE,
    HANDLE,
    BAR,
    AND,
    WITHTYPE,
    COLON,
    SEAL,
    AND,
    WHERE,
    SEMICOLON,
];

/// The same, of a row of declarations.
const GOING_IN_DECS: &[u32] = &[
    HASH,
    OPEN_BRACE,
    OPEN_BRACKET,
    OPEN_PAREN,
    OP,
    LET,
    EQUALS,
    ARROW,
    OF,
    COLON,
    ANDALSO,
    ORELSE,
    HANDLE,
    BAR,
    AND,
    WITHTYPE,
    COLON,
    SEAL,
    AND,
    WHERE,
    SEMICOLON,
    STRUCTURE,
    OPEN,
    INFIX,
    INFIXR,
    NONFIX,
    LOCAL,
    DATATYPE,
    TYPE,
    EXCEPTION,
    ABSTYPE,
    VAL,
    FUN,
];

/// The classes of tokens with which some declaration at structure level goes on.
const GOING_CLASSES: &[u32] = &[
    ZERO,
    DIGIT,
    NUMBER,
    LITERAL,
    ALPHA,
    SYMBOL,
    STAR,
    LONG_ALPHA,
    LONG_SYMBOL,
    LONG_STAR,
    ALPHA,
    SYMBOL,
    LONG_ALPHA,
    LONG_SYMBOL,
    STAR,
];

/// Whether an expression begins.
pub fn begins_exp(fix: &Fixities, tokens: &[Token]) -> bool
    ensures { result ≡ head_is (exps.begins_exp (settings fix.now)) (first tokens.now) }
{
    is_among(
        fix,
        &[
            HASH,
            OPEN_BRACE,
            OPEN_BRACKET,
            OPEN_PAREN,
            OP,
            LET,
            RAISE,
            IF,
            WHILE,
            CASE,
            FN,
        ],
        &[
            ZERO,
            DIGIT,
            NUMBER,
            LITERAL,
            ALPHA,
            SYMBOL,
            STAR,
            LONG_ALPHA,
            LONG_SYMBOL,
            LONG_STAR,
        ],
        &[],
        tokens,
    )
}

/// Whether an ascription begins.
pub fn begins_ascribe(tokens: &[Token]) -> bool
    ensures { result ≡ head_is strs.begins_ascribe (first tokens.now) }
{
    is_in(&[COLON, SEAL], &[], tokens)
}

/// Whether a structure expression begins.
pub fn begins_str(tokens: &[Token]) -> bool
    ensures { result ≡ head_is strs.begins_str (first tokens.now) }
{
    is_in(&[STRUCT, LET], &[ALPHA, LONG_ALPHA], tokens)
}

/// Whether a token is next with which some structure expression goes on.
pub fn begins_grow(tokens: &[Token]) -> bool
    ensures { result ≡ head_is strs.begins_grow (first tokens.now) }
{
    is_in(&[COLON, SEAL, AND, WHERE], &[], tokens)
}

/// Whether a declaration at structure level begins.
pub fn begins_strdec(tokens: &[Token]) -> bool
    ensures { result ≡ head_is strs.begins_strdec (first tokens.now) }
{
    is_in(
        &[
            STRUCTURE, OPEN, INFIX, INFIXR, NONFIX, LOCAL, DATATYPE, TYPE, EXCEPTION, ABSTYPE, VAL,
            FUN,
        ],
        &[],
        tokens,
    )
}

/// Whether a top-level declaration begins.
pub fn begins_top(tokens: &[Token]) -> bool
    ensures { result ≡ head_is tops.begins_top (first tokens.now) }
{
    is_in(
        &[
            SIGNATURE, FUNCTOR, STRUCTURE, OPEN, INFIX, INFIXR, NONFIX, LOCAL, DATATYPE, TYPE,
            EXCEPTION, ABSTYPE, VAL, FUN,
        ],
        &[],
        tokens,
    )
}

/// Whether the source ends.
pub fn is_end(tokens: &[Token]) -> bool
    ensures { result ≡ head_is programs.is_end (first tokens.now) }
{
    is_in(&[], &[LAST], tokens)
}

/// Whether a token is next with which some declaration at structure level would go on.
pub fn goes_on(tokens: &[Token]) -> bool
    ensures { result ≡ head_is (tokens_of strs.strdec_goes) (first tokens.now) }
{
    is_in(GOING, GOING_CLASSES, tokens)
}

/// The same, or the semicolons behind one.
pub fn goes_in_item(tokens: &[Token]) -> bool
    ensures { result ≡ head_is (tokens_of strs.str_item_goes) (first tokens.now) }
{
    is_in(GOING_IN_ITEM, GOING_CLASSES, tokens)
}

/// The same, of a row of declarations.
pub fn goes_in_decs(tokens: &[Token]) -> bool
    ensures { result ≡ head_is (tokens_of strs.strdecs_goes) (first tokens.now) }
{
    is_in(GOING_IN_DECS, GOING_CLASSES, tokens)
}
