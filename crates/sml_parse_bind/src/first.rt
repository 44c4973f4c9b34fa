ghost use Rattle.std.specs.Prelude.{◌≡◌};
ghost use Rattle.readers.specs.Reader.{first, head_is};
ghost use Rattle.sml_fix.specs.Fixities.{settings};
ghost use Rattle.sml_grammar.specs.Tokens.{tokens_of};
ghost use Rattle.sml_grammar_exp.specs.ReadBinds as binds;
ghost use Rattle.sml_grammar_exp.specs.ReadClauses as clauses;
ghost use Rattle.sml_grammar_exp.specs.ReadDecs as decs;

use sml_fix::Fixities;
use sml_lex::Token;
use sml_parse_pat::begins_at;
use sml_scan::{
    ALPHA, DIGIT, LITERAL, LONG_ALPHA, LONG_STAR, LONG_SYMBOL, NUMBER, STAR, SYMBOL, ZERO,
    is_among, is_in,
};

const ANDALSO: u32 = 1;

const HANDLE: u32 = 11;

const LET: u32 = 16;

const OF: u32 = 19;

const OP: u32 = 20;

const ORELSE: u32 = 22;

const WITHTYPE: u32 = 29;

const OPEN_PAREN: u32 = 40;

const OPEN_BRACKET: u32 = 42;

const OPEN_BRACE: u32 = 44;

const COLON: u32 = 47;

const WILDCARD: u32 = 51;

const BAR: u32 = 52;

const EQUALS: u32 = 53;

const ARROW: u32 = 55;

const AND: u32 = 56;

const HASH: u32 = 57;

/// The class of type variables.
const TYVAR: u32 = 0;

/// Whether the name of a constructor, an exception or a function begins.
pub fn begins_vid(fix: &Fixities, tokens: &[Token]) -> bool
    ensures { result ≡ head_is (binds.begins_vid (settings fix.now)) (first tokens.now) }
{
    is_among(fix, &[OP], &[ALPHA, SYMBOL, STAR], &[], tokens)
}

/// Whether type variables before a name begin.
pub fn begins_vars(tokens: &[Token]) -> bool
    ensures { result ≡ head_is binds.begins_vars (first tokens.now) }
{
    is_in(&[OPEN_PAREN], &[TYVAR], tokens)
}

/// Whether a token is next with which a constructor or its type would go on.
pub fn goes_in_con(tokens: &[Token]) -> bool
    ensures { result ≡ head_is (tokens_of binds.con_goes) (first tokens.now) }
{
    is_in(
        &[ARROW, OF],
        &[ALPHA, SYMBOL, LONG_ALPHA, LONG_SYMBOL, STAR],
        tokens,
    )
}

/// The same, of an exception.
pub fn goes_in_exn(tokens: &[Token]) -> bool
    ensures { result ≡ head_is (tokens_of binds.exn_goes) (first tokens.now) }
{
    is_in(
        &[ARROW, OF, EQUALS],
        &[ALPHA, SYMBOL, LONG_ALPHA, LONG_SYMBOL, STAR],
        tokens,
    )
}

/// The same, of the front of a clause.
pub fn goes_in_head(tokens: &[Token]) -> bool
    ensures { result ≡ head_is (tokens_of clauses.head_goes) (first tokens.now) }
{
    is_in(
        &[OP, WILDCARD, OPEN_BRACE, OPEN_BRACKET, OPEN_PAREN],
        &[
            ALPHA,
            SYMBOL,
            STAR,
            LONG_ALPHA,
            LONG_SYMBOL,
            LONG_STAR,
            ZERO,
            DIGIT,
            NUMBER,
            LITERAL,
        ],
        tokens,
    )
}

/// Whether a token is next with which some declaration would go on.
pub fn goes_on(tokens: &[Token]) -> bool
    ensures { result ≡ head_is (tokens_of decs.dec_goes) (first tokens.now) }
{
    is_in(
        &[
            HASH,
            OPEN_BRACE,
            OPEN_BRACKET,
            OPEN_PAREN,
            OP,
            LET,
            EQUALS,
            ARROW,
            OF,
            COLON,
            ANDALSO,
            ORELSE,
            HANDLE,
            BAR,
            AND,
            WITHTYPE,
        ],
        &[
            ZERO,
            DIGIT,
            NUMBER,
            LITERAL,
            ALPHA,
            SYMBOL,
            STAR,
            LONG_ALPHA,
            LONG_SYMBOL,
            LONG_STAR,
            ALPHA,
            SYMBOL,
            LONG_ALPHA,
            LONG_SYMBOL,
            STAR,
        ],
        tokens,
    )
}

/// Whether a clause begins, where some identifier is an operator or where none is.
pub fn begins_head(some_operator: bool, fix: &Fixities, tokens: &[Token]) -> bool
    ensures { result ≡ head_is (clauses.begins_head some_operator (settings fix.now)) (first tokens.now) }
{
    if some_operator {
        begins_at(fix, tokens)
    } else {
        begins_vid(fix, tokens)
    }
}
