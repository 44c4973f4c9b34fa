ghost use Rattle.std.specs.Prelude.{◌≡◌};
ghost use Rattle.readers.specs.Reader.{first, head_is};
ghost use Rattle.sml_grammar.specs.Tokens.{tokens_of};
ghost use Rattle.sml_grammar_sig.specs.ReadDescs as descs;
ghost use Rattle.sml_grammar_sig.specs.ReadSigs as sigs;

use sml_lex::Token;
use sml_scan::{ALPHA, LONG_ALPHA, LONG_SYMBOL, STAR, SYMBOL, is_in};

const DATATYPE: u32 = 4;

const EXCEPTION: u32 = 8;

const OF: u32 = 19;

const TYPE: u32 = 26;

const VAL: u32 = 27;

const EQTYPE: u32 = 31;

const INCLUDE: u32 = 33;

const SHARING: u32 = 34;

const SIG: u32 = 35;

const STRUCTURE: u32 = 38;

const WHERE: u32 = 39;

const OPEN_PAREN: u32 = 40;

const SEMICOLON: u32 = 49;

const BAR: u32 = 52;

const EQUALS: u32 = 53;

const ARROW: u32 = 55;

const AND: u32 = 56;

/// The class of type variables.
const TYVAR: u32 = 0;

/// Whether the type that `where` makes equal begins.
pub fn begins_real(tokens: &[Token]) -> bool
    ensures { result ≡ head_is descs.begins_real (first tokens.now) }
{
    is_in(
        &[OPEN_PAREN],
        &[TYVAR, ALPHA, SYMBOL, LONG_ALPHA, LONG_SYMBOL],
        tokens,
    )
}

/// Whether a specification begins.
pub fn begins_spec(tokens: &[Token]) -> bool
    ensures { result ≡ head_is sigs.begins_spec (first tokens.now) }
{
    is_in(
        &[
            INCLUDE, EQTYPE, SHARING, TYPE, DATATYPE, EXCEPTION, VAL, STRUCTURE,
        ],
        &[],
        tokens,
    )
}

/// Whether a specification or a semicolon is next.
pub fn begins_item(tokens: &[Token]) -> bool
    ensures { result ≡ head_is sigs.begins_item (first tokens.now) }
{
    is_in(
        &[
            SEMICOLON, INCLUDE, EQTYPE, SHARING, TYPE, DATATYPE, EXCEPTION, VAL, STRUCTURE,
        ],
        &[],
        tokens,
    )
}

/// Whether a signature begins.
pub fn begins_sig(tokens: &[Token]) -> bool
    ensures { result ≡ head_is sigs.begins_sig (first tokens.now) }
{
    is_in(&[SIG], &[ALPHA], tokens)
}

/// Whether a token is next with which some signature goes on.
pub fn goes_on(tokens: &[Token]) -> bool
    ensures { result ≡ head_is sigs.goes_on (first tokens.now) }
{
    is_in(&[AND, WHERE], &[], tokens)
}

/// Whether a token is next with which some specification would go on.
pub fn goes_in_spec(tokens: &[Token]) -> bool
    ensures { result ≡ head_is (tokens_of sigs.spec_goes) (first tokens.now) }
{
    is_in(
        &[ARROW, OF, BAR, AND, EQUALS, WHERE],
        &[ALPHA, SYMBOL, LONG_ALPHA, LONG_SYMBOL, STAR],
        tokens,
    )
}
