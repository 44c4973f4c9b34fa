ghost use Rattle.std.specs.Prelude.{◌≡◌, ℕ, List};
ghost use Rattle.readers.specs.Reader.{first, head_is};
ghost use Rattle.sml_fix.specs.Fixities.{settings};
ghost use Rattle.sml_grammar.specs.Tokens as grammar;

use crate::class::{LAST, TYVAR, is_listed, lit_class, path_class};
use sml_fix::Fixities;
use sml_lex::{Kind, Token};
use tl_text::Name;

/// Whether it is an operator, which an identifier behind structures never is.
fn is_infix(fix: &Fixities, parts: &[Name]) -> bool
    ensures { result ≡ grammar.is_infix (settings fix.now) parts.now }
{
    match parts {
        [name] => fix.get(name).is_some(),
        _ => false,
    }
}

fn kind_among(
    fix: &Fixities,
    words: &[u32],
    plain: &[u32],
    ops: &[u32],
    decimal: bool,
    kind: &Kind,
) -> bool
    ensures { result ≡ grammar.kind_among (settings fix.now) (grammar.firsts words.now plain.now ops.now) decimal kind.now }
{
    match kind {
        Kind::Word(number) => is_listed(*number, words),
        Kind::Id(path) => {
            let classes = if is_infix(fix, path.parts()) {
                ops
            } else {
                plain
            };
            is_listed(path_class(path.parts()), classes)
        }
        Kind::Tyvar(_) => is_listed(TYVAR, plain),
        Kind::Lit(lit) => is_listed(lit_class(decimal, lit), plain),
        Kind::End => is_listed(LAST, plain),
    }
}

/// Whether the next token is one of these words, or a token of these classes: operators of the last, all others of the second.
pub fn is_among(fix: &Fixities, words: &[u32], plain: &[u32], ops: &[u32], tokens: &[Token]) -> bool
    ensures { result ≡ head_is (grammar.among (settings fix.now) (grammar.firsts words.now plain.now ops.now)) (first tokens.now) }
{
    match tokens {
        [token, ..] => kind_among(fix, words, plain, ops, token.decimal, &token.kind),
        [] => false,
    }
}

fn kind_in(words: &[u32], classes: &[u32], decimal: bool, kind: &Kind) -> bool
    ensures { (others : List ℕ) → result ≡ grammar.kind_among grammar.plain_fix (grammar.firsts words.now classes.now others) decimal kind.now }
{
    match kind {
        Kind::Word(number) => is_listed(*number, words),
        Kind::Id(path) => is_listed(path_class(path.parts()), classes),
        Kind::Tyvar(_) => is_listed(TYVAR, classes),
        Kind::Lit(lit) => is_listed(lit_class(decimal, lit), classes),
        Kind::End => is_listed(LAST, classes),
    }
}

/// Whether the next token is one of these words, or of these classes, operators as all others.
pub fn is_in(words: &[u32], classes: &[u32], tokens: &[Token]) -> bool
    ensures { (others : List ℕ) → result ≡ head_is (grammar.tokens_of (grammar.firsts words.now classes.now others)) (first tokens.now) }
{
    match tokens {
        [token, ..] => kind_in(words, classes, token.decimal, &token.kind),
        [] => false,
    }
}
