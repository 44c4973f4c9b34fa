ghost use Rattle.std.specs.Prelude.{◌≡◌, ◌+◌, ◌-◌, ◌<◌, ◌^◌, [], ◌∷◌, ◌++◌, List, length, Ok, Err, IfOk, IfErr};
ghost use Rattle.sml_lex.specs.declared.token.Token.{Token};
ghost use Rattle.sml_lex.specs.Texts.{is_plain_decimal, has_long_part, is_too_long, long_after, Lexes, Refuses, RefusesRightly, IsOrNoMemory, Finishes};
ghost use Rattle.tl_text.specs.declared.fault.Refusal.{Refusal};
ghost use Rattle.tl_text.specs.declared.fault.Fault.TheVariants.{Refused};

use crate::class::{Class, is_digit};
use crate::places::behind;
use crate::scanner::Scanner;
use crate::step::Step;
use crate::{Kind, Token, Tokens};
use std::alloc::Global;
use tl_text::{Code, Fault, List, Name, Place, Refusal};

/// The most bytes of one part of an identifier, and of a type variable.
const MOST_BYTES: usize = 255;

fn has_long_part(parts: &[Name]) -> bool
    ensures { result ≡ has_long_part parts.now }
{
    for part in parts {
        if part.bytes().len() > MOST_BYTES {
            return true;
        }
    }
    false
}

fn is_too_long(kind: &Kind) -> bool
    ensures { result ≡ is_too_long kind.now }
{
    match kind {
        Kind::Id(path) => has_long_part(path.parts()),
        Kind::Tyvar(name) => name.bytes().len() > MOST_BYTES,
        Kind::Word(_) => false,
        Kind::Lit(_) => false,
        Kind::End => false,
    }
}

/// The place of the first token that is too long, where one stands here.
fn first_long(long: Option<Place>, kind: &Kind, place: Place) -> Option<Place>
    ensures { result ≡ long_after long kind.now place }
{
    match long {
        Some(found) => Some(found),
        None => { if is_too_long(kind) { Some(place) } else { None } }
    }
}

/// Whether the run is decimal digits alone, the first of which is not 0 where there are several.
fn is_plain_decimal(run: &[u8]) -> bool
    ensures { result ≡ is_plain_decimal run.now }
{
    match run.first() {
        None => false,
        Some(first) => {
            let first = *first;
            let (_, rest) = run.split_at(1);
            is_digit(first) && Class::Digit.has_all(rest) && (first != b'0' || rest.is_empty())
        }
    }
}

fn token_of(kind: Kind, place: Place, run: &[u8]) -> Token
    requires { length run.now < 2 ^ 32 }
    ensures { result ≡ record { kind = kind; place = place; len = length run.now; decimal = is_plain_decimal run.now } }
{
    let decimal = is_plain_decimal(run);
    Token {
        kind,
        place,
        len: run.len() as u32,
        decimal,
    }
}

/// The tokens with `End` behind them, or the refusal of the first that is too long.
fn finish(tokens: Tokens, place: Place, long: Option<Place>) -> Result<Tokens, Fault>
    ensures { Finishes tokens place long result }
{
    if let Some(place) = long {
        return Err(Fault::Refused(Refusal {
            place,
            code: Code::NameLength,
        }));
    }
    let mut tokens = tokens;
    tokens.push(Token {
        kind: Kind::End,
        place,
        len: 0,
        decimal: false,
    })?;
    Ok(tokens)
}

/// The tokens of a source of this number.
///
/// A refusal has one of the codes BadToken, BadEscape, OpenComment, OpenString, LiteralRange and RealLiteral at the
/// first byte where no token begins, or NameLength at the first identifier with a part of more than 255 bytes in a
/// source that has tokens (the Definition, chapter 2). NoMemory where none is left.
pub fn lex(alloc: Global, source: u32, bytes: &[u8]) -> Result<Tokens, Fault>
    requires { length bytes.now < 2 ^ 32 - 1 }
    ensures accepted { IfOk result (λ ts. Lexes source bytes.now ts) }
    ensures refused { IfErr result (RefusesRightly source bytes.now) }
    ensures only_tokens { (ts : List Token) → Lexes source bytes.now ts → IsOrNoMemory result (Ok ts) }
    ensures only_refusal { (refusal : Refusal) → Refuses source bytes.now refusal → IsOrNoMemory result (Err (Refused refusal)) }
{
    let scanner = Scanner::new(alloc);
    let mut tokens = List::new(alloc);
    let mut long: Option<Place> = None;
    let mut place = Place {
        source,
        line: 1,
        col: 1,
        byte: 0,
    };
    let mut rest = bytes;
    loop {
        match scanner.step(rest)? {
            Step::Done => return finish(tokens, place, long),
            Step::Skip(n) => {
                let (run, next) = rest.split_at(n);
                place = behind(place, run);
                rest = next;
            }
            Step::Fail(n, code) => {
                let (run, _) = rest.split_at(n);
                let place = behind(place, run);
                return Err(Fault::Refused(Refusal { place, code }));
            }
            Step::Take(kind, n) => {
                let (run, next) = rest.split_at(n);
                long = first_long(long, &kind, place);
                tokens.push(token_of(kind, place, run))?;
                place = behind(place, run);
                rest = next;
            }
        }
    }
}
