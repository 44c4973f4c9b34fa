ghost use Rattle.std.specs.Prelude.{◌≡◌};
ghost use Rattle.readers.specs.Reader.{first, head_is, mapped};
ghost use Rattle.readers.specs.Given.{Gives};
ghost use Rattle.sml_grammar_mod.specs.ReadStrs as read;
ghost use Rattle.sml_grammar_sig.specs.Sigs as sigs;
ghost use Rattle.sml_parse_mod.specs.Follows as follows;
ghost use Rattle.sml_parse_mod.specs.Levels as levels;
ghost use Rattle.sml_parse_mod.specs.Trees as trees;

use crate::first::begins_ascribe;
use crate::growing::{Grow, Growing, Seal, extended, least};
use crate::inside::Read;
use readers::{Code, ReadError, refusal};
use sml_ast::SigExp;
use sml_lex::Token;
use sml_parse_sig::{
    Suffix, ends_with_where, further_type, goes_on, head, is_strid, needed, suffix, where_type,
};
use sml_scan::{behind, is_next, place_of};
use std::alloc::Global;

const TYPE: u32 = 26;

const WHERE: u32 = 39;

const COLON: u32 = 47;

const SEAL: u32 = 48;

const AND: u32 = 56;

/// What follows a binding: what its structure expression goes on with, or, behind `and`, the next binding.
#[derive(Drop)]
pub enum Turn {
    More(Grow),
    Next,
}

/// An ascription whose types are still to come, where the signature may have this height.
fn seal_level(alloc: Global, room: u32, tokens: &[Token]) -> Read<'_, Seal>
    ensures { Gives (λ x. (trees.seal x.0, x.1.now)) result (levels.seal_level room tokens.now) }
{
    let opaque = !is_next(COLON, tokens);
    let word = if opaque { SEAL } else { COLON };
    let (place, rest) = place_of(word, tokens)?;
    let (sig, rest) = head(alloc, room, rest)?;
    Ok((Seal { opaque, place, sig }, rest))
}

/// An ascription behind a structure expression.
pub fn seal<'a>(alloc: Global, room: u32, growing: &Growing, tokens: &'a [Token]) -> Read<'a, Seal>
    ensures { Gives (λ x. (trees.seal x.0, x.1.now)) result (levels.seals room (trees.growing growing.now) tokens.now) }
{
    let least = least(growing)?;
    if !begins_ascribe(tokens) {
        return Err(ReadError::Refused(Code::Grammar, tokens));
    }
    if room < least || room < 3 {
        return Err(ReadError::Refused(Code::Depth, tokens));
    }
    seal_level(alloc, room - 2, tokens)
}

/// Whether a token is next with which a signature goes on that ends with `where` or not.
fn begins_type(realised: bool, tokens: &[Token]) -> bool
    ensures { result ≡ head_is (read.suffix_begins realised) (first tokens.now) }
{
    if realised {
        goes_on(tokens)
    } else {
        is_next(WHERE, tokens)
    }
}

/// A type for the last ascription, where no `and` of a row may follow.
fn type_of_last<'a>(
    alloc: Global,
    room: u32,
    sig: &(SigExp, u32),
    tokens: &'a [Token],
) -> Read<'a, Suffix>
    ensures { Gives (λ x. (x.0, x.1.now)) result (read.types_read room sig.now tokens.now) }
{
    let realised = ends_with_where(&sig.0);
    if room < 2 {
        return Err(ReadError::Refused(refusal(begins_type(realised, tokens)), tokens));
    }
    suffix(alloc, realised, needed(sig.1)?, room - 2, tokens)
}

/// What a structure expression goes on with, where no `and` of a row may follow.
pub fn grow<'a>(alloc: Global, room: u32, growing: &Growing, tokens: &'a [Token]) -> Read<'a, Grow>
    ensures { Gives (λ x. (trees.grow x.0, x.1.now)) result (read.grow_read room (trees.growing growing.now) tokens.now) }
{
    if let Growing::Sealed(_, last) = growing {
        if !begins_ascribe(tokens) {
            let (found, rest) = type_of_last(alloc, room, &last.sig, tokens)?;
            return Ok((Grow::Types(found), rest));
        }
    }
    let (found, rest) = seal(alloc, room, growing, tokens)?;
    Ok((Grow::Seals(found), rest))
}

/// A further type behind `and`, for the last ascription.
fn more<'a>(alloc: Global, room: u32, sig: &(SigExp, u32), tokens: &'a [Token]) -> Read<'a, Turn>
    ensures { Gives (λ x. (trees.turn x.0, x.1.now)) result (levels.more room sig.now tokens.now) }
{
    if room < 2 {
        return Err(ReadError::Refused(refusal(is_next(TYPE, tokens)), tokens));
    }
    let (found, rest) = further_type(alloc, needed(sig.1)?, room - 2, tokens)?;
    Ok((Turn::More(Grow::Types(found)), rest))
}

/// A type with its `where`, for the last ascription.
fn there<'a>(alloc: Global, room: u32, sig: &(SigExp, u32), tokens: &'a [Token]) -> Read<'a, Turn>
    ensures { Gives (λ x. (trees.turn x.0, x.1.now)) result (levels.there room sig.now tokens.now) }
{
    if room < 2 {
        return Err(ReadError::Refused(refusal(is_next(WHERE, tokens)), tokens));
    }
    let (found, rest) = where_type(alloc, needed(sig.1)?, room - 2, tokens)?;
    Ok((Turn::More(Grow::Types(found)), rest))
}

/// What follows a binding that ends with this signature.
fn behind_signature<'a>(
    alloc: Global,
    room: u32,
    sig: &(SigExp, u32),
    tokens: &'a [Token],
) -> Read<'a, Turn>
    ensures { Gives (λ x. (trees.turn x.0, x.1.now)) result (levels.behind_signature room sig.now tokens.now) }
{
    if !is_next(AND, tokens) {
        return there(alloc, room, sig, tokens);
    }
    let rest = behind(AND, tokens)?;
    if ends_with_where(&sig.0) && !is_strid(rest) {
        return more(alloc, room, sig, rest);
    }
    Ok((Turn::Next, rest))
}

/// What follows a binding with this structure expression.
pub fn next_turn<'a>(
    alloc: Global,
    room: u32,
    growing: &Growing,
    tokens: &'a [Token],
) -> Read<'a, Turn>
    ensures { Gives (λ x. (trees.turn x.0, x.1.now)) result (levels.turn room (trees.growing growing.now) tokens.now) }
{
    if begins_ascribe(tokens) {
        let (found, rest) = seal(alloc, room, growing, tokens)?;
        return Ok((Turn::More(Grow::Seals(found)), rest));
    }
    match growing {
        Growing::Whole(_) => {
            let rest = behind(AND, tokens)?;
            Ok((Turn::Next, rest))
        }
        Growing::Sealed(_, last) => behind_signature(alloc, room, &last.sig, tokens),
    }
}

/// Behind this binding: whether it goes on, and the binding then. Where it is done, another one follows.
pub fn turned<'a, F: Drop>(
    alloc: Global,
    last: (F, Growing),
    room: u32,
    tokens: &'a [Token],
) -> Read<'a, (bool, (F, Growing))>
    ensures { Gives (λ x. (trees.judged x.0, x.1.now)) result (mapped (trees.goes_on (trees.bind last)) (levels.turn room (trees.growing last.1)) tokens.now) }
{
    let (turn, rest) = next_turn(alloc, room, &last.1, tokens)?;
    match turn {
        Turn::More(more) => Ok(((true, extended(alloc, last, more)?), rest)),
        Turn::Next => Ok(((false, last), rest)),
    }
}

/// What is done, with what was read behind it.
pub fn after<'a, S: Drop, N: Drop>(done: S, next: Read<'a, N>) -> Read<'a, (Option<S>, N)>
    ensures { result ≡ follows.after done next.entry }
{
    match next {
        Ok((next, rest)) => Ok(((Some(done), next), rest)),
        Err(error) => Err(error),
    }
}
