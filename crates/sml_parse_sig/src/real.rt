ghost use Rattle.std.specs.Prelude.{◌≡◌, IfOk, true};
ghost use Rattle.readers.specs.Reader.{both, guard, mapped, skip, token_by};
ghost use Rattle.readers.specs.Forms.{growth};
ghost use Rattle.readers.specs.Given.{Gives};
ghost use Rattle.sml_grammar.specs.Words.{AND as FURTHER, EQUALS as BEFORE_TYPE, TYPE as OF_TYPES, WHERE as REALISES};
ghost use Rattle.sml_grammar.specs.Tokens as tokens_spec;
ghost use Rattle.sml_grammar.specs.Tokens.{is};
ghost use Rattle.sml_grammar.specs.ReadTypes.{ty_read};
ghost use Rattle.sml_grammar_sig.specs.ReadDescs as descs;
ghost use Rattle.sml_grammar_sig.specs.ReadSigs as read;
ghost use Rattle.sml_parse_sig.specs.Levels as levels;

use crate::first::begins_real;
use crate::name::Read;
use readers::{Code, ReadError, refusal};
use sml_ast::{LongIdent, Ty, Tyvars};
use sml_lex::Token;
use sml_parse_bind::{listed, under_one};
use sml_parse_ty::ty;
use sml_scan::{above, behind, is_next, long_tycon, place_of};
use std::alloc::Global;
use tl_text::Place;

const TYPE: u32 = 26;

const WHERE: u32 = 39;

const EQUALS: u32 = 53;

const AND: u32 = 56;

/// The type that a `where` makes equal to another one, and the height of the node that does so.
pub type Real = ((Tyvars, LongIdent, Ty), u32);

/// Such a type behind its `where`, whose place is given, or behind a further `and`.
pub type Suffix = (Option<Place>, Real);

/// `A.t = u`
fn named(alloc: Global, room: u32, tokens: &[Token]) -> Read<'_, (LongIdent, (Ty, u32))>
    ensures { Gives (λ x. (x.0, x.1.now)) result (both (token_by tokens_spec.long_tycon) (skip (is BEFORE_TYPE) (ty_read room)) tokens.now) }
{
    let (name, rest) = long_tycon(alloc, tokens)?;
    let rest = behind(EQUALS, rest)?;
    let (ty, rest) = ty(alloc, room, rest)?;
    Ok(((name, ty), rest))
}

/// `'a A.t = u`, in two parts.
fn parts(alloc: Global, room: u32, tokens: &[Token]) -> Read<'_, Real>
    ensures { Gives (λ x. (x.0, x.1.now)) result (levels.real_parts room tokens.now) }
{
    let (vars, rest) = under_one(alloc, tokens)?;
    let ((name, ty), rest) = named(alloc, room, rest)?;
    let height = above(ty.1, 0)?;
    Ok((((listed(alloc, vars), name, ty.0), height), rest))
}

/// `'a A.t = u`, where the type may have this height.
fn level(alloc: Global, room: u32, tokens: &[Token]) -> Read<'_, Real>
    ensures { Gives (λ x. (x.0, x.1.now)) result (descs.real_bind_level (ty_read room) room tokens.now) }
{
    if !begins_real(tokens) {
        return Err(ReadError::Refused(Code::Grammar, tokens));
    }
    if room < 1 {
        return Err(ReadError::Refused(Code::Depth, tokens));
    }
    parts(alloc, room, tokens)
}

/// `'a A.t = u`, of at most this height.
#[tactic(auto, unfolding(sml_grammar_sig::specs::ReadDescs::real_bind_read))]
fn real_bind(alloc: Global, room: u32, tokens: &[Token]) -> Read<'_, Real>
    ensures { Gives (λ x. (x.0, x.1.now)) result (descs.real_bind_read room tokens.now) }
{
    if room == 0 {
        return Err(ReadError::Refused(refusal(begins_real(tokens)), tokens));
    }
    level(alloc, room - 1, tokens)
}

/// `where type 'a A.t = u`, behind a signature that needs this room.
///
/// # Errors
/// Grammar, Depth at the first token with which no signature goes on. NoMemory where none is left.
pub fn where_type(alloc: Global, needed: u32, room: u32, tokens: &[Token]) -> Read<'_, Suffix>
    ensures { Gives (λ x. (x.0, x.1.now)) result (guard (growth (is REALISES) true needed room) (read.where_read (descs.real_bind_read room)) tokens.now) }
{
    if !is_next(WHERE, tokens) {
        return Err(ReadError::Refused(Code::Grammar, tokens));
    }
    if room < needed {
        return Err(ReadError::Refused(Code::Depth, tokens));
    }
    let (place, rest) = place_of(WHERE, tokens)?;
    let rest = behind(TYPE, rest)?;
    let (real, rest) = real_bind(alloc, room, rest)?;
    Ok(((Some(place), real), rest))
}

/// `type 'a A.t = u` behind `and`, behind a signature that needs this room.
///
/// # Errors
/// Grammar, Depth at the first token with which no signature goes on. NoMemory where none is left.
pub fn further_type(alloc: Global, needed: u32, room: u32, tokens: &[Token]) -> Read<'_, Suffix>
    ensures { Gives (λ x. (x.0, x.1.now)) result (mapped read.at_and (guard (growth (is OF_TYPES) true needed room) (skip (is OF_TYPES) (descs.real_bind_read room))) tokens.now) }
{
    if !is_next(TYPE, tokens) {
        return Err(ReadError::Refused(Code::Grammar, tokens));
    }
    if room < needed {
        return Err(ReadError::Refused(Code::Depth, tokens));
    }
    let rest = behind(TYPE, tokens)?;
    let (real, rest) = real_bind(alloc, room, rest)?;
    Ok(((None, real), rest))
}

/// `and type 'a A.t = u`, behind a signature that needs this room.
fn and_type(alloc: Global, needed: u32, room: u32, tokens: &[Token]) -> Read<'_, Suffix>
    ensures { Gives (λ x. (x.0, x.1.now)) result (guard (growth (is FURTHER) true needed room) (read.and_read (descs.real_bind_read room)) tokens.now) }
{
    if !is_next(AND, tokens) {
        return Err(ReadError::Refused(Code::Grammar, tokens));
    }
    if room < needed {
        return Err(ReadError::Refused(Code::Depth, tokens));
    }
    let rest = behind(AND, tokens)?;
    let rest = behind(TYPE, rest)?;
    let (real, rest) = real_bind(alloc, room, rest)?;
    Ok(((None, real), rest))
}

/// A type behind a signature, which ends with `where` or not.
pub fn suffix(
    alloc: Global,
    realised: bool,
    needed: u32,
    room: u32,
    tokens: &[Token],
) -> Read<'_, Suffix>
    ensures { Gives (λ x. (x.0, x.1.now)) result (read.suffix_by realised (descs.real_bind_read room) needed room tokens.now) }
{
    if realised && is_next(AND, tokens) {
        return and_type(alloc, needed, room, tokens);
    }
    where_type(alloc, needed, room, tokens)
}
