ghost use Rattle.std.specs.Prelude.{◌≡◌};
ghost use Rattle.readers.specs.Reader.{both, mapped, skip, token_by};
ghost use Rattle.readers.specs.Forms.{ended, seps};
ghost use Rattle.readers.specs.Given.{Gives};
ghost use Rattle.sml_grammar.specs.Words.{AND as SEPARATES, EQUALS as BEFORE_TYPE};
ghost use Rattle.sml_grammar.specs.Tokens.{is, tokens_of};
ghost use Rattle.sml_grammar.specs.Tokens as tokens_spec;
ghost use Rattle.sml_grammar.specs.ReadTypes.{ty_read};
ghost use Rattle.sml_grammar_exp.specs.Decs as grammar;
ghost use Rattle.sml_grammar_exp.specs.ReadBinds as read;
ghost use Rattle.sml_grammar_exp.specs.ReadDecs as decs;
ghost use Rattle.sml_parse_bind.specs.Levels as levels;
ghost use Rattle.sml_parse_bind.specs.Rows as rows;

use crate::first::goes_on;
use crate::name::{Read, tycon};
use crate::option::{higher, listed};
use crate::vars::under_one;
use readers::{Code, ReadError};
use sml_ast::{Dec, Ident, Ty, TyBind};
use sml_lex::Token;
use sml_parse_ty::ty;
use sml_scan::{above, behind, is_next};
use std::alloc::Global;
use tl_text::{List, Place};

const WITHTYPE: u32 = 29;

const EQUALS: u32 = 53;

const AND: u32 = 56;

/// `t = u`
fn named(alloc: Global, room: u32, tokens: &[Token]) -> Read<'_, (Ident, (Ty, u32))>
    ensures { Gives (λ x. (x.0, x.1.now)) result (both (token_by tokens_spec.tycon) (skip (is BEFORE_TYPE) (ty_read room)) tokens.now) }
{
    let (name, rest) = tycon(alloc, tokens)?;
    let rest = behind(EQUALS, rest)?;
    let (ty, rest) = ty(alloc, room, rest)?;
    Ok(((name, ty), rest))
}

/// `'a t = u`, in two parts.
fn parts(alloc: Global, room: u32, tokens: &[Token]) -> Read<'_, (TyBind, u32)>
    ensures { Gives (λ x. (x.0, x.1.now)) result (levels.tybind_parts room tokens.now) }
{
    let (vars, rest) = under_one(alloc, tokens)?;
    let ((name, ty), rest) = named(alloc, room, rest)?;
    Ok((((listed(alloc, vars), name, ty.0), ty.1), rest))
}

/// `'a t = u`
pub fn tybind(alloc: Global, room: u32, tokens: &[Token]) -> Read<'_, (TyBind, u32)>
    ensures { Gives (λ x. (x.0, x.1.now)) result (read.tybind_read (ty_read room) tokens.now) }
{
    parts(alloc, room, tokens)
}

/// One binding or more.
pub fn tybinds(alloc: Global, room: u32, tokens: &[Token]) -> Read<'_, (List<TyBind>, u32)>
    ensures { Gives (λ x. (x.0, x.1.now)) result (mapped rows.tybinds (seps (is SEPARATES) (read.tybind_read (ty_read room))) tokens.now) }
{
    let (first, mut rest) = tybind(alloc, room, tokens)?;
    let mut found = List::new(alloc);
    let mut height = first.1;
    found.push(first.0)?;
    'items: while is_next(AND, rest) {
        let after = behind(AND, rest)?;
        let (other, after) = tybind(alloc, room, after)?;
        height = higher(height, other.1);
        found.push(other.0)?;
        rest = after;
    }
    Ok(((found, height), rest))
}

/// `withtype 'a t = u and v = w`, where it is next.
pub fn withtype(alloc: Global, room: u32, tokens: &[Token]) -> Read<'_, (List<TyBind>, u32)>
    ensures { Gives (λ x. (x.0, x.1.now)) result (mapped rows.with_types (decs.with_read (ty_read room) room) tokens.now) }
{
    if !is_next(WITHTYPE, tokens) {
        return Ok(((List::new(alloc), 0), tokens));
    }
    if room < 1 {
        return Err(ReadError::Refused(Code::Depth, tokens));
    }
    let rest = behind(WITHTYPE, tokens)?;
    tybinds(alloc, room, rest)
}

/// Behind `type`, whose place is given: `'a t = u and v = w`.
///
/// # Errors
/// Grammar, Depth at the first token with which no declaration goes on. NoMemory where none is left.
pub fn types(alloc: Global, place: Place, room: u32, tokens: &[Token]) -> Read<'_, (Dec, u32)>
    ensures { Gives (λ x. (x.0, x.1.now)) result (mapped (λ x. grammar.types_of (place, x)) (ended (tokens_of decs.dec_goes) (seps (is SEPARATES) (read.tybind_read (ty_read room)))) tokens.now) }
{
    let ((found, height), rest) = tybinds(alloc, room, tokens)?;
    if goes_on(rest) {
        return Err(ReadError::Refused(Code::Grammar, rest));
    }
    let height = above(height, 0)?;
    Ok(((Dec::Types(place, found), height), rest))
}
