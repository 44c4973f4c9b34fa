ghost use Rattle.std.specs.Prelude.{◌≡◌, Some};
ghost use Rattle.readers.specs.Reader.{mapped};
ghost use Rattle.readers.specs.Forms.{ended, optional, seps};
ghost use Rattle.readers.specs.Given.{Gives};
ghost use Rattle.sml_fix.specs.Fixities.{settings};
ghost use Rattle.sml_grammar.specs.Words.{AND as SEPARATES};
ghost use Rattle.sml_grammar.specs.Tokens.{is, tokens_of};
ghost use Rattle.sml_grammar.specs.ReadTypes.{ty_read};
ghost use Rattle.sml_grammar_exp.specs.Binds as grammar;
ghost use Rattle.sml_grammar_exp.specs.Decs as decs;
ghost use Rattle.sml_grammar_exp.specs.ReadBinds as read;
ghost use Rattle.sml_grammar_exp.specs.ReadDecs as read_decs;
ghost use Rattle.sml_parse_bind.specs.Levels as levels;
ghost use Rattle.sml_parse_bind.specs.Rows as rows;

use crate::constructor::op_name;
use crate::first::{begins_vid, goes_in_exn, goes_on};
use crate::name::Read;
use crate::option::higher;
use readers::{Code, ReadError, refusal};
use sml_ast::{Dec, ExBind, Ident};
use sml_fix::Fixities;
use sml_lex::Token;
use sml_parse_pat::name;
use sml_parse_ty::ty;
use sml_scan::{above, behind, is_next};
use std::alloc::Global;
use tl_text::{List, Place};

const OF: u32 = 19;

const EQUALS: u32 = 53;

const AND: u32 = 56;

/// `= F`, `= op F`, behind the name of an exception.
fn same<'a>(
    alloc: Global,
    fix: &Fixities,
    made: (Place, bool, Ident),
    tokens: &'a [Token],
) -> Read<'a, (ExBind, u32)>
    ensures { Gives (λ x. (x.0, x.1.now)) result (mapped (λ n. grammar.exbind_of (made, Some (grammar.Given.Same n))) (levels.same (settings fix.now)) tokens.now) }
{
    let rest = behind(EQUALS, tokens)?;
    let (old, rest) = name(alloc, fix, rest)?;
    Ok((
        (ExBind::SameExn(made.0, made.1, made.2, old.1, old.2), 1),
        rest,
    ))
}

/// `of t`, behind the name of an exception.
fn with_argument(
    alloc: Global,
    room: u32,
    made: (Place, bool, Ident),
    tokens: &[Token],
) -> Read<'_, (ExBind, u32)>
    ensures { Gives (λ x. (x.0, x.1.now)) result (mapped (λ t. grammar.exbind_of (made, Some (grammar.Given.Of t))) (levels.argument room) tokens.now) }
{
    let rest = behind(OF, tokens)?;
    let (ty, rest) = ty(alloc, room, rest)?;
    let height = above(ty.1, 0)?;
    Ok((
        (ExBind::NewExn(made.0, made.1, made.2, Some(ty.0)), height),
        rest,
    ))
}

/// Behind the name of an exception: its argument, or the exception that it is.
fn given<'a>(
    alloc: Global,
    room: u32,
    fix: &Fixities,
    made: (Place, bool, Ident),
    tokens: &'a [Token],
) -> Read<'a, (ExBind, u32)>
    ensures { Gives (λ x. (x.0, x.1.now)) result (mapped (λ g. grammar.exbind_of (made, g)) (optional read.begins_given (read.given_read (settings fix.now) (ty_read room) room)) tokens.now) }
{
    if is_next(EQUALS, tokens) {
        return same(alloc, fix, made, tokens);
    }
    if !is_next(OF, tokens) {
        return Ok(((ExBind::NewExn(made.0, made.1, made.2, None), 1), tokens));
    }
    if room < 1 {
        return Err(ReadError::Refused(Code::Depth, tokens));
    }
    with_argument(alloc, room, made, tokens)
}

fn open_level<'a>(
    alloc: Global,
    room: u32,
    fix: &Fixities,
    tokens: &'a [Token],
) -> Read<'a, (ExBind, u32)>
    ensures { Gives (λ x. (x.0, x.1.now)) result (levels.open_exbind (settings fix.now) room tokens.now) }
{
    let (made, rest) = op_name(alloc, fix, tokens)?;
    given(alloc, room, fix, made, rest)
}

fn level<'a>(
    alloc: Global,
    room: u32,
    fix: &Fixities,
    tokens: &'a [Token],
) -> Read<'a, (ExBind, u32)>
    ensures { Gives (λ x. (x.0, x.1.now)) result (read.exbind_level (settings fix.now) (ty_read room) room tokens.now) }
{
    let (made, rest) = open_level(alloc, room, fix, tokens)?;
    if goes_in_exn(rest) {
        return Err(ReadError::Refused(Code::Grammar, rest));
    }
    Ok((made, rest))
}

/// `E of t`, `E = F`, of at most this height.
#[tactic(auto, unfolding(sml_grammar_exp::specs::ReadBinds::exbind_read))]
fn exbind<'a>(
    alloc: Global,
    room: u32,
    fix: &Fixities,
    tokens: &'a [Token],
) -> Read<'a, (ExBind, u32)>
    ensures { Gives (λ x. (x.0, x.1.now)) result (read.exbind_read room (settings fix.now) tokens.now) }
{
    if room == 0 {
        return Err(ReadError::Refused(refusal(begins_vid(fix, tokens)), tokens));
    }
    level(alloc, room - 1, fix, tokens)
}

/// One binding or more.
fn exbinds<'a>(
    alloc: Global,
    room: u32,
    fix: &Fixities,
    tokens: &'a [Token],
) -> Read<'a, (List<ExBind>, u32)>
    ensures { Gives (λ x. (x.0, x.1.now)) result (mapped rows.exbinds (seps (is SEPARATES) (read.exbind_read room (settings fix.now))) tokens.now) }
{
    let (first, mut rest) = exbind(alloc, room, fix, tokens)?;
    let mut found = List::new(alloc);
    let mut height = first.1;
    found.push(first.0)?;
    'items: while is_next(AND, rest) {
        let after = behind(AND, rest)?;
        let (other, after) = exbind(alloc, room, fix, after)?;
        height = higher(height, other.1);
        found.push(other.0)?;
        rest = after;
    }
    Ok(((found, height), rest))
}

/// Behind `exception`, whose place is given: `E of t and F = G`.
///
/// # Errors
/// Grammar, Depth at the first token with which no declaration goes on. NoMemory where none is left.
pub fn exceptions<'a>(
    alloc: Global,
    place: Place,
    room: u32,
    fix: &Fixities,
    tokens: &'a [Token],
) -> Read<'a, (Dec, u32)>
    ensures { Gives (λ x. (x.0, x.1.now)) result (mapped (λ x. decs.exns_of (place, x)) (ended (tokens_of read_decs.dec_goes) (seps (is SEPARATES) (read.exbind_read room (settings fix.now)))) tokens.now) }
{
    let ((found, height), rest) = exbinds(alloc, room, fix, tokens)?;
    if goes_on(rest) {
        return Err(ReadError::Refused(Code::Grammar, rest));
    }
    let height = above(height, 0)?;
    Ok(((Dec::Exns(place, found), height), rest))
}
