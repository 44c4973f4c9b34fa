ghost use Rattle.std.specs.Prelude.{◌≡◌};
ghost use Rattle.readers.specs.Reader.{both, mapped, row, skip, token_by};
ghost use Rattle.readers.specs.Forms.{maybe, seps};
ghost use Rattle.readers.specs.Given.{Gives};
ghost use Rattle.sml_grammar.specs.Words.{AND as SEPARATES, BAR as DIVIDES, EQUALS as BEFORE_CONS, OF as BEFORE_TYPE};
ghost use Rattle.sml_grammar.specs.Tokens as tokens_spec;
ghost use Rattle.sml_grammar.specs.Tokens.{is};
ghost use Rattle.sml_grammar.specs.ReadTypes.{ty_read};
ghost use Rattle.sml_grammar_sig.specs.Descs as grammar;
ghost use Rattle.sml_grammar_sig.specs.ReadDescs as read;
ghost use Rattle.sml_parse_sig.specs.Levels as levels;
ghost use Rattle.sml_parse_sig.specs.Rows as rows;

use crate::name::Read;
use readers::{Code, ReadError, refusal};
use sml_ast::{DatDesc, Ident, Ty, Tyvars};
use sml_lex::Token;
use sml_parse_bind::{
    any_vid, first_place, goes_in_con, higher, is_any_vid, listed, tycon, under_one,
};
use sml_parse_ty::ty;
use sml_scan::{above, behind, is_next};
use std::alloc::Global;
use tl_text::{List, Place};

const OF: u32 = 19;

const BAR: u32 = 52;

const EQUALS: u32 = 53;

const AND: u32 = 56;

/// A constructor or an exception, and the type of its argument.
pub type Con = (Ident, Option<Ty>);

/// `'a t`, in two parts.
fn named_parts(alloc: Global, tokens: &[Token]) -> Read<'_, (Tyvars, Ident)>
    ensures { Gives (λ x. (x.0, x.1.now)) result (levels.named_parts tokens.now) }
{
    let (vars, rest) = under_one(alloc, tokens)?;
    let (name, rest) = tycon(alloc, rest)?;
    Ok(((listed(alloc, vars), name), rest))
}

/// `'a t`
pub fn named(alloc: Global, tokens: &[Token]) -> Read<'_, (Tyvars, Ident)>
    ensures { Gives (λ x. (x.0, x.1.now)) result (read.named_read tokens.now) }
{
    named_parts(alloc, tokens)
}

/// `of t`, where it is next.
fn argument(alloc: Global, room: u32, tokens: &[Token]) -> Read<'_, Option<(Ty, u32)>>
    ensures { Gives (λ x. (x.0, x.1.now)) result (maybe (is BEFORE_TYPE) 1 (skip (is BEFORE_TYPE) (ty_read room)) room tokens.now) }
{
    if !is_next(OF, tokens) {
        return Ok((None, tokens));
    }
    if room < 1 {
        return Err(ReadError::Refused(Code::Depth, tokens));
    }
    let rest = behind(OF, tokens)?;
    let (ty, rest) = ty(alloc, room, rest)?;
    Ok((Some(ty), rest))
}

fn con_tree(name: Ident, arg: Option<(Ty, u32)>) -> (Con, u32)
    ensures { result ≡ grammar.con_of (name, arg) }
{
    match arg {
        None => ((name, None), 0),
        Some((ty, height)) => ((name, Some(ty)), height),
    }
}

/// `C of t`
pub fn con(alloc: Global, room: u32, tokens: &[Token]) -> Read<'_, (Con, u32)>
    ensures { Gives (λ x. (x.0, x.1.now)) result (read.con_read (ty_read room) room tokens.now) }
{
    let (name, rest) = any_vid(alloc, tokens)?;
    let (arg, rest) = argument(alloc, room, rest)?;
    if goes_in_con(rest) {
        return Err(ReadError::Refused(Code::Grammar, rest));
    }
    Ok((con_tree(name, arg), rest))
}

/// One constructor or one exception or more, with this word between.
pub fn cons(
    alloc: Global,
    separator: u32,
    room: u32,
    tokens: &[Token],
) -> Read<'_, (List<Con>, u32)>
    ensures { Gives (λ x. (x.0, x.1.now)) result (mapped rows.cons (seps (is separator) (read.con_read (ty_read room) room)) tokens.now) }
{
    let (first, mut rest) = con(alloc, room, tokens)?;
    let mut found = List::new(alloc);
    let mut height = first.1;
    found.push(first.0)?;
    'items: while is_next(separator, rest) {
        let after = behind(separator, rest)?;
        let (other, after) = con(alloc, room, after)?;
        height = higher(height, other.1);
        found.push(other.0)?;
        rest = after;
    }
    Ok(((found, height), rest))
}

/// The constructors of a datatype, with the height of the description that they stand in, which is at most this one.
#[tactic(auto, unfolding(sml_grammar_sig::specs::ReadDescs::cons_read))]
pub fn constructors(alloc: Global, room: u32, tokens: &[Token]) -> Read<'_, (List<Con>, u32)>
    ensures { Gives (λ x. (x.0, x.1.now)) result (read.cons_read room tokens.now) }
{
    if room == 0 {
        return Err(ReadError::Refused(refusal(is_any_vid(tokens)), tokens));
    }
    constructors_level(alloc, room - 1, tokens)
}

fn constructors_parts(alloc: Global, room: u32, tokens: &[Token]) -> Read<'_, (List<Con>, u32)>
    ensures { Gives (λ x. (x.0, x.1.now)) result (mapped rows.described (mapped rows.cons (seps (is DIVIDES) (read.con_read (ty_read room) room))) tokens.now) }
{
    let ((found, height), rest) = cons(alloc, BAR, room, tokens)?;
    let height = above(height, 0)?;
    Ok(((found, height), rest))
}

fn constructors_level(alloc: Global, room: u32, tokens: &[Token]) -> Read<'_, (List<Con>, u32)>
    ensures { Gives (λ x. (x.0, x.1.now)) result (read.cons_level (ty_read room) room tokens.now) }
{
    constructors_parts(alloc, room, tokens)
}

/// `'a t = C of u | D`, where the constructors have the height of the description.
pub fn desc_tree(
    alloc: Global,
    vars: Option<(Place, Tyvars)>,
    name: Ident,
    cons: (List<Con>, u32),
) -> (DatDesc, u32)
    ensures { result ≡ grammar.desc_of (vars, (name, cons)) }
{
    let place = first_place(&vars, name.0);
    (
        DatDesc::Desc(place, listed(alloc, vars), name, cons.0),
        cons.1,
    )
}

/// `t = C of u | D`
fn described(alloc: Global, room: u32, tokens: &[Token]) -> Read<'_, (Ident, (List<Con>, u32))>
    ensures { Gives (λ x. (x.0, x.1.now)) result (both (token_by tokens_spec.tycon) (skip (is BEFORE_CONS) (read.cons_read room)) tokens.now) }
{
    let (name, rest) = tycon(alloc, tokens)?;
    let rest = behind(EQUALS, rest)?;
    let (cons, rest) = constructors(alloc, room, rest)?;
    Ok(((name, cons), rest))
}

/// `'a t = C of u | D`, in two parts.
fn desc_parts(alloc: Global, room: u32, tokens: &[Token]) -> Read<'_, (DatDesc, u32)>
    ensures { Gives (λ x. (x.0, x.1.now)) result (levels.desc_parts room tokens.now) }
{
    let (vars, rest) = under_one(alloc, tokens)?;
    let ((name, cons), rest) = described(alloc, room, rest)?;
    Ok((desc_tree(alloc, vars, name, cons), rest))
}

/// `'a t = C of u | D`
fn desc(alloc: Global, room: u32, tokens: &[Token]) -> Read<'_, (DatDesc, u32)>
    ensures { Gives (λ x. (x.0, x.1.now)) result (read.desc_read (read.cons_read room) tokens.now) }
{
    desc_parts(alloc, room, tokens)
}

/// Further descriptions, each behind `and`.
pub fn more_descs(alloc: Global, room: u32, tokens: &[Token]) -> Read<'_, (List<DatDesc>, u32)>
    ensures { Gives (λ x. (x.0, x.1.now)) result (mapped rows.descs (row (is SEPARATES) (skip (is SEPARATES) (read.desc_read (read.cons_read room)))) tokens.now) }
{
    let mut found = List::new(alloc);
    let mut height = 0;
    let mut rest = tokens;
    'items: while is_next(AND, rest) {
        let after = behind(AND, rest)?;
        let (other, after) = desc(alloc, room, after)?;
        height = higher(height, other.1);
        found.push(other.0)?;
        rest = after;
    }
    Ok(((found, height), rest))
}
