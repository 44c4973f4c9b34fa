ghost use Rattle.std.specs.Prelude.{◌≡◌, IfOk};
ghost use Rattle.readers.specs.Reader.{mapped, skip, token_by};
ghost use Rattle.readers.specs.Forms.{ended};
ghost use Rattle.readers.specs.Given.{Gives};
ghost use Rattle.sml_fix.specs.Fixities.{settings};
ghost use Rattle.sml_grammar.specs.Words.{DATATYPE as COPIES};
ghost use Rattle.sml_grammar.specs.Tokens as tokens_spec;
ghost use Rattle.sml_grammar.specs.Tokens.{is, tokens_of};
ghost use Rattle.sml_grammar.specs.ReadTypes.{ty_read};
ghost use Rattle.sml_grammar_exp.specs.Decs as grammar;
ghost use Rattle.sml_grammar_exp.specs.ReadBinds as binds_read;
ghost use Rattle.sml_grammar_exp.specs.ReadDecs as read;
ghost use Rattle.sml_parse_bind.specs.Levels as levels;
ghost use Rattle.sml_parse_bind.specs.Rows as rows;

use crate::constructor::{Con, constructors};
use crate::datbind::{Datatypes, datbind_tree, more_datbinds};
use crate::first::{begins_vars, begins_vid, goes_on};
use crate::name::{Read, is_tycon, tycon};
use crate::option::higher;
use crate::type_bind::withtype;
use crate::vars::variables;
use readers::{Code, ReadError};
use sml_ast::{DatBind, Dec, Ident, TyBind, Tyvars};
use sml_fix::Fixities;
use sml_lex::Token;
use sml_scan::{above, behind, is_next, long_tycon};
use std::alloc::Global;
use tl_text::{List, NoMemory, Place};

const DATATYPE: u32 = 4;

const EQUALS: u32 = 53;

/// The constructors of a first binding, the bindings behind it and those of `withtype`, each with its height.
type Pieces = ((List<Con>, u32), (List<DatBind>, u32), (List<TyBind>, u32));

/// `C of u | D and v = E withtype w = x`
fn parts<'a>(alloc: Global, room: u32, fix: &Fixities, tokens: &'a [Token]) -> Read<'a, Pieces>
    ensures { Gives (λ x. (x.0, x.1.now)) result (mapped rows.parts (read.binds_read (binds_read.cons_read room (settings fix.now)) (ty_read room) room) tokens.now) }
{
    let (cons, rest) = constructors(alloc, room, fix, tokens)?;
    let (others, rest) = more_datbinds(alloc, room, fix, rest)?;
    let (types, rest) = withtype(alloc, room, rest)?;
    Ok(((cons, others, types), rest))
}

/// A list from its first item and the others.
fn with_first(
    alloc: Global,
    first: DatBind,
    others: List<DatBind>,
) -> Result<List<DatBind>, NoMemory>
    ensures { IfOk result (λ x. x ≡ rows.with_first first others) }
{
    let mut all = List::new(alloc);
    all.push(first)?;
    for other in others.into_vec() {
        all.push(other)?;
    }
    Ok(all)
}

/// The declaration of these parts, whose first binding has this name and these variables.
fn made(
    alloc: Global,
    place: Place,
    vars: Option<(Place, Tyvars)>,
    name: Ident,
    parts: Pieces,
) -> Result<(Dec, u32), NoMemory>
    ensures { IfOk result (λ x. x ≡ rows.datatypes place vars name parts) }
{
    let (cons, others, types) = parts;
    let first = datbind_tree(alloc, vars, name, cons);
    let height = above(higher(first.1, others.1), types.1)?;
    let all = with_first(alloc, first.0, others.0)?;
    Ok((Dec::Datas(place, all, types.0), height))
}

/// The parts of a declaration that ends behind them.
fn closed<'a>(alloc: Global, room: u32, fix: &Fixities, tokens: &'a [Token]) -> Read<'a, Pieces>
    ensures { Gives (λ x. (x.0, x.1.now)) result (mapped rows.parts (ended (tokens_of read.dec_goes) (read.binds_read (binds_read.cons_read room (settings fix.now)) (ty_read room) room)) tokens.now) }
{
    let (parts, rest) = parts(alloc, room, fix, tokens)?;
    if goes_on(rest) {
        return Err(ReadError::Refused(Code::Grammar, rest));
    }
    Ok((parts, rest))
}

/// `datatype u`, behind `datatype t =`
fn copied(alloc: Global, place: Place, name: Ident, tokens: &[Token]) -> Read<'_, (Dec, u32)>
    ensures { Gives (λ x. (x.0, x.1.now)) result (mapped (λ c. grammar.data_of (place, grammar.Data.Copied (name, c))) (ended (tokens_of read.dec_goes) (skip (is COPIES) (token_by tokens_spec.long_tycon))) tokens.now) }
{
    let rest = behind(DATATYPE, tokens)?;
    let (old, rest) = long_tycon(alloc, rest)?;
    if goes_on(rest) {
        return Err(ReadError::Refused(Code::Grammar, rest));
    }
    Ok(((Dec::Copy(place, name, old), 1), rest))
}

/// Behind `datatype t =`.
fn right<'a>(
    alloc: Global,
    place: Place,
    room: u32,
    fix: &Fixities,
    name: Ident,
    tokens: &'a [Token],
) -> Read<'a, (Dec, u32)>
    ensures { Gives (λ x. (x.0, x.1.now)) result (mapped (λ x. grammar.data_of (place, grammar.right_of (name, x))) (levels.right (settings fix.now) room) tokens.now) }
{
    if is_next(DATATYPE, tokens) {
        return copied(alloc, place, name, tokens);
    }
    if !begins_vid(fix, tokens) {
        return Err(ReadError::Refused(Code::Grammar, tokens));
    }
    if room < 1 {
        return Err(ReadError::Refused(Code::Depth, tokens));
    }
    let (parts, rest) = closed(alloc, room, fix, tokens)?;
    Ok((made(alloc, place, None, name, parts)?, rest))
}

/// Behind `datatype`, where type variables begin.
fn under<'a>(
    alloc: Global,
    place: Place,
    room: u32,
    fix: &Fixities,
    tokens: &'a [Token],
) -> Read<'a, (Dec, u32)>
    ensures { Gives (λ x. (x.0, x.1.now)) result (mapped (λ x. grammar.data_of (place, grammar.vars_data x)) (levels.datatypes_under (settings fix.now) room) tokens.now) }
{
    let (vars, rest) = variables(alloc, tokens)?;
    let (name, rest) = tycon(alloc, rest)?;
    let rest = behind(EQUALS, rest)?;
    let (parts, rest) = closed(alloc, room, fix, rest)?;
    Ok((made(alloc, place, Some(vars), name, parts)?, rest))
}

/// Behind `datatype`, whose place is given: `t = datatype u`, `'a t = C of u | D and v = E withtype w = x`.
///
/// # Errors
/// Grammar, Depth at the first token with which no declaration goes on. NoMemory where none is left.
pub fn datatype<'a>(
    alloc: Global,
    place: Place,
    room: u32,
    fix: &Fixities,
    tokens: &'a [Token],
) -> Read<'a, (Dec, u32)>
    ensures { Gives (λ x. (x.0, x.1.now)) result (mapped (λ x. grammar.data_of (place, x)) (levels.datas (settings fix.now) room) tokens.now) }
{
    if is_tycon(tokens) {
        let (name, rest) = tycon(alloc, tokens)?;
        let rest = behind(EQUALS, rest)?;
        return right(alloc, place, room, fix, name, rest);
    }
    if !begins_vars(tokens) {
        return Err(ReadError::Refused(Code::Grammar, tokens));
    }
    if room < 1 {
        return Err(ReadError::Refused(Code::Depth, tokens));
    }
    under(alloc, place, room, fix, tokens)
}
