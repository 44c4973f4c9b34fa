ghost use Rattle.std.specs.Prelude.{◌≡◌, IfOk};
ghost use Rattle.readers.specs.Reader.{mapped, skip, token_by};
ghost use Rattle.readers.specs.Forms.{ended};
ghost use Rattle.readers.specs.Given.{Gives};
ghost use Rattle.sml_grammar.specs.Words.{DATATYPE as COPIES};
ghost use Rattle.sml_grammar.specs.Tokens as tokens_spec;
ghost use Rattle.sml_grammar.specs.Tokens.{is, tokens_of};
ghost use Rattle.sml_grammar_sig.specs.ReadDescs as descs;
ghost use Rattle.sml_grammar_sig.specs.ReadSigs as read;
ghost use Rattle.sml_parse_sig.specs.Levels as levels;
ghost use Rattle.sml_parse_sig.specs.Rows as rows;

use crate::desc::{Con, constructors, desc_tree, more_descs};
use crate::first::goes_in_spec;
use crate::name::Read;
use readers::{Code, ReadError};
use sml_ast::{DatDesc, Ident, Spec, Tyvars};
use sml_lex::Token;
use sml_parse_bind::{begins_vars, higher, is_any_vid, is_tycon, tycon, variables};
use sml_scan::{above, behind, is_next, long_tycon};
use std::alloc::Global;
use tl_text::{List, NoMemory, Place};

const DATATYPE: u32 = 4;

const EQUALS: u32 = 53;

/// The constructors of a first description and the descriptions behind it, each with its height.
type Pieces = ((List<Con>, u32), (List<DatDesc>, u32));

/// `C of u | D and v = E`
fn parts(alloc: Global, room: u32, tokens: &[Token]) -> Read<'_, Pieces>
    ensures { Gives (λ x. (x.0, x.1.now)) result (mapped rows.pieces (descs.descs_read (descs.cons_read room)) tokens.now) }
{
    let (cons, rest) = constructors(alloc, room, tokens)?;
    let (others, rest) = more_descs(alloc, room, rest)?;
    Ok(((cons, others), rest))
}

/// The parts of a specification that ends behind them.
fn closed(alloc: Global, room: u32, tokens: &[Token]) -> Read<'_, Pieces>
    ensures { Gives (λ x. (x.0, x.1.now)) result (mapped rows.pieces (ended (tokens_of read.spec_goes) (descs.descs_read (descs.cons_read room))) tokens.now) }
{
    let (parts, rest) = parts(alloc, room, tokens)?;
    if goes_in_spec(rest) {
        return Err(ReadError::Refused(Code::Grammar, rest));
    }
    Ok((parts, rest))
}

/// The specification of these parts, whose first description has this name and these variables.
fn made(
    alloc: Global,
    place: Place,
    vars: Option<(Place, Tyvars)>,
    name: Ident,
    parts: Pieces,
) -> Result<(Spec, u32), NoMemory>
    ensures { IfOk result (λ x. x ≡ rows.datatypes place vars name parts) }
{
    let (cons, others) = parts;
    let first = desc_tree(alloc, vars, name, cons);
    let height = above(first.1, others.1)?;
    let mut all = others.0.into_vec();
    all.insert(0, first.0)?;
    Ok((Spec::DataSpec(place, List::from_vec(all)), height))
}

/// `datatype u`, behind `datatype t =`
fn copied(alloc: Global, place: Place, name: Ident, tokens: &[Token]) -> Read<'_, (Spec, u32)>
    ensures { Gives (λ x. (x.0, x.1.now)) result (mapped (λ c. read.data_of (place, descs.Data.Copied (name, c))) (ended (tokens_of read.spec_goes) (skip (is COPIES) (token_by tokens_spec.long_tycon))) tokens.now) }
{
    let rest = behind(DATATYPE, tokens)?;
    let (old, rest) = long_tycon(alloc, rest)?;
    if goes_in_spec(rest) {
        return Err(ReadError::Refused(Code::Grammar, rest));
    }
    Ok(((Spec::CopySpec(place, name, old), 1), rest))
}

/// Behind `datatype t =`.
fn right(
    alloc: Global,
    place: Place,
    room: u32,
    name: Ident,
    tokens: &[Token],
) -> Read<'_, (Spec, u32)>
    ensures { Gives (λ x. (x.0, x.1.now)) result (mapped (λ x. read.data_of (place, descs.right_of (name, x))) (levels.right room) tokens.now) }
{
    if is_next(DATATYPE, tokens) {
        return copied(alloc, place, name, tokens);
    }
    if !is_any_vid(tokens) {
        return Err(ReadError::Refused(Code::Grammar, tokens));
    }
    if room < 1 {
        return Err(ReadError::Refused(Code::Depth, tokens));
    }
    let (parts, rest) = closed(alloc, room, tokens)?;
    Ok((made(alloc, place, None, name, parts)?, rest))
}

/// Behind `datatype`, where type variables begin, in two parts.
fn under_parts(alloc: Global, place: Place, room: u32, tokens: &[Token]) -> Read<'_, (Spec, u32)>
    ensures { Gives (λ x. (x.0, x.1.now)) result (mapped (λ x. read.data_of (place, descs.vars_data x)) (levels.datatypes_parts room) tokens.now) }
{
    let (vars, rest) = variables(alloc, tokens)?;
    let (name, rest) = tycon(alloc, rest)?;
    let rest = behind(EQUALS, rest)?;
    let (parts, rest) = closed(alloc, room, rest)?;
    Ok((made(alloc, place, Some(vars), name, parts)?, rest))
}

/// Behind `datatype`, where type variables begin.
fn under(alloc: Global, place: Place, room: u32, tokens: &[Token]) -> Read<'_, (Spec, u32)>
    ensures { Gives (λ x. (x.0, x.1.now)) result (mapped (λ x. read.data_of (place, descs.vars_data x)) (levels.datatypes_under room) tokens.now) }
{
    under_parts(alloc, place, room, tokens)
}

/// Behind `datatype`, whose place is given: `t = datatype u`, `'a t = C of u | D and v = E`.
pub fn datatype(alloc: Global, place: Place, room: u32, tokens: &[Token]) -> Read<'_, (Spec, u32)>
    ensures { Gives (λ x. (x.0, x.1.now)) result (mapped (λ x. read.data_of (place, x)) (levels.datas room) tokens.now) }
{
    if is_tycon(tokens) {
        let (name, rest) = tycon(alloc, tokens)?;
        let rest = behind(EQUALS, rest)?;
        return right(alloc, place, room, name, rest);
    }
    if !begins_vars(tokens) {
        return Err(ReadError::Refused(Code::Grammar, tokens));
    }
    if room < 1 {
        return Err(ReadError::Refused(Code::Depth, tokens));
    }
    under(alloc, place, room, tokens)
}
