ghost use Rattle.std.specs.Prelude.{◌≡◌, IfOk};
ghost use Rattle.readers.specs.Reader.{mapped, skip};
ghost use Rattle.readers.specs.Forms.{maybe, seps};
ghost use Rattle.readers.specs.Given.{Gives};
ghost use Rattle.sml_fix.specs.Fixities.{settings};
ghost use Rattle.sml_grammar.specs.Words.{BAR as SEPARATES, OF as BEFORE_TYPE};
ghost use Rattle.sml_grammar.specs.Tokens.{is};
ghost use Rattle.sml_grammar.specs.ReadTypes.{ty_read};
ghost use Rattle.sml_grammar_exp.specs.Binds as grammar;
ghost use Rattle.sml_grammar_exp.specs.ReadBinds as read;
ghost use Rattle.sml_parse_bind.specs.Rows as rows;

use crate::first::{begins_vid, goes_in_con};
use crate::name::{Read, op_vid, vid};
use crate::option::higher;
use readers::{Code, ReadError, refusal};
use sml_ast::{Ident, Ty};
use sml_fix::Fixities;
use sml_lex::Token;
use sml_parse_ty::ty;
use sml_scan::{above, behind, is_next, place_of};
use std::alloc::Global;
use tl_text::{List, Place};

const OF: u32 = 19;

const OP: u32 = 20;

const BAR: u32 = 52;

/// A constructor: whether `op` is before it, its name, and the type of its argument.
pub type Con = (bool, Ident, Option<Ty>);

/// `x`, `op x`: the place of the first token, whether `op` is there, and the identifier.
pub fn op_name<'a>(
    alloc: Global,
    fix: &Fixities,
    tokens: &'a [Token],
) -> Read<'a, (Place, bool, Ident)>
    ensures { Gives (λ x. (x.0, x.1.now)) result (read.vid_read (settings fix.now) tokens.now) }
{
    if is_next(OP, tokens) {
        let (place, rest) = place_of(OP, tokens)?;
        let (name, rest) = op_vid(alloc, rest)?;
        return Ok(((place, true, name), rest));
    }
    let (name, rest) = vid(alloc, fix, tokens)?;
    Ok(((name.0, false, name), rest))
}

/// `of t`, where it is next.
fn argument(alloc: Global, room: u32, tokens: &[Token]) -> Read<'_, Option<(Ty, u32)>>
    ensures { Gives (λ x. (x.0, x.1.now)) result (maybe (is BEFORE_TYPE) 1 (skip (is BEFORE_TYPE) (ty_read room)) room tokens.now) }
{
    if !is_next(OF, tokens) {
        return Ok((None, tokens));
    }
    if room < 1 {
        return Err(ReadError::Refused(Code::Depth, tokens));
    }
    let rest = behind(OF, tokens)?;
    let (ty, rest) = ty(alloc, room, rest)?;
    Ok((Some(ty), rest))
}

fn con_tree(name: (Place, bool, Ident), arg: Option<(Ty, u32)>) -> (Con, u32)
    ensures { result ≡ grammar.con_of (name, arg) }
{
    match arg {
        None => ((name.1, name.2, None), 0),
        Some((ty, height)) => ((name.1, name.2, Some(ty)), height),
    }
}

/// `C of t`
fn constructor<'a>(
    alloc: Global,
    room: u32,
    fix: &Fixities,
    tokens: &'a [Token],
) -> Read<'a, (Con, u32)>
    ensures { Gives (λ x. (x.0, x.1.now)) result (read.con_read (settings fix.now) (ty_read room) room tokens.now) }
{
    let (name, rest) = op_name(alloc, fix, tokens)?;
    let (arg, rest) = argument(alloc, room, rest)?;
    if goes_in_con(rest) {
        return Err(ReadError::Refused(Code::Grammar, rest));
    }
    Ok((con_tree(name, arg), rest))
}

/// One constructor or more, with bars between.
fn rows<'a>(
    alloc: Global,
    room: u32,
    fix: &Fixities,
    tokens: &'a [Token],
) -> Read<'a, (List<Con>, u32)>
    ensures { Gives (λ x. (x.0, x.1.now)) result (mapped rows.cons (seps (is SEPARATES) (read.con_read (settings fix.now) (ty_read room) room)) tokens.now) }
{
    let (first, mut rest) = constructor(alloc, room, fix, tokens)?;
    let mut found = List::new(alloc);
    let mut height = first.1;
    found.push(first.0)?;
    'items: while is_next(BAR, rest) {
        let after = behind(BAR, rest)?;
        let (other, after) = constructor(alloc, room, fix, after)?;
        height = higher(height, other.1);
        found.push(other.0)?;
        rest = after;
    }
    Ok(((found, height), rest))
}

fn level<'a>(
    alloc: Global,
    room: u32,
    fix: &Fixities,
    tokens: &'a [Token],
) -> Read<'a, (List<Con>, u32)>
    ensures { Gives (λ x. (x.0, x.1.now)) result (read.cons_level (settings fix.now) (ty_read room) room tokens.now) }
{
    let ((found, height), rest) = rows(alloc, room, fix, tokens)?;
    let height = above(height, 0)?;
    Ok(((found, height), rest))
}

/// The constructors of a datatype, with the height of the binding that they stand in, which is at most this one.
#[tactic(auto, unfolding(sml_grammar_exp::specs::ReadBinds::cons_read))]
pub fn constructors<'a>(
    alloc: Global,
    room: u32,
    fix: &Fixities,
    tokens: &'a [Token],
) -> Read<'a, (List<Con>, u32)>
    ensures { Gives (λ x. (x.0, x.1.now)) result (read.cons_read room (settings fix.now) tokens.now) }
{
    if room == 0 {
        return Err(ReadError::Refused(refusal(begins_vid(fix, tokens)), tokens));
    }
    level(alloc, room - 1, fix, tokens)
}
