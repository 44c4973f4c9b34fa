ghost use Rattle.std.specs.Prelude.{◌≡◌, IfOk, false};
ghost use Rattle.readers.specs.Reader.{mapped};
ghost use Rattle.readers.specs.Given.{Gives};
ghost use Rattle.sml_fix.specs.Fixities.{settings};
ghost use Rattle.sml_grammar.specs.ReadPats as pats;
ghost use Rattle.sml_grammar_exp.specs.ReadClauses as read;
ghost use Rattle.sml_parse_bind.specs.Heads as heads;

use crate::constructor::op_name;
use crate::first::{begins_head, begins_vid, goes_in_head};
use crate::name::{Read, is_infix_vid};
use crate::option::higher;
use crate::pats::{more_pats, some_pats};
use readers::{Code, ReadError};
use sml_ast::{AtPat, Ident};
use sml_fix::Fixities;
use sml_lex::Token;
use sml_parse_pat::at_pat;
use sml_scan::{behind, infix_vid, place_of};
use std::alloc::Global;
use tl_text::{List, NoMemory, Place};

const OPEN_PAREN: u32 = 40;

const CLOSE_PAREN: u32 = 41;

/// The front of a clause, before its type and `=`.
#[derive(Drop)]
pub enum Head {
    /// `f p q`, `op f p q`
    Prefix(Place, bool, Ident, List<AtPat>),
    /// `p ++ q`
    Mid(AtPat, Ident, AtPat),
    /// `(p ++ q) r s`
    MidMore(Place, AtPat, Ident, AtPat, List<AtPat>),
}

/// What arguments may follow: a name, or two patterns in parentheses.
#[derive(Drop)]
enum Front {
    Named(Place, bool, Ident),
    Parted(Place, AtPat, Ident, AtPat),
}

/// `f p q`, behind the name.
fn named<'a>(
    alloc: Global,
    room: u32,
    fix: &Fixities,
    name: (Place, bool, Ident),
    tokens: &'a [Token],
) -> Read<'a, (Head, u32)>
    ensures { Gives (λ x. (x.0, x.1.now)) result (mapped (heads.named name) (heads.closed_pats (settings fix.now) room) tokens.now) }
{
    let ((found, height), rest) = some_pats(alloc, room, fix, tokens)?;
    if goes_in_head(rest) {
        return Err(ReadError::Refused(Code::Grammar, rest));
    }
    Ok(((Head::Prefix(name.0, name.1, name.2, found), height), rest))
}

/// `f p q`
fn prefix<'a>(
    alloc: Global,
    room: u32,
    fix: &Fixities,
    tokens: &'a [Token],
) -> Read<'a, (Head, u32)>
    ensures { Gives (λ x. (x.0, x.1.now)) result (mapped heads.bare (heads.prefix (settings fix.now) room) tokens.now) }
{
    let (name, rest) = op_name(alloc, fix, tokens)?;
    named(alloc, room, fix, name, rest)
}

/// `p ++ q`, with the height of the higher pattern.
fn pair<'a>(
    alloc: Global,
    room: u32,
    fix: &Fixities,
    tokens: &'a [Token],
) -> Read<'a, ((AtPat, Ident, AtPat), u32)>
    ensures { Gives (λ x. (x.0, x.1.now)) result (mapped heads.pair (heads.pair_read (settings fix.now) room) tokens.now) }
{
    let (left, rest) = at_pat(alloc, room, fix, tokens)?;
    let (op, rest) = infix_vid(alloc, fix, rest)?;
    let (right, rest) = at_pat(alloc, room, fix, rest)?;
    Ok((((left.0, op, right.0), higher(left.1, right.1)), rest))
}

/// `(p ++ q)`
fn parted<'a>(
    alloc: Global,
    room: u32,
    fix: &Fixities,
    tokens: &'a [Token],
) -> Read<'a, (Front, u32)>
    ensures { Gives (λ x. (x.0, x.1.now)) result (mapped heads.parted (heads.parted_read (settings fix.now) room) tokens.now) }
{
    let (place, rest) = place_of(OPEN_PAREN, tokens)?;
    let (((left, op, right), height), rest) = pair(alloc, room, fix, rest)?;
    let rest = behind(CLOSE_PAREN, rest)?;
    Ok(((Front::Parted(place, left, op, right), height), rest))
}

/// What arguments may follow.
fn opening<'a>(
    alloc: Global,
    room: u32,
    fix: &Fixities,
    tokens: &'a [Token],
) -> Read<'a, (Front, u32)>
    ensures { Gives (λ x. (x.0, x.1.now)) result (mapped heads.front (read.front_read (settings fix.now) (pats.at_read room false (settings fix.now))) tokens.now) }
{
    if begins_vid(fix, tokens) {
        let (name, rest) = op_name(alloc, fix, tokens)?;
        return Ok(((Front::Named(name.0, name.1, name.2), 0), rest));
    }
    parted(alloc, room, fix, tokens)
}

/// The arguments behind a front.
fn arguments<'a>(
    alloc: Global,
    room: u32,
    fix: &Fixities,
    front: (Front, u32),
    tokens: &'a [Token],
) -> Read<'a, (Head, u32)>
    ensures { Gives (λ x. (x.0, x.1.now)) result (heads.arguments (settings fix.now) room front tokens.now) }
{
    let (front, height) = front;
    match front {
        Front::Named(place, op, name) => named(alloc, room, fix, (place, op, name), tokens),
        Front::Parted(place, left, op, right) => {
            let ((found, other), rest) = more_pats(alloc, room, fix, tokens)?;
            if goes_in_head(rest) {
                return Err(ReadError::Refused(Code::Grammar, rest));
            }
            let height = higher(height, other);
            Ok(((Head::MidMore(place, left, op, right, found), height), rest))
        }
    }
}

/// `++ q`, behind the left pattern.
fn mid<'a>(
    alloc: Global,
    room: u32,
    fix: &Fixities,
    left: (AtPat, u32),
    tokens: &'a [Token],
) -> Read<'a, (Head, u32)>
    ensures { Gives (λ x. (x.0, x.1.now)) result (mapped heads.bare (read.mid_read (settings fix.now) (pats.at_read room false (settings fix.now)) left) tokens.now) }
{
    let (op, rest) = infix_vid(alloc, fix, tokens)?;
    let (right, rest) = at_pat(alloc, room, fix, rest)?;
    if goes_in_head(rest) {
        return Err(ReadError::Refused(Code::Grammar, rest));
    }
    let height = higher(left.1, right.1);
    Ok(((Head::Mid(left.0, op, right.0), height), rest))
}

/// A front and its arguments, where a pattern was read from the same tokens up to some and no operator follows it.
fn plain<'a>(
    alloc: Global,
    room: u32,
    fix: &Fixities,
    tokens: &'a [Token],
    behind: &'a [Token],
) -> Read<'a, (Head, u32)>
    ensures { Gives (λ x. (x.0, x.1.now)) result (heads.plain (settings fix.now) room tokens.now behind.now) }
{
    match opening(alloc, room, fix, tokens) {
        Ok((found, rest)) => arguments(alloc, room, fix, found, rest),
        Err(ReadError::NoMemory) => Err(ReadError::NoMemory),
        Err(ReadError::Refused(_, _)) => Err(ReadError::Refused(Code::Grammar, behind)),
    }
}

/// Why a pattern does not go on at a place in more room, where the front of a clause was refused there.
fn settled(
    alloc: Global,
    room: u32,
    fix: &Fixities,
    tokens: &[Token],
    refused: &[Token],
) -> Result<Code, NoMemory>
    ensures { IfOk result (λ code. code ≡ heads.settled (settings fix.now) room tokens.now refused.now) }
{
    let more = match room.checked_add(3) {
        Some(more) => more,
        None => return Err(NoMemory),
    };
    match at_pat(alloc, more, fix, tokens) {
        Ok(_) => Ok(Code::Depth),
        Err(ReadError::NoMemory) => Err(NoMemory),
        Err(ReadError::Refused(code, rest)) => {
            if rest.len() == refused.len() {
                Ok(code)
            } else {
                Ok(Code::Depth)
            }
        }
    }
}

/// A front and its arguments, where there is no room for a pattern of the same tokens from some on.
fn low<'a>(
    alloc: Global,
    room: u32,
    fix: &Fixities,
    tokens: &'a [Token],
    deep: &'a [Token],
) -> Read<'a, (Head, u32)>
    ensures { Gives (λ x. (x.0, x.1.now)) result (heads.low (settings fix.now) room tokens.now deep.now) }
{
    match opening(alloc, room, fix, tokens) {
        Ok((found, rest)) => {
            if is_infix_vid(fix, rest) {
                return Err(ReadError::Refused(Code::Depth, rest));
            }
            arguments(alloc, room, fix, found, rest)
        }
        Err(ReadError::NoMemory) => Err(ReadError::NoMemory),
        Err(ReadError::Refused(_, rest)) => {
            if rest.len() < deep.len() {
                let code = settled(alloc, room, fix, tokens, rest)?;
                return Err(ReadError::Refused(code, rest));
            }
            Err(ReadError::Refused(Code::Depth, deep))
        }
    }
}

/// The front of a clause that may begin with a pattern.
fn any<'a>(alloc: Global, room: u32, fix: &Fixities, tokens: &'a [Token]) -> Read<'a, (Head, u32)>
    ensures { Gives (λ x. (x.0, x.1.now)) result (mapped heads.bare (heads.any (settings fix.now) room) tokens.now) }
{
    match at_pat(alloc, room, fix, tokens) {
        Ok((left, rest)) => {
            if is_infix_vid(fix, rest) {
                return mid(alloc, room, fix, left, rest);
            }
            plain(alloc, room, fix, tokens, rest)
        }
        Err(ReadError::Refused(Code::Depth, deep)) => low(alloc, room, fix, tokens, deep),
        Err(error) => Err(error),
    }
}

/// The front of a clause, where patterns inside may have this height, and the height of the highest; it is also said whether
/// some identifier is an operator.
///
/// # Errors
/// Grammar, Depth, FixityClash at the first token with which no front of a clause goes on. NoMemory where none is left.
pub fn clause_front<'a>(
    alloc: Global,
    room: u32,
    some_operator: bool,
    fix: &Fixities,
    tokens: &'a [Token],
) -> Read<'a, (Head, u32)>
    ensures { Gives (λ x. (x.0, x.1.now)) result (mapped heads.bare (read.head_read some_operator room false (settings fix.now)) tokens.now) }
{
    if !begins_head(some_operator, fix, tokens) {
        return Err(ReadError::Refused(Code::Grammar, tokens));
    }
    if room < 1 {
        return Err(ReadError::Refused(Code::Depth, tokens));
    }
    if some_operator {
        any(alloc, room, fix, tokens)
    } else {
        prefix(alloc, room, fix, tokens)
    }
}
