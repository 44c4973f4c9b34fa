ghost use Rattle.std.specs.Prelude.{◌≡◌, ◌≤◌, false};
ghost use Rattle.readers.specs.Reader.{first, head_is, skip};
ghost use Rattle.readers.specs.Forms.{ended};
ghost use Rattle.readers.specs.Given.{Gives};
ghost use Rattle.readers.specs.Infix.{ground};
ghost use Rattle.sml_fix.specs.Fixities.{settings};
ghost use Rattle.sml_grammar.specs.Words.{COLON as BEFORE_TYPE};
ghost use Rattle.sml_grammar.specs.Tokens.{is, tokens_of};
ghost use Rattle.sml_grammar.specs.ReadTypes.{ty_read};
ghost use Rattle.sml_grammar.specs.ReadPats as read;
ghost use Rattle.sml_parse_pat.specs.Levels as levels;
ghost use Rattle.sml_parse_pat.specs.Nested.{Nests};

use crate::first::{begins_at, goes_inside};
use crate::tree::{higher, is_bare, layered, typed};
use readers::{Code, Floor, ReadError, refusal};
use sml_ast::{AtPat, Pat, Ty};
use sml_fix::Fixities;
use sml_lex::Token;
use sml_parse_ty::ty;
use sml_scan::{behind, is_next};
use std::alloc::Global;
use tl_text::Boxed;

const AS: u32 = 2;

const COLON: u32 = 47;

/// What was read, and the tokens behind it.
pub type Read<'a, T> = Result<(T, &'a [Token]), ReadError<'a, Token>>;

/// What is read: a pattern, or a row of operators that stands on a floor.
#[derive(Clone, Copy)]
pub enum Level {
    Whole,
    Row(Floor),
}

/// The forms of patterns, over the reader of the patterns that stand inside.
#[derive(Clone, Copy)]
pub struct Inside<'f, F> {
    pub alloc: Global,
    /// How high the patterns inside may be.
    pub most: u32,
    /// The fixities in force.
    pub fix: &'f Fixities,
    pub phrase: F,
}

impl<
    'f,
    'a,
    F: Fn(Global, u32, Level, &Fixities, &'a [Token]) -> Read<'a, (Boxed<Pat>, u32)>,
> Inside<'f, F> {
    /// A pattern that stands inside.
    pub fn pat(&self, room: u32, tokens: &'a [Token]) -> Read<'a, (Boxed<Pat>, u32)>
        requires nests { Nests self.now.most (F.pre self.now.phrase) (F.post self.now.phrase) }
        requires low { room ≤ self.now.most }
        ensures { Gives (λ x. (x.0, x.1.now)) result (read.pat_read room false (settings self.now.fix.now) tokens.now) }
    {
        (self.phrase)(self.alloc, room, Level::Whole, self.fix, tokens)
    }

    /// A row that stands on the right of an operator.
    pub fn right(&self, room: u32, floor: Floor, tokens: &'a [Token]) -> Read<'a, (Boxed<Pat>, u32)>
        requires nests { Nests self.now.most (F.pre self.now.phrase) (F.post self.now.phrase) }
        requires low { room ≤ self.now.most }
        ensures { Gives (λ x. (x.0, x.1.now)) result (read.row_read room false floor (settings self.now.fix.now) tokens.now) }
    {
        (self.phrase)(self.alloc, room, Level::Row(floor), self.fix, tokens)
    }

    /// A row of operators that no part of a pattern follows.
    fn base(&self, room: u32, tokens: &'a [Token]) -> Read<'a, (Boxed<Pat>, u32)>
        requires nests { Nests self.now.most (F.pre self.now.phrase) (F.post self.now.phrase) }
        requires low { room ≤ self.now.most }
        ensures { Gives (λ x. (x.0, x.1.now)) result (levels.base_level (settings self.now.fix.now) room tokens.now) }
    {
        let (found, rest) = self.row(room, Floor::ground(), tokens)?;
        if goes_inside(rest) {
            return Err(ReadError::Refused(Code::Grammar, rest));
        }
        Ok((found, rest))
    }

    /// `: t`
    fn annotation(&self, room: u32, tokens: &'a [Token]) -> Read<'a, (Ty, u32)>
        ensures { Gives (λ x. (x.0, x.1.now)) result (levels.annotation room tokens.now) }
    {
        let rest = behind(COLON, tokens)?;
        let (ty, rest) = ty(self.alloc, room, rest)?;
        if goes_inside(rest) {
            return Err(ReadError::Refused(Code::Grammar, rest));
        }
        Ok((ty, rest))
    }

    /// `p : t : u`
    fn typed(&self, room: u32, tokens: &'a [Token]) -> Read<'a, (Boxed<Pat>, u32)>
        requires nests { Nests self.now.most (F.pre self.now.phrase) (F.post self.now.phrase) }
        requires low { room ≤ self.now.most }
        ensures { Gives (λ x. (x.0, x.1.now)) result (levels.typed_level (settings self.now.fix.now) room tokens.now) }
    {
        let (mut found, mut rest) = self.base(room, tokens)?;
        'types: while is_next(COLON, rest) {
            let least = higher(2, found.1);
            if room < least {
                return Err(ReadError::Refused(Code::Depth, rest));
            }
            let (ty, after) = self.annotation(room, rest)?;
            found = typed(self.alloc, found, ty)?;
            rest = after;
        }
        Ok((found, rest))
    }

    /// `as p`, where it is next; what stands before it is a bare identifier or not.
    fn upper(
        &self,
        room: u32,
        bare: bool,
        tokens: &'a [Token],
    ) -> Read<'a, Option<(Boxed<Pat>, u32)>>
        requires nests { Nests self.now.most (F.pre self.now.phrase) (F.post self.now.phrase) }
        requires low { room ≤ self.now.most }
        ensures { Gives (λ x. (x.0, x.1.now)) result (levels.upper (settings self.now.fix.now) room bare tokens.now) }
    {
        if !is_next(AS, tokens) {
            return Ok((None, tokens));
        }
        if !bare {
            return Err(ReadError::Refused(Code::Grammar, tokens));
        }
        if room < 2 {
            return Err(ReadError::Refused(Code::Depth, tokens));
        }
        let rest = behind(AS, tokens)?;
        let (inner, rest) = self.pat(room, rest)?;
        Ok((Some(inner), rest))
    }

    /// `x as p`
    fn whole(&self, room: u32, tokens: &'a [Token]) -> Read<'a, (Boxed<Pat>, u32)>
        requires nests { Nests self.now.most (F.pre self.now.phrase) (F.post self.now.phrase) }
        requires low { room ≤ self.now.most }
        ensures { Gives (λ x. (x.0, x.1.now)) result (levels.pat_level (settings self.now.fix.now) room tokens.now) }
    {
        let (found, rest) = self.typed(room, tokens)?;
        let (inner, rest) = self.upper(room, is_bare(&found), rest)?;
        match inner {
            None => Ok((found, rest)),
            Some(inner) => Ok((layered(self.alloc, found, inner)?, rest)),
        }
    }
}

/// The pattern or the row that is next, of at most this height. It is on the heap from the start, so that a level of nesting takes
/// little of the stack.
#[tactic(auto, unfolding(sml_grammar::specs::ReadPats::pat_read, sml_grammar::specs::ReadPats::row_read))]
fn phrase<'a>(
    alloc: Global,
    room: u32,
    level: Level,
    fix: &Fixities,
    tokens: &'a [Token],
) -> Read<'a, (Boxed<Pat>, u32)>
    ensures { Gives (λ x. (x.0, x.1.now)) result (levels.phrase (settings fix.now) room level tokens.now) }
{
    if room == 0 {
        return Err(ReadError::Refused(refusal(begins_at(fix, tokens)), tokens));
    }
    let inside = Inside {
        alloc,
        most: room - 1,
        fix,
        phrase,
    };
    match level {
        Level::Whole => inside.whole(room - 1, tokens),
        Level::Row(floor) => inside.row(room - 1, floor, tokens),
    }
}

/// The pattern that is next, of at most this height, as far as the tokens go on with it.
///
/// # Errors
/// Grammar, Depth, FixityClash at the first token with which no pattern goes on. NoMemory where none is left.
pub fn pat<'a>(
    alloc: Global,
    room: u32,
    fix: &Fixities,
    tokens: &'a [Token],
) -> Read<'a, (Pat, u32)>
    ensures { Gives (λ x. (x.0, x.1.now)) result (read.pat_read room false (settings fix.now) tokens.now) }
{
    let ((found, height), rest) = phrase(alloc, room, Level::Whole, fix, tokens)?;
    Ok(((found.into_inner(), height), rest))
}

/// The atomic pattern that is next, of at most this height.
///
/// # Errors
/// Grammar, Depth, FixityClash at the first token with which no atomic pattern goes on. NoMemory where none is left.
#[tactic(auto, unfolding(sml_grammar::specs::ReadPats::at_read))]
pub fn at_pat<'a>(
    alloc: Global,
    room: u32,
    fix: &Fixities,
    tokens: &'a [Token],
) -> Read<'a, (AtPat, u32)>
    ensures { Gives (λ x. (x.0, x.1.now)) result (read.at_read room false (settings fix.now) tokens.now) }
{
    if room == 0 {
        return Err(ReadError::Refused(refusal(begins_at(fix, tokens)), tokens));
    }
    Inside {
        alloc,
        most: room - 1,
        fix,
        phrase,
    }
    .atom(room - 1, tokens)
}
