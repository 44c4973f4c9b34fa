ghost use Rattle.std.specs.Prelude.{◌≡◌, ◌≤◌, false};
ghost use Rattle.readers.specs.Reader.{both, close, mapped};
ghost use Rattle.readers.specs.Forms.{enclosed, seps};
ghost use Rattle.readers.specs.Given.{Gives};
ghost use Rattle.sml_fix.specs.Fixities.{settings};
ghost use Rattle.sml_grammar.specs.Words.{CLOSE_BRACKET as CLOSES_LIST, CLOSE_PAREN as CLOSES_PAREN, COMMA as SEPARATES};
ghost use Rattle.sml_grammar.specs.Tokens.{is};
ghost use Rattle.sml_grammar.specs.Pats as grammar;
ghost use Rattle.sml_grammar.specs.ReadPats as read;
ghost use Rattle.sml_parse_pat.specs.Levels as levels;
ghost use Rattle.sml_parse_pat.specs.Nested.{Nests};
ghost use Rattle.sml_parse_pat.specs.Rows as rows;

use crate::first::{begins_at, begins_name};
use crate::inside::{Inside, Level, Read};
use crate::row::name;
use crate::tree::{closed, higher};
use readers::{Code, ReadError};
use sml_ast::{AtPat, Pat};
use sml_fix::Fixities;
use sml_lex::Token;
use sml_scan::{above, behind, constant, is_constant, is_next, place_of};
use std::alloc::Global;
use tl_text::{Boxed, List, Place};

const OPEN_PAREN: u32 = 40;

const CLOSE_PAREN: u32 = 41;

const OPEN_BRACKET: u32 = 42;

const CLOSE_BRACKET: u32 = 43;

const OPEN_BRACE: u32 = 44;

const COMMA: u32 = 46;

const WILDCARD: u32 = 51;

impl<
    'f,
    'a,
    F: Fn(Global, u32, Level, &Fixities, &'a [Token]) -> Read<'a, (Boxed<Pat>, u32)>,
> Inside<'f, F> {
    /// One pattern or more, with commas between.
    fn pats(&self, room: u32, tokens: &'a [Token]) -> Read<'a, (List<Pat>, u32)>
        requires nests { Nests self.now.most (F.pre self.now.phrase) (F.post self.now.phrase) }
        requires low { room ≤ self.now.most }
        ensures { Gives (λ x. (x.0, x.1.now)) result (mapped rows.pats (seps (is SEPARATES) (read.pat_read room false (settings self.now.fix.now))) tokens.now) }
    {
        let (first, mut rest) = self.pat(room, tokens)?;
        let mut found = List::new(self.alloc);
        let mut height = first.1;
        found.push(first.0.into_inner())?;
        'items: while is_next(COMMA, rest) {
            let after = behind(COMMA, rest)?;
            let (other, after) = self.pat(room, after)?;
            height = higher(height, other.1);
            found.push(other.0.into_inner())?;
            rest = after;
        }
        Ok(((found, height), rest))
    }

    /// Behind the comma of a tuple.
    fn others(&self, room: u32, tokens: &'a [Token]) -> Read<'a, (List<Pat>, u32)>
        requires nests { Nests self.now.most (F.pre self.now.phrase) (F.post self.now.phrase) }
        requires low { room ≤ self.now.most }
        ensures { Gives (λ x. (x.0, x.1.now)) result (mapped rows.pats (close (seps (is SEPARATES) (read.pat_read room false (settings self.now.fix.now))) (is CLOSES_PAREN)) tokens.now) }
    {
        let (found, rest) = self.pats(room, tokens)?;
        let rest = behind(CLOSE_PAREN, rest)?;
        Ok((found, rest))
    }

    /// `)`, `, q)` behind the first pattern.
    fn behind_first(&self, room: u32, tokens: &'a [Token]) -> Read<'a, Option<(List<Pat>, u32)>>
        requires nests { Nests self.now.most (F.pre self.now.phrase) (F.post self.now.phrase) }
        requires low { room ≤ self.now.most }
        ensures { Gives (λ x. (x.0, x.1.now)) result (mapped rows.some_pats (levels.behind_first (settings self.now.fix.now) room) tokens.now) }
    {
        if is_next(CLOSE_PAREN, tokens) {
            let rest = behind(CLOSE_PAREN, tokens)?;
            return Ok((None, rest));
        }
        let rest = behind(COMMA, tokens)?;
        let (others, rest) = self.others(room, rest)?;
        Ok((Some(others), rest))
    }

    /// `p)`, `p, q)`
    fn parts(&self, place: Place, room: u32, tokens: &'a [Token]) -> Read<'a, (AtPat, u32)>
        requires nests { Nests self.now.most (F.pre self.now.phrase) (F.post self.now.phrase) }
        requires low { room ≤ self.now.most }
        ensures { Gives (λ x. (x.0, x.1.now)) result (mapped (λ x. grammar.paren_of (place, grammar.Inside.Parts x)) (levels.parts (settings self.now.fix.now) room) tokens.now) }
    {
        let (first, rest) = self.pat(room, tokens)?;
        let (others, rest) = self.behind_first(room, rest)?;
        let atom = closed(place, first, others)?;
        Ok((atom, rest))
    }

    /// Behind an opening parenthesis.
    fn paren(&self, place: Place, room: u32, tokens: &'a [Token]) -> Read<'a, (AtPat, u32)>
        requires nests { Nests self.now.most (F.pre self.now.phrase) (F.post self.now.phrase) }
        requires low { room ≤ self.now.most }
        ensures { Gives (λ x. (x.0, x.1.now)) result (mapped (λ x. grammar.paren_of (place, x)) (read.inside_read (settings self.now.fix.now) (read.pat_read room false (settings self.now.fix.now)) room) tokens.now) }
    {
        if is_next(CLOSE_PAREN, tokens) {
            let rest = behind(CLOSE_PAREN, tokens)?;
            return Ok(((AtPat::PUnit(place), 1), rest));
        }
        if !begins_at(self.fix, tokens) {
            return Err(ReadError::Refused(Code::Grammar, tokens));
        }
        if room < 2 {
            return Err(ReadError::Refused(Code::Depth, tokens));
        }
        self.parts(place, room, tokens)
    }

    /// Behind an opening bracket.
    fn items(&self, place: Place, room: u32, tokens: &'a [Token]) -> Read<'a, (AtPat, u32)>
        requires nests { Nests self.now.most (F.pre self.now.phrase) (F.post self.now.phrase) }
        requires low { room ≤ self.now.most }
        ensures { Gives (λ x. (x.0, x.1.now)) result (mapped (λ x. grammar.items_of (place, x)) (enclosed (read.begins_at (settings self.now.fix.now)) 2 (is SEPARATES) (read.pat_read room false (settings self.now.fix.now)) (is CLOSES_LIST) room) tokens.now) }
    {
        if is_next(CLOSE_BRACKET, tokens) {
            let rest = behind(CLOSE_BRACKET, tokens)?;
            return Ok(((AtPat::PItems(place, List::new(self.alloc)), 1), rest));
        }
        if !begins_at(self.fix, tokens) {
            return Err(ReadError::Refused(Code::Grammar, tokens));
        }
        if room < 2 {
            return Err(ReadError::Refused(Code::Depth, tokens));
        }
        let ((found, height), rest) = self.pats(room, tokens)?;
        let rest = behind(CLOSE_BRACKET, rest)?;
        let height = above(height, 0)?;
        Ok(((AtPat::PItems(place, found), height), rest))
    }

    /// An atomic pattern in parentheses.
    fn parenthesised(&self, room: u32, tokens: &'a [Token]) -> Read<'a, (AtPat, u32)>
        requires nests { Nests self.now.most (F.pre self.now.phrase) (F.post self.now.phrase) }
        requires low { room ≤ self.now.most }
        ensures { Gives (λ x. (x.0, x.1.now)) result (levels.parenthesised (settings self.now.fix.now) room tokens.now) }
    {
        if !is_next(OPEN_PAREN, tokens) {
            return Err(ReadError::Refused(Code::Grammar, tokens));
        }
        let (place, rest) = place_of(OPEN_PAREN, tokens)?;
        self.paren(place, room, rest)
    }

    /// A list, or an atomic pattern in parentheses.
    fn bracketed(&self, room: u32, tokens: &'a [Token]) -> Read<'a, (AtPat, u32)>
        requires nests { Nests self.now.most (F.pre self.now.phrase) (F.post self.now.phrase) }
        requires low { room ≤ self.now.most }
        ensures { Gives (λ x. (x.0, x.1.now)) result (levels.bracketed (settings self.now.fix.now) room tokens.now) }
    {
        if is_next(OPEN_BRACKET, tokens) {
            let (place, rest) = place_of(OPEN_BRACKET, tokens)?;
            return self.items(place, room, rest);
        }
        self.parenthesised(room, tokens)
    }

    /// An atomic pattern that is no identifier, where what stands inside has this room.
    pub fn other(&self, room: u32, tokens: &'a [Token]) -> Read<'a, (AtPat, u32)>
        requires nests { Nests self.now.most (F.pre self.now.phrase) (F.post self.now.phrase) }
        requires low { room ≤ self.now.most }
        ensures { Gives (λ x. (x.0, x.1.now)) result (levels.other_level (settings self.now.fix.now) room tokens.now) }
    {
        if is_next(WILDCARD, tokens) {
            let (place, rest) = place_of(WILDCARD, tokens)?;
            return Ok(((AtPat::Any(place), 1), rest));
        }
        if is_constant(tokens) {
            let ((place, lit), rest) = constant(self.alloc, tokens)?;
            return Ok(((AtPat::PLit(place, lit), 1), rest));
        }
        if is_next(OPEN_BRACE, tokens) {
            let (place, rest) = place_of(OPEN_BRACE, tokens)?;
            return self.record(place, room, rest);
        }
        self.bracketed(room, tokens)
    }

    /// An atomic pattern, where what stands inside has this room.
    pub fn atom(&self, room: u32, tokens: &'a [Token]) -> Read<'a, (AtPat, u32)>
        requires nests { Nests self.now.most (F.pre self.now.phrase) (F.post self.now.phrase) }
        requires low { room ≤ self.now.most }
        ensures { Gives (λ x. (x.0, x.1.now)) result (levels.at_level (settings self.now.fix.now) room tokens.now) }
    {
        if begins_name(self.fix, tokens) {
            let (name, rest) = name(self.alloc, self.fix, tokens)?;
            return Ok(((AtPat::PId(name.0, name.1, name.2), 1), rest));
        }
        self.other(room, tokens)
    }
}
