ghost use Rattle.std.specs.Prelude.{◌≡◌, ◌≤◌, false, Some};
ghost use Rattle.readers.specs.Reader.{mapped, skip};
ghost use Rattle.readers.specs.Forms.{maybe, ready_read};
ghost use Rattle.readers.specs.Given.{Gives};
ghost use Rattle.sml_fix.specs.Fixities.{settings};
ghost use Rattle.sml_grammar.specs.Words.{AS as BEFORE_LAYER, COMMA as SEPARATES};
ghost use Rattle.sml_grammar.specs.Tokens.{is};
ghost use Rattle.sml_grammar.specs.Pats as grammar;
ghost use Rattle.sml_grammar.specs.ReadPats as read;
ghost use Rattle.sml_parse_pat.specs.Levels as levels;
ghost use Rattle.sml_parse_pat.specs.Nested.{Nests};
ghost use Rattle.sml_parse_pat.specs.Rows as rows;

use crate::first::{begins_field, begins_tail, begins_vid_field, goes_in_field};
use crate::inside::{Inside, Level, Read};
use crate::tree::{goes_on, higher, layered_pun, named, pun, typed_pun};
use readers::{Code, ReadError, refusal};
use sml_ast::{AtPat, Ident, Label, PField, Pat};
use sml_fix::Fixities;
use sml_lex::Token;
use sml_parse_ty::ty;
use sml_scan::{above, behind, is_next, is_other_label, other_label, place_of, vid_or_label};
use std::alloc::Global;
use tl_text::{Boxed, List, Place};

const AS: u32 = 2;

const CLOSE_BRACE: u32 = 45;

const COMMA: u32 = 46;

const COLON: u32 = 47;

const DOTS: u32 = 50;

const EQUALS: u32 = 53;

impl<
    'f,
    'a,
    F: Fn(Global, u32, Level, &Fixities, &'a [Token]) -> Read<'a, (Boxed<Pat>, u32)>,
> Inside<'f, F> {
    /// `as p`, where it is next.
    fn layer(&self, room: u32, tokens: &'a [Token]) -> Read<'a, Option<(Boxed<Pat>, u32)>>
        requires nests { Nests self.now.most (F.pre self.now.phrase) (F.post self.now.phrase) }
        requires low { room ≤ self.now.most }
        ensures { Gives (λ x. (x.0, x.1.now)) result (maybe (is BEFORE_LAYER) 2 (skip (is BEFORE_LAYER) (read.pat_read room false (settings self.now.fix.now))) room tokens.now) }
    {
        if !is_next(AS, tokens) {
            return Ok((None, tokens));
        }
        if room < 2 {
            return Err(ReadError::Refused(Code::Depth, tokens));
        }
        let rest = behind(AS, tokens)?;
        let (pat, rest) = self.pat(room, rest)?;
        Ok((Some(pat), rest))
    }

    /// `: t`, `: t as p` behind the identifier.
    fn typed_tail(&self, vid: Ident, room: u32, tokens: &'a [Token]) -> Read<'a, (PField, u32)>
        requires nests { Nests self.now.most (F.pre self.now.phrase) (F.post self.now.phrase) }
        requires low { room ≤ self.now.most }
        ensures { Gives (λ x. (x.0, x.1.now)) result (mapped (λ x. rows.typed_field vid x.0 x.1) (levels.typed_tail (settings self.now.fix.now) room) tokens.now) }
    {
        let rest = behind(COLON, tokens)?;
        let (ty, rest) = ty(self.alloc, room, rest)?;
        let (pat, rest) = self.layer(room, rest)?;
        Ok((typed_pun(vid, ty, pat)?, rest))
    }

    /// What follows an identifier, `: t`, `= p` or `as p`.
    fn some_tail(
        &self,
        names: (Label, Ident),
        room: u32,
        tokens: &'a [Token],
    ) -> Read<'a, (PField, u32)>
        requires nests { Nests self.now.most (F.pre self.now.phrase) (F.post self.now.phrase) }
        requires low { room ≤ self.now.most }
        ensures { Gives (λ x. (x.0, x.1.now)) result (mapped (λ t. grammar.vid_field_of (names, Some t)) (levels.tail (settings self.now.fix.now) room) tokens.now) }
    {
        if is_next(COLON, tokens) {
            if room == 0 {
                return Err(ReadError::Refused(Code::Depth, tokens));
            }
            return self.typed_tail(names.1, room, tokens);
        }
        if is_next(EQUALS, tokens) {
            if room < 2 {
                return Err(ReadError::Refused(Code::Depth, tokens));
            }
            let rest = behind(EQUALS, tokens)?;
            let (pat, rest) = self.pat(room, rest)?;
            return Ok((named(names.0, pat)?, rest));
        }
        if !is_next(AS, tokens) {
            return Err(ReadError::Refused(Code::Grammar, tokens));
        }
        if room < 2 {
            return Err(ReadError::Refused(Code::Depth, tokens));
        }
        let rest = behind(AS, tokens)?;
        let (pat, rest) = self.pat(room, rest)?;
        Ok((layered_pun(names.1, pat)?, rest))
    }

    /// The same, where something follows.
    fn open_tail(
        &self,
        names: (Label, Ident),
        room: u32,
        tokens: &'a [Token],
    ) -> Read<'a, (PField, u32)>
        requires nests { Nests self.now.most (F.pre self.now.phrase) (F.post self.now.phrase) }
        requires low { room ≤ self.now.most }
        ensures { Gives (λ x. (x.0, x.1.now)) result (mapped (λ t. grammar.vid_field_of (names, t)) (levels.open_tail (settings self.now.fix.now) room) tokens.now) }
    {
        if !begins_tail(tokens) {
            return Ok((pun(names.1), tokens));
        }
        if room == 0 {
            return Err(ReadError::Refused(Code::Depth, tokens));
        }
        self.some_tail(names, room, tokens)
    }

    /// What is behind an identifier; no part of a pattern may follow it.
    fn tail(&self, names: (Label, Ident), room: u32, tokens: &'a [Token]) -> Read<'a, (PField, u32)>
        requires nests { Nests self.now.most (F.pre self.now.phrase) (F.post self.now.phrase) }
        requires low { room ≤ self.now.most }
        ensures { Gives (λ x. (x.0, x.1.now)) result (mapped (λ t. grammar.vid_field_of (names, t)) (levels.closed_tail (settings self.now.fix.now) room) tokens.now) }
    {
        let (field, rest) = self.open_tail(names, room, tokens)?;
        if goes_in_field(rest) {
            return Err(ReadError::Refused(Code::Grammar, rest));
        }
        Ok((field, rest))
    }

    /// `...`
    fn dots(&self, tokens: &'a [Token]) -> Read<'a, (PField, u32)>
        ensures { Gives (λ x. (x.0, x.1.now)) result (levels.dots tokens.now) }
    {
        let (place, rest) = place_of(DOTS, tokens)?;
        if goes_in_field(rest) {
            return Err(ReadError::Refused(Code::Grammar, rest));
        }
        Ok(((PField::Rest(place), 1), rest))
    }

    /// `...`, `x`, `x : t`, `x = p`, `x as p`
    fn vid_field(&self, room: u32, tokens: &'a [Token]) -> Read<'a, (PField, u32)>
        requires nests { Nests self.now.most (F.pre self.now.phrase) (F.post self.now.phrase) }
        requires low { room ≤ self.now.most }
        ensures { Gives (λ x. (x.0, x.1.now)) result (levels.vid_field (settings self.now.fix.now) room tokens.now) }
    {
        if is_next(DOTS, tokens) {
            return self.dots(tokens);
        }
        let (names, rest) = vid_or_label(self.alloc, self.fix, tokens)?;
        self.tail(names, room, rest)
    }

    /// `= p`; no part of a pattern may follow it.
    fn value(&self, room: u32, tokens: &'a [Token]) -> Read<'a, (Boxed<Pat>, u32)>
        requires nests { Nests self.now.most (F.pre self.now.phrase) (F.post self.now.phrase) }
        requires low { room ≤ self.now.most }
        ensures { Gives (λ x. (x.0, x.1.now)) result (levels.value (settings self.now.fix.now) room tokens.now) }
    {
        let rest = behind(EQUALS, tokens)?;
        let (pat, rest) = self.pat(room, rest)?;
        if goes_in_field(rest) {
            return Err(ReadError::Refused(Code::Grammar, rest));
        }
        Ok((pat, rest))
    }

    /// `1 = p`
    fn named_field(&self, room: u32, tokens: &'a [Token]) -> Read<'a, (PField, u32)>
        requires nests { Nests self.now.most (F.pre self.now.phrase) (F.post self.now.phrase) }
        requires low { room ≤ self.now.most }
        ensures { Gives (λ x. (x.0, x.1.now)) result (levels.named_field (settings self.now.fix.now) room tokens.now) }
    {
        let (label, rest) = other_label(self.alloc, self.fix, tokens)?;
        let (pat, rest) = self.value(room, rest)?;
        Ok((named(label, pat)?, rest))
    }

    /// A field, where what stands inside has this room.
    fn field_level(&self, room: u32, tokens: &'a [Token]) -> Read<'a, (PField, u32)>
        requires nests { Nests self.now.most (F.pre self.now.phrase) (F.post self.now.phrase) }
        requires low { room ≤ self.now.most }
        ensures { Gives (λ x. (x.0, x.1.now)) result (levels.field_level (settings self.now.fix.now) room tokens.now) }
    {
        if begins_vid_field(self.fix, tokens) {
            return self.vid_field(room, tokens);
        }
        if !is_other_label(self.fix, tokens) {
            return Err(ReadError::Refused(Code::Grammar, tokens));
        }
        if room < 2 {
            return Err(ReadError::Refused(Code::Depth, tokens));
        }
        self.named_field(room, tokens)
    }

    /// A field of a record pattern.
    #[tactic(auto, unfolding(sml_grammar::specs::ReadPats::field_read))]
    fn field(&self, room: u32, tokens: &'a [Token]) -> Read<'a, (PField, u32)>
        requires nests { Nests self.now.most (F.pre self.now.phrase) (F.post self.now.phrase) }
        requires low { room ≤ self.now.most }
        ensures { Gives (λ x. (x.0, x.1.now)) result (read.field_read room false (settings self.now.fix.now) tokens.now) }
    {
        if room == 0 {
            return Err(ReadError::Refused(refusal(begins_field(self.fix, tokens)), tokens));
        }
        self.field_level(room - 1, tokens)
    }

    /// One field or more, with commas between; none behind `...`.
    fn fields(&self, room: u32, tokens: &'a [Token]) -> Read<'a, (List<PField>, u32)>
        requires nests { Nests self.now.most (F.pre self.now.phrase) (F.post self.now.phrase) }
        requires low { room ≤ self.now.most }
        ensures { Gives (λ x. (x.0, x.1.now)) result (mapped rows.fields (ready_read (is SEPARATES) grammar.goes_on (read.field_read room false (settings self.now.fix.now))) tokens.now) }
    {
        let (first, mut rest) = self.field(room, tokens)?;
        let mut found = List::new(self.alloc);
        let mut height = first.1;
        let mut more = goes_on(&first);
        found.push(first.0)?;
        'items: while is_next(COMMA, rest) {
            if !more {
                return Err(ReadError::Refused(Code::Grammar, rest));
            }
            let after = behind(COMMA, rest)?;
            let (other, after) = self.field(room, after)?;
            height = higher(height, other.1);
            more = goes_on(&other);
            found.push(other.0)?;
            rest = after;
        }
        Ok(((found, height), rest))
    }

    /// Behind an opening brace.
    pub fn record(&self, place: Place, room: u32, tokens: &'a [Token]) -> Read<'a, (AtPat, u32)>
        requires nests { Nests self.now.most (F.pre self.now.phrase) (F.post self.now.phrase) }
        requires low { room ≤ self.now.most }
        ensures { Gives (λ x. (x.0, x.1.now)) result (mapped (λ x. grammar.fields_of (place, x)) (read.fields_read (settings self.now.fix.now) (read.field_read room false (settings self.now.fix.now)) room) tokens.now) }
    {
        if is_next(CLOSE_BRACE, tokens) {
            let rest = behind(CLOSE_BRACE, tokens)?;
            return Ok(((AtPat::PFields(place, List::new(self.alloc)), 1), rest));
        }
        if !begins_field(self.fix, tokens) {
            return Err(ReadError::Refused(Code::Grammar, tokens));
        }
        if room == 0 {
            return Err(ReadError::Refused(Code::Depth, tokens));
        }
        let ((found, height), rest) = self.fields(room, tokens)?;
        let rest = behind(CLOSE_BRACE, rest)?;
        let height = above(height, 0)?;
        Ok(((AtPat::PFields(place, found), height), rest))
    }
}
