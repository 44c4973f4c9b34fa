ghost use Rattle.std.specs.Prelude.{◌≡◌, ◌≤◌, OnOk, false};
ghost use Rattle.readers.specs.Reader.{close, mapped, skip};
ghost use Rattle.readers.specs.Forms.{enclosed, seps};
ghost use Rattle.readers.specs.Given.{Gives};
ghost use Rattle.sml_grammar.specs.Words.{CLOSE_BRACE as CLOSES_FIELDS, CLOSE_BRACKET as CLOSES_LIST, CLOSE_PAREN as CLOSES_PAREN, COMMA as SEPARATES, END as ENDS, IN as BEFORE_BODY, SEMICOLON as ORDERS};
ghost use Rattle.sml_grammar.specs.Tokens.{is, labels, tokens_of};
ghost use Rattle.sml_grammar_exp.specs.Decs.{fixed};
ghost use Rattle.sml_grammar_exp.specs.Exps as grammar;
ghost use Rattle.sml_grammar_exp.specs.ReadExps as read;
ghost use Rattle.sml_grammar_exp.specs.ReadLevels as knot;
ghost use Rattle.sml_parse_exp.specs.Levels as levels;
ghost use Rattle.sml_parse_exp.specs.Nested.{Nests};
ghost use Rattle.sml_parse_exp.specs.Trees as trees;

use crate::first::{begins_at, begins_exp};
use crate::inside::{Inside, Level, Read};
use crate::tall::{Tall, higher};
use crate::tree::{Behind, closed};
use readers::{Code, ReadError, refusal};
use sml_ast::{AtExp, Dec, Exp, Label};
use sml_lex::Token;
use sml_parse_pat::{begins_name, name};
use sml_scan::{above, behind, constant, is_constant, is_label, is_next, place_of, record_label};
use sml_scope::Scope;
use std::alloc::Global;
use tl_text::{Boxed, List, Place};

const END: u32 = 7;

const IN: u32 = 13;

const LET: u32 = 16;

const OPEN_PAREN: u32 = 40;

const CLOSE_PAREN: u32 = 41;

const OPEN_BRACKET: u32 = 42;

const CLOSE_BRACKET: u32 = 43;

const OPEN_BRACE: u32 = 44;

const CLOSE_BRACE: u32 = 45;

const COMMA: u32 = 46;

const SEMICOLON: u32 = 49;

const EQUALS: u32 = 53;

const HASH: u32 = 57;

impl<
    'a,
    E: Fn(Global, u32, Level, &mut Scope, &'a [Token]) -> Read<'a, Tall<Boxed<Exp>>>,
    D: Fn(Global, u32, &mut Scope, &'a [Token]) -> Read<'a, (Dec, u32)>,
> Inside<E, D> {
    /// `= e`
    pub fn value(
        &self,
        room: u32,
        scope: &mut Scope,
        tokens: &'a [Token],
    ) -> Read<'a, Tall<Boxed<Exp>>>
        requires nests { Nests self.now.most (E.pre self.now.exp) (E.post self.now.exp) (D.pre self.now.dec) (D.post self.now.dec) }
        requires low { room ≤ self.now.most }
        ensures gives { Gives (λ x. (trees.seen x.0, x.1.now)) result (levels.value scope.old room tokens.now) }
        ensures keeps { OnOk result (scope.new ≡ scope.old) }
    {
        let rest = behind(EQUALS, tokens)?;
        self.exp(room, scope, rest)
    }

    /// `a = e`
    fn field(
        &self,
        room: u32,
        scope: &mut Scope,
        tokens: &'a [Token],
    ) -> Read<'a, (Label, Tall<Boxed<Exp>>)>
        requires nests { Nests self.now.most (E.pre self.now.exp) (E.post self.now.exp) (D.pre self.now.dec) (D.post self.now.dec) }
        requires low { room ≤ self.now.most }
        ensures gives { Gives (λ x. ((x.0.0, trees.seen x.0.1), x.1.now)) result (read.field_read (levels.exp scope.old room) tokens.now) }
        ensures keeps { OnOk result (scope.new ≡ scope.old) }
    {
        let (label, rest) = record_label(self.alloc, tokens)?;
        let (value, rest) = self.value(room, scope, rest)?;
        Ok(((label, value), rest))
    }

    /// One field or more.
    fn fields(
        &self,
        room: u32,
        scope: &mut Scope,
        tokens: &'a [Token],
    ) -> Read<'a, (List<(Label, Exp)>, u32)>
        requires nests { Nests self.now.most (E.pre self.now.exp) (E.post self.now.exp) (D.pre self.now.dec) (D.post self.now.dec) }
        requires low { room ≤ self.now.most }
        ensures gives { Gives (λ x. (x.0, x.1.now)) result (mapped trees.fields_of (seps (is SEPARATES) (read.field_read (levels.exp scope.old room))) tokens.now) }
        ensures keeps { OnOk result (scope.new ≡ scope.old) }
    {
        let (first, mut rest) = self.field(room, scope, tokens)?;
        let mut found = List::new(self.alloc);
        let mut height = first.1.height;
        found.push((first.0, first.1.tree.into_inner()))?;
        'items: while is_next(COMMA, rest) {
            let after = behind(COMMA, rest)?;
            let (other, after) = self.field(room, scope, after)?;
            height = higher(height, other.1.height);
            found.push((other.0, other.1.tree.into_inner()))?;
            rest = after;
        }
        Ok(((found, height), rest))
    }

    /// Behind an opening brace.
    fn record(
        &self,
        place: Place,
        room: u32,
        scope: &mut Scope,
        tokens: &'a [Token],
    ) -> Read<'a, (AtExp, u32)>
        requires nests { Nests self.now.most (E.pre self.now.exp) (E.post self.now.exp) (D.pre self.now.dec) (D.post self.now.dec) }
        requires low { room ≤ self.now.most }
        ensures gives { Gives (λ x. (x.0, x.1.now)) result (mapped (λ x. grammar.fields_of (place, x)) (enclosed (tokens_of labels) 2 (is SEPARATES) (read.field_read (levels.exp scope.old room)) (is CLOSES_FIELDS) room) tokens.now) }
        ensures keeps { OnOk result (scope.new ≡ scope.old) }
    {
        if is_next(CLOSE_BRACE, tokens) {
            let rest = behind(CLOSE_BRACE, tokens)?;
            return Ok(((AtExp::Fields(place, List::new(self.alloc)), 1), rest));
        }
        if !is_label(tokens) {
            return Err(ReadError::Refused(Code::Grammar, tokens));
        }
        if room < 2 {
            return Err(ReadError::Refused(Code::Depth, tokens));
        }
        let ((found, height), rest) = self.fields(room, scope, tokens)?;
        let rest = behind(CLOSE_BRACE, rest)?;
        let height = above(height, 0)?;
        Ok(((AtExp::Fields(place, found), height), rest))
    }

    /// One expression or more, with this word between.
    fn exps(
        &self,
        separator: u32,
        room: u32,
        scope: &mut Scope,
        tokens: &'a [Token],
    ) -> Read<'a, (List<Exp>, u32)>
        requires nests { Nests self.now.most (E.pre self.now.exp) (E.post self.now.exp) (D.pre self.now.dec) (D.post self.now.dec) }
        requires low { room ≤ self.now.most }
        ensures gives { Gives (λ x. (x.0, x.1.now)) result (mapped trees.exps_of (seps (is separator) (levels.exp scope.old room)) tokens.now) }
        ensures keeps { OnOk result (scope.new ≡ scope.old) }
    {
        let (first, mut rest) = self.exp(room, scope, tokens)?;
        let mut found = List::new(self.alloc);
        let mut height = first.height;
        found.push(first.tree.into_inner())?;
        'items: while is_next(separator, rest) {
            let after = behind(separator, rest)?;
            let (other, after) = self.exp(room, scope, after)?;
            height = higher(height, other.height);
            found.push(other.tree.into_inner())?;
            rest = after;
        }
        Ok(((found, height), rest))
    }

    /// Behind an opening bracket.
    fn items(
        &self,
        place: Place,
        room: u32,
        scope: &mut Scope,
        tokens: &'a [Token],
    ) -> Read<'a, (AtExp, u32)>
        requires nests { Nests self.now.most (E.pre self.now.exp) (E.post self.now.exp) (D.pre self.now.dec) (D.post self.now.dec) }
        requires low { room ≤ self.now.most }
        ensures gives { Gives (λ x. (x.0, x.1.now)) result (mapped (λ x. grammar.items_of (place, x)) (enclosed (read.begins_exp (fixed scope.old)) 2 (is SEPARATES) (levels.exp scope.old room) (is CLOSES_LIST) room) tokens.now) }
        ensures keeps { OnOk result (scope.new ≡ scope.old) }
    {
        if is_next(CLOSE_BRACKET, tokens) {
            let rest = behind(CLOSE_BRACKET, tokens)?;
            return Ok(((AtExp::Items(place, List::new(self.alloc)), 1), rest));
        }
        if !begins_exp(scope.fixities(), tokens) {
            return Err(ReadError::Refused(Code::Grammar, tokens));
        }
        if room < 2 {
            return Err(ReadError::Refused(Code::Depth, tokens));
        }
        let ((found, height), rest) = self.exps(COMMA, room, scope, tokens)?;
        let rest = behind(CLOSE_BRACKET, rest)?;
        let height = above(height, 0)?;
        Ok(((AtExp::Items(place, found), height), rest))
    }

    /// Expressions with this word between, and the parenthesis that closes them.
    fn others(
        &self,
        separator: u32,
        room: u32,
        scope: &mut Scope,
        tokens: &'a [Token],
    ) -> Read<'a, (List<Exp>, u32)>
        requires nests { Nests self.now.most (E.pre self.now.exp) (E.post self.now.exp) (D.pre self.now.dec) (D.post self.now.dec) }
        requires low { room ≤ self.now.most }
        ensures gives { Gives (λ x. (x.0, x.1.now)) result (mapped trees.exps_of (close (seps (is separator) (levels.exp scope.old room)) (is CLOSES_PAREN)) tokens.now) }
        ensures keeps { OnOk result (scope.new ≡ scope.old) }
    {
        let (found, rest) = self.exps(separator, room, scope, tokens)?;
        let rest = behind(CLOSE_PAREN, rest)?;
        Ok((found, rest))
    }

    /// Behind the first expression in parentheses.
    fn behind_first(&self, room: u32, scope: &mut Scope, tokens: &'a [Token]) -> Read<'a, Behind>
        requires nests { Nests self.now.most (E.pre self.now.exp) (E.post self.now.exp) (D.pre self.now.dec) (D.post self.now.dec) }
        requires low { room ≤ self.now.most }
        ensures gives { Gives (λ x. (x.0, x.1.now)) result (mapped trees.behind_of (read.behind_read (levels.exp scope.old room)) tokens.now) }
        ensures keeps { OnOk result (scope.new ≡ scope.old) }
    {
        if is_next(CLOSE_PAREN, tokens) {
            let rest = behind(CLOSE_PAREN, tokens)?;
            return Ok((Behind::Closed, rest));
        }
        if is_next(COMMA, tokens) {
            let rest = behind(COMMA, tokens)?;
            let ((others, height), rest) = self.others(COMMA, room, scope, rest)?;
            return Ok((Behind::Commas(others, height), rest));
        }
        let rest = behind(SEMICOLON, tokens)?;
        let ((others, height), rest) = self.others(SEMICOLON, room, scope, rest)?;
        Ok((Behind::Semis(others, height), rest))
    }

    /// `e)`, `e, f)`, `e; f)`
    fn parts(
        &self,
        place: Place,
        room: u32,
        scope: &mut Scope,
        tokens: &'a [Token],
    ) -> Read<'a, (AtExp, u32)>
        requires nests { Nests self.now.most (E.pre self.now.exp) (E.post self.now.exp) (D.pre self.now.dec) (D.post self.now.dec) }
        requires low { room ≤ self.now.most }
        ensures gives { Gives (λ x. (x.0, x.1.now)) result (mapped (λ x. grammar.paren_of (place, grammar.Inside.Parts x)) (levels.parts scope.old room) tokens.now) }
        ensures keeps { OnOk result (scope.new ≡ scope.old) }
    {
        let (first, rest) = self.exp(room, scope, tokens)?;
        let (others, rest) = self.behind_first(room, scope, rest)?;
        let atom = closed(place, first, others)?;
        Ok((atom, rest))
    }

    /// Behind an opening parenthesis.
    fn paren(
        &self,
        place: Place,
        room: u32,
        scope: &mut Scope,
        tokens: &'a [Token],
    ) -> Read<'a, (AtExp, u32)>
        requires nests { Nests self.now.most (E.pre self.now.exp) (E.post self.now.exp) (D.pre self.now.dec) (D.post self.now.dec) }
        requires low { room ≤ self.now.most }
        ensures gives { Gives (λ x. (x.0, x.1.now)) result (mapped (λ x. grammar.paren_of (place, x)) (read.inside_read (fixed scope.old) (levels.exp scope.old room) room) tokens.now) }
        ensures keeps { OnOk result (scope.new ≡ scope.old) }
    {
        if is_next(CLOSE_PAREN, tokens) {
            let rest = behind(CLOSE_PAREN, tokens)?;
            return Ok(((AtExp::Unit(place), 1), rest));
        }
        if !begins_exp(scope.fixities(), tokens) {
            return Err(ReadError::Refused(Code::Grammar, tokens));
        }
        if room < 2 {
            return Err(ReadError::Refused(Code::Depth, tokens));
        }
        self.parts(place, room, scope, tokens)
    }

    /// `in e; f end`
    fn body(&self, room: u32, scope: &mut Scope, tokens: &'a [Token]) -> Read<'a, (List<Exp>, u32)>
        requires nests { Nests self.now.most (E.pre self.now.exp) (E.post self.now.exp) (D.pre self.now.dec) (D.post self.now.dec) }
        requires low { room ≤ self.now.most }
        ensures gives { Gives (λ x. (x.0, x.1.now)) result (mapped trees.exps_of (levels.body scope.old room) tokens.now) }
        ensures keeps { OnOk result (scope.new ≡ scope.old) }
    {
        let rest = behind(IN, tokens)?;
        let (found, rest) = self.exps(SEMICOLON, room, scope, rest)?;
        let rest = behind(END, rest)?;
        Ok((found, rest))
    }

    /// Behind `let`.
    fn let_exp(
        &self,
        place: Place,
        room: u32,
        scope: &mut Scope,
        tokens: &'a [Token],
    ) -> Read<'a, (AtExp, u32)>
        requires nests { Nests self.now.most (E.pre self.now.exp) (E.post self.now.exp) (D.pre self.now.dec) (D.post self.now.dec) }
        requires low { room ≤ self.now.most }
        ensures gives { Gives (λ x. (x.0, x.1.now)) result (mapped (λ x. grammar.let_of (place, x)) (levels.let_body scope.old room) tokens.now) }
        ensures keeps { OnOk result (scope.new ≡ scope.old) }
    {
        let outer = scope.count();
        let ((decs, height), rest) = self.decs(room, scope, tokens)?;
        let ((body, other), rest) = self.body(room, scope, rest)?;
        scope.leave(outer)?;
        let height = above(height, other)?;
        Ok(((AtExp::Let(place, decs, body), height), rest))
    }

    /// `let d in e; f end`
    fn scoped(&self, room: u32, scope: &mut Scope, tokens: &'a [Token]) -> Read<'a, (AtExp, u32)>
        requires nests { Nests self.now.most (E.pre self.now.exp) (E.post self.now.exp) (D.pre self.now.dec) (D.post self.now.dec) }
        requires low { room ≤ self.now.most }
        ensures gives { Gives (λ x. (x.0, x.1.now)) result (levels.scoped scope.old room tokens.now) }
        ensures keeps { OnOk result (scope.new ≡ scope.old) }
    {
        if !is_next(LET, tokens) {
            return Err(ReadError::Refused(Code::Grammar, tokens));
        }
        if room < 2 {
            return Err(ReadError::Refused(Code::Depth, tokens));
        }
        let (place, rest) = place_of(LET, tokens)?;
        self.let_exp(place, room, scope, rest)
    }

    /// A list, what stands in parentheses, an identifier, or `let`.
    fn enclosed(&self, room: u32, scope: &mut Scope, tokens: &'a [Token]) -> Read<'a, (AtExp, u32)>
        requires nests { Nests self.now.most (E.pre self.now.exp) (E.post self.now.exp) (D.pre self.now.dec) (D.post self.now.dec) }
        requires low { room ≤ self.now.most }
        ensures gives { Gives (λ x. (x.0, x.1.now)) result (levels.enclosed_at scope.old room tokens.now) }
        ensures keeps { OnOk result (scope.new ≡ scope.old) }
    {
        if is_next(OPEN_BRACKET, tokens) {
            let (place, rest) = place_of(OPEN_BRACKET, tokens)?;
            return self.items(place, room, scope, rest);
        }
        if is_next(OPEN_PAREN, tokens) {
            let (place, rest) = place_of(OPEN_PAREN, tokens)?;
            return self.paren(place, room, scope, rest);
        }
        if begins_name(scope.fixities(), tokens) {
            let (name, rest) = name(self.alloc, scope.fixities(), tokens)?;
            return Ok(((AtExp::Id(name.0, name.1, name.2), 1), rest));
        }
        self.scoped(room, scope, tokens)
    }

    /// An atomic expression, where what stands inside has this room.
    fn atom(&self, room: u32, scope: &mut Scope, tokens: &'a [Token]) -> Read<'a, (AtExp, u32)>
        requires nests { Nests self.now.most (E.pre self.now.exp) (E.post self.now.exp) (D.pre self.now.dec) (D.post self.now.dec) }
        requires low { room ≤ self.now.most }
        ensures gives { Gives (λ x. (x.0, x.1.now)) result (levels.at_level scope.old room tokens.now) }
        ensures keeps { OnOk result (scope.new ≡ scope.old) }
    {
        if is_constant(tokens) {
            let ((place, lit), rest) = constant(self.alloc, tokens)?;
            return Ok(((AtExp::Lit(place, lit), 1), rest));
        }
        if is_next(HASH, tokens) {
            let (place, rest) = place_of(HASH, tokens)?;
            let (label, rest) = record_label(self.alloc, rest)?;
            return Ok(((AtExp::Pick(place, label), 1), rest));
        }
        if is_next(OPEN_BRACE, tokens) {
            let (place, rest) = place_of(OPEN_BRACE, tokens)?;
            return self.record(place, room, scope, rest);
        }
        self.enclosed(room, scope, tokens)
    }

    /// An atomic expression of at most this height.
    #[tactic(auto, unfolding(sml_grammar_exp::specs::ReadLevels::at_exp_read))]
    pub fn at(&self, room: u32, scope: &mut Scope, tokens: &'a [Token]) -> Read<'a, (AtExp, u32)>
        requires nests { Nests self.now.most (E.pre self.now.exp) (E.post self.now.exp) (D.pre self.now.dec) (D.post self.now.dec) }
        requires low { room ≤ self.now.most }
        ensures gives { Gives (λ x. (x.0, x.1.now)) result (knot.at_exp_read room false scope.old tokens.now) }
        ensures keeps { OnOk result (scope.new ≡ scope.old) }
    {
        if room == 0 {
            return Err(ReadError::Refused(refusal(begins_at(scope.fixities(), tokens)), tokens));
        }
        self.atom(room - 1, scope, tokens)
    }
}
