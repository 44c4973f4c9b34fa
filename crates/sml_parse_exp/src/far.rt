ghost use Rattle.std.specs.Prelude.{◌≡◌, ◌≤◌, OnOk};
ghost use Rattle.readers.specs.Reader.{mapped};
ghost use Rattle.readers.specs.Given.{Gives};
ghost use Rattle.sml_grammar_exp.specs.Exps as grammar;
ghost use Rattle.sml_parse_exp.specs.Levels as levels;
ghost use Rattle.sml_parse_exp.specs.Nested.{Nests};
ghost use Rattle.sml_parse_exp.specs.Trees as trees;

use crate::inside::{Inside, Level, Read};
use crate::tall::Tall;
use crate::tree::{cases, chosen, function, raised, repeated};
use readers::{Code, ReadError};
use sml_ast::{Dec, Exp};
use sml_lex::Token;
use sml_scan::{behind, is_next, place_of};
use sml_scope::Scope;
use std::alloc::Global;
use tl_text::{Boxed, Place};

const CASE: u32 = 3;

const DO: u32 = 5;

const ELSE: u32 = 6;

const FN: u32 = 9;

const IF: u32 = 12;

const OF: u32 = 19;

const RAISE: u32 = 23;

const THEN: u32 = 25;

const WHILE: u32 = 30;

impl<
    'a,
    E: Fn(Global, u32, Level, &mut Scope, &'a [Token]) -> Read<'a, Tall<Boxed<Exp>>>,
    D: Fn(Global, u32, &mut Scope, &'a [Token]) -> Read<'a, (Dec, u32)>,
> Inside<E, D> {
    /// Behind `raise`.
    fn raise_exp(
        &self,
        place: Place,
        room: u32,
        scope: &mut Scope,
        tokens: &'a [Token],
    ) -> Read<'a, Tall<Boxed<Exp>>>
        requires nests { Nests self.now.most (E.pre self.now.exp) (E.post self.now.exp) (D.pre self.now.dec) (D.post self.now.dec) }
        requires low { room ≤ self.now.most }
        ensures gives { Gives (λ x. (trees.seen x.0, x.1.now)) result (mapped (λ x. grammar.raise_of (place, x)) (levels.exp scope.old room) tokens.now) }
        ensures keeps { OnOk result (scope.new ≡ scope.old) }
    {
        let (inner, rest) = self.exp(room, scope, tokens)?;
        Ok((raised(self.alloc, place, inner)?, rest))
    }

    /// `then f else g`
    fn branches(
        &self,
        room: u32,
        scope: &mut Scope,
        tokens: &'a [Token],
    ) -> Read<'a, (Tall<Boxed<Exp>>, Tall<Boxed<Exp>>)>
        requires nests { Nests self.now.most (E.pre self.now.exp) (E.post self.now.exp) (D.pre self.now.dec) (D.post self.now.dec) }
        requires low { room ≤ self.now.most }
        ensures gives { Gives (λ x. ((trees.seen x.0.0, trees.seen x.0.1), x.1.now)) result (levels.branches scope.old room tokens.now) }
        ensures keeps { OnOk result (scope.new ≡ scope.old) }
    {
        let rest = behind(THEN, tokens)?;
        let (first, rest) = self.exp(room, scope, rest)?;
        let rest = behind(ELSE, rest)?;
        let (other, rest) = self.exp(room, scope, rest)?;
        Ok(((first, other), rest))
    }

    /// Behind `if`.
    fn if_exp(
        &self,
        place: Place,
        room: u32,
        scope: &mut Scope,
        tokens: &'a [Token],
    ) -> Read<'a, Tall<Boxed<Exp>>>
        requires nests { Nests self.now.most (E.pre self.now.exp) (E.post self.now.exp) (D.pre self.now.dec) (D.post self.now.dec) }
        requires low { room ≤ self.now.most }
        ensures gives { Gives (λ x. (trees.seen x.0, x.1.now)) result (mapped (λ x. grammar.if_of (place, x)) (levels.conditional scope.old room) tokens.now) }
        ensures keeps { OnOk result (scope.new ≡ scope.old) }
    {
        let (test, rest) = self.exp(room, scope, tokens)?;
        let ((first, other), rest) = self.branches(room, scope, rest)?;
        Ok((chosen(self.alloc, place, test, first, other)?, rest))
    }

    /// Behind `while`.
    fn while_exp(
        &self,
        place: Place,
        room: u32,
        scope: &mut Scope,
        tokens: &'a [Token],
    ) -> Read<'a, Tall<Boxed<Exp>>>
        requires nests { Nests self.now.most (E.pre self.now.exp) (E.post self.now.exp) (D.pre self.now.dec) (D.post self.now.dec) }
        requires low { room ≤ self.now.most }
        ensures gives { Gives (λ x. (trees.seen x.0, x.1.now)) result (mapped (λ x. grammar.while_of (place, x)) (levels.repetition scope.old room) tokens.now) }
        ensures keeps { OnOk result (scope.new ≡ scope.old) }
    {
        let (test, rest) = self.exp(room, scope, tokens)?;
        let rest = behind(DO, rest)?;
        let (body, rest) = self.exp(room, scope, rest)?;
        Ok((repeated(self.alloc, place, test, body)?, rest))
    }

    /// Behind `case`.
    fn case_exp(
        &self,
        place: Place,
        room: u32,
        scope: &mut Scope,
        tokens: &'a [Token],
    ) -> Read<'a, Tall<Boxed<Exp>>>
        requires nests { Nests self.now.most (E.pre self.now.exp) (E.post self.now.exp) (D.pre self.now.dec) (D.post self.now.dec) }
        requires low { room ≤ self.now.most }
        ensures gives { Gives (λ x. (trees.seen x.0, x.1.now)) result (mapped (λ x. grammar.case_of (place, x)) (levels.case_parts scope.old room) tokens.now) }
        ensures keeps { OnOk result (scope.new ≡ scope.old) }
    {
        let (inner, rest) = self.exp(room, scope, tokens)?;
        let rest = behind(OF, rest)?;
        let (rules, rest) = self.rules(room, scope, rest)?;
        Ok((cases(self.alloc, place, inner, rules)?, rest))
    }

    /// Behind `fn`.
    fn fn_exp(
        &self,
        place: Place,
        room: u32,
        scope: &mut Scope,
        tokens: &'a [Token],
    ) -> Read<'a, Tall<Boxed<Exp>>>
        requires nests { Nests self.now.most (E.pre self.now.exp) (E.post self.now.exp) (D.pre self.now.dec) (D.post self.now.dec) }
        requires low { room ≤ self.now.most }
        ensures gives { Gives (λ x. (trees.seen x.0, x.1.now)) result (mapped (λ x. grammar.fn_of (place, x)) (levels.rules scope.old room) tokens.now) }
        ensures keeps { OnOk result (scope.new ≡ scope.old) }
    {
        let (rules, rest) = self.rules(room, scope, tokens)?;
        Ok((function(self.alloc, place, rules)?, rest))
    }

    /// `case e of p => f`, `fn p => e`
    fn far_match(
        &self,
        room: u32,
        scope: &mut Scope,
        tokens: &'a [Token],
    ) -> Read<'a, Tall<Boxed<Exp>>>
        requires nests { Nests self.now.most (E.pre self.now.exp) (E.post self.now.exp) (D.pre self.now.dec) (D.post self.now.dec) }
        requires low { room ≤ self.now.most }
        ensures gives { Gives (λ x. (trees.seen x.0, x.1.now)) result (levels.far_match scope.old room tokens.now) }
        ensures keeps { OnOk result (scope.new ≡ scope.old) }
    {
        if is_next(CASE, tokens) {
            if room < 3 {
                return Err(ReadError::Refused(Code::Depth, tokens));
            }
            let (place, rest) = place_of(CASE, tokens)?;
            return self.case_exp(place, room, scope, rest);
        }
        if !is_next(FN, tokens) {
            return Err(ReadError::Refused(Code::Grammar, tokens));
        }
        if room < 3 {
            return Err(ReadError::Refused(Code::Depth, tokens));
        }
        let (place, rest) = place_of(FN, tokens)?;
        self.fn_exp(place, room, scope, rest)
    }

    /// `if`, `while`, `case` or `fn`.
    fn far_choice(
        &self,
        room: u32,
        scope: &mut Scope,
        tokens: &'a [Token],
    ) -> Read<'a, Tall<Boxed<Exp>>>
        requires nests { Nests self.now.most (E.pre self.now.exp) (E.post self.now.exp) (D.pre self.now.dec) (D.post self.now.dec) }
        requires low { room ≤ self.now.most }
        ensures gives { Gives (λ x. (trees.seen x.0, x.1.now)) result (levels.far_choice scope.old room tokens.now) }
        ensures keeps { OnOk result (scope.new ≡ scope.old) }
    {
        if is_next(IF, tokens) {
            if room < 2 {
                return Err(ReadError::Refused(Code::Depth, tokens));
            }
            let (place, rest) = place_of(IF, tokens)?;
            return self.if_exp(place, room, scope, rest);
        }
        if is_next(WHILE, tokens) {
            if room < 2 {
                return Err(ReadError::Refused(Code::Depth, tokens));
            }
            let (place, rest) = place_of(WHILE, tokens)?;
            return self.while_exp(place, room, scope, rest);
        }
        self.far_match(room, scope, tokens)
    }

    /// An expression that reaches as far to the right as it can.
    pub fn far(
        &self,
        room: u32,
        scope: &mut Scope,
        tokens: &'a [Token],
    ) -> Read<'a, Tall<Boxed<Exp>>>
        requires nests { Nests self.now.most (E.pre self.now.exp) (E.post self.now.exp) (D.pre self.now.dec) (D.post self.now.dec) }
        requires low { room ≤ self.now.most }
        ensures gives { Gives (λ x. (trees.seen x.0, x.1.now)) result (levels.far scope.old room tokens.now) }
        ensures keeps { OnOk result (scope.new ≡ scope.old) }
    {
        if is_next(RAISE, tokens) {
            if room < 2 {
                return Err(ReadError::Refused(Code::Depth, tokens));
            }
            let (place, rest) = place_of(RAISE, tokens)?;
            return self.raise_exp(place, room, scope, rest);
        }
        self.far_choice(room, scope, tokens)
    }
}
