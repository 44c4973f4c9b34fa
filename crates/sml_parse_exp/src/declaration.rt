ghost use Rattle.std.specs.Prelude.{◌≡◌, ◌≤◌, ◌++◌, OnOk, false, map};
ghost use Rattle.readers.specs.Reader.{mapped};
ghost use Rattle.readers.specs.Given.{Gives};
ghost use Rattle.sml_grammar_exp.specs.Decs as grammar;
ghost use Rattle.sml_grammar_exp.specs.ReadDecs as read;
ghost use Rattle.sml_parse_exp.specs.Levels as levels;
ghost use Rattle.sml_parse_exp.specs.Nested.{Nests, Moves, MovesAll};
ghost use Rattle.sml_parse_exp.specs.Trees as trees;

use crate::inside::{Inside, Level, Read};
use crate::tall::{Tall, higher};
use readers::{Code, ReadError};
use sml_ast::{Dec, Exp, Ident};
use sml_fix::Side;
use sml_lex::Token;
use sml_parse_bind::{
    abstract_types, datatype, directive, exceptions, goes_on, opens, plain_directive, types,
};
use sml_scan::{above, behind, is_next, place_of};
use sml_scope::Scope;
use std::alloc::Global;
use tl_text::{Boxed, List, NoMemory, Place};

const ABSTYPE: u32 = 0;

const DATATYPE: u32 = 4;

const END: u32 = 7;

const EXCEPTION: u32 = 8;

const FUN: u32 = 10;

const IN: u32 = 13;

const INFIX: u32 = 14;

const INFIXR: u32 = 15;

const LOCAL: u32 = 17;

const NONFIX: u32 = 18;

const OPEN: u32 = 21;

const TYPE: u32 = 26;

const VAL: u32 = 27;

const WITH: u32 = 28;

/// The side and the precedence that a directive gives; a missing digit is 0.
fn given(to_right: bool, digit: Option<u8>) -> (u8, Side)
    ensures { result ≡ (grammar.digit_of digit, grammar.side_of to_right) }
{
    let precedence = match digit {
        None => 0,
        Some(digit) => digit,
    };
    let side = if to_right { Side::Right } else { Side::Left };
    (precedence, side)
}

/// Brings a directive into force for each identifier. NoMemory where none is left.
fn note_all(scope: &mut Scope, names: &[Ident], fixity: Option<(u8, Side)>) -> Result<(), NoMemory>
    ensures { OnOk result (scope.new ≡ scope.old ++ map (λ v. (v.1, fixity)) names.now) }
{
    for name in names {
        scope.note(&name.1, fixity)?;
    }
    Ok(())
}

impl<
    'a,
    E: Fn(Global, u32, Level, &mut Scope, &'a [Token]) -> Read<'a, Tall<Boxed<Exp>>>,
    D: Fn(Global, u32, &mut Scope, &'a [Token]) -> Read<'a, (Dec, u32)>,
> Inside<E, D> {
    /// Behind `infix` or `infixr`.
    fn infix(
        &self,
        place: Place,
        to_right: bool,
        scope: &mut Scope,
        tokens: &'a [Token],
    ) -> Read<'a, (Dec, u32)>
        ensures gives { Gives (λ x. (x.0, x.1.now)) result (mapped (λ x. grammar.fix_of to_right (place, x)) levels.directive tokens.now) }
        ensures moves { Moves scope.old scope.new result }
    {
        let ((digit, names), rest) = directive(self.alloc, tokens)?;
        note_all(scope, names.items(), Some(given(to_right, digit)))?;
        Ok(((Dec::Fix(place, to_right, digit, names), 1), rest))
    }

    /// Behind `nonfix`.
    fn nonfix(&self, place: Place, scope: &mut Scope, tokens: &'a [Token]) -> Read<'a, (Dec, u32)>
        ensures gives { Gives (λ x. (x.0, x.1.now)) result (mapped (λ x. grammar.nonfix_of (place, x)) levels.plain_directive tokens.now) }
        ensures moves { Moves scope.old scope.new result }
    {
        let (names, rest) = plain_directive(self.alloc, tokens)?;
        note_all(scope, names.items(), None)?;
        Ok(((Dec::Nonfix(place, names), 1), rest))
    }

    /// `in d end`
    fn shown(&self, room: u32, scope: &mut Scope, tokens: &'a [Token]) -> Read<'a, (List<Dec>, u32)>
        requires nests { Nests self.now.most (E.pre self.now.exp) (E.post self.now.exp) (D.pre self.now.dec) (D.post self.now.dec) }
        requires low { room ≤ self.now.most }
        ensures gives { Gives (λ x. (x.0, x.1.now)) result (mapped trees.decs_of (levels.shown scope.old room) tokens.now) }
        ensures moves { MovesAll scope.old scope.new result }
    {
        let rest = behind(IN, tokens)?;
        let (found, rest) = self.decs(room, scope, rest)?;
        let rest = behind(END, rest)?;
        Ok((found, rest))
    }

    /// Behind `local`.
    fn local(
        &self,
        place: Place,
        room: u32,
        scope: &mut Scope,
        tokens: &'a [Token],
    ) -> Read<'a, (Dec, u32)>
        requires nests { Nests self.now.most (E.pre self.now.exp) (E.post self.now.exp) (D.pre self.now.dec) (D.post self.now.dec) }
        requires low { room ≤ self.now.most }
        ensures gives { Gives (λ x. (x.0, x.1.now)) result (mapped (λ x. grammar.local_of (place, x)) (levels.local_dec scope.old room) tokens.now) }
        ensures moves { Moves scope.old scope.new result }
    {
        let outer = scope.count();
        let ((hidden, height), rest) = self.decs(room, scope, tokens)?;
        let inner = scope.count();
        let ((shown, other), rest) = self.shown(room, scope, rest)?;
        scope.leave_local(outer, inner)?;
        if goes_on(rest) {
            return Err(ReadError::Refused(Code::Grammar, rest));
        }
        let height = above(height, other)?;
        Ok(((Dec::Local(place, hidden, shown), height), rest))
    }

    /// `with d end`
    fn with_part(
        &self,
        room: u32,
        scope: &mut Scope,
        tokens: &'a [Token],
    ) -> Read<'a, (List<Dec>, u32)>
        requires nests { Nests self.now.most (E.pre self.now.exp) (E.post self.now.exp) (D.pre self.now.dec) (D.post self.now.dec) }
        requires low { room ≤ self.now.most }
        ensures gives { Gives (λ x. (x.0, x.1.now)) result (mapped trees.decs_of (levels.with_part scope.old room) tokens.now) }
        ensures moves { MovesAll scope.old scope.new result }
    {
        let rest = behind(WITH, tokens)?;
        let (found, rest) = self.decs(room, scope, rest)?;
        let rest = behind(END, rest)?;
        Ok((found, rest))
    }

    /// Behind `abstype`.
    fn abstype(
        &self,
        place: Place,
        room: u32,
        scope: &mut Scope,
        tokens: &'a [Token],
    ) -> Read<'a, (Dec, u32)>
        requires nests { Nests self.now.most (E.pre self.now.exp) (E.post self.now.exp) (D.pre self.now.dec) (D.post self.now.dec) }
        requires low { room ≤ self.now.most }
        ensures gives { Gives (λ x. (x.0, x.1.now)) result (mapped (λ x. grammar.abs_of (place, x)) (levels.abstype scope.old room) tokens.now) }
        ensures moves { Moves scope.old scope.new result }
    {
        let (((found, types), height), rest) = abstract_types(
            self.alloc,
            room,
            scope.fixities(),
            tokens,
        )?;
        let ((decs, other), rest) = self.with_part(room, scope, rest)?;
        if goes_on(rest) {
            return Err(ReadError::Refused(Code::Grammar, rest));
        }
        let height = above(height, other)?;
        Ok(((Dec::Abs(place, found, types, decs), height), rest))
    }

    /// `abstype`, `val` or `fun`.
    fn with_values(&self, room: u32, scope: &mut Scope, tokens: &'a [Token]) -> Read<'a, (Dec, u32)>
        requires nests { Nests self.now.most (E.pre self.now.exp) (E.post self.now.exp) (D.pre self.now.dec) (D.post self.now.dec) }
        requires low { room ≤ self.now.most }
        ensures gives { Gives (λ x. (x.0, x.1.now)) result (levels.with_values scope.old room tokens.now) }
        ensures moves { Moves scope.old scope.new result }
    {
        if is_next(ABSTYPE, tokens) {
            if room < 1 {
                return Err(ReadError::Refused(Code::Depth, tokens));
            }
            let (place, rest) = place_of(ABSTYPE, tokens)?;
            return self.abstype(place, room, scope, rest);
        }
        if is_next(VAL, tokens) {
            if room < 2 {
                return Err(ReadError::Refused(Code::Depth, tokens));
            }
            let (place, rest) = place_of(VAL, tokens)?;
            return self.vals(place, room, scope, rest);
        }
        if !is_next(FUN, tokens) {
            return Err(ReadError::Refused(Code::Grammar, tokens));
        }
        if room < 3 {
            return Err(ReadError::Refused(Code::Depth, tokens));
        }
        let (place, rest) = place_of(FUN, tokens)?;
        self.funs(place, room, scope, rest)
    }

    /// `datatype`, `type` or `exception`, or what holds expressions.
    fn with_types(&self, room: u32, scope: &mut Scope, tokens: &'a [Token]) -> Read<'a, (Dec, u32)>
        requires nests { Nests self.now.most (E.pre self.now.exp) (E.post self.now.exp) (D.pre self.now.dec) (D.post self.now.dec) }
        requires low { room ≤ self.now.most }
        ensures gives { Gives (λ x. (x.0, x.1.now)) result (levels.with_types scope.old room tokens.now) }
        ensures moves { Moves scope.old scope.new result }
    {
        if is_next(DATATYPE, tokens) {
            let (place, rest) = place_of(DATATYPE, tokens)?;
            return datatype(self.alloc, place, room, scope.fixities(), rest);
        }
        if is_next(TYPE, tokens) {
            if room < 1 {
                return Err(ReadError::Refused(Code::Depth, tokens));
            }
            let (place, rest) = place_of(TYPE, tokens)?;
            return types(self.alloc, place, room, rest);
        }
        if is_next(EXCEPTION, tokens) {
            if room < 1 {
                return Err(ReadError::Refused(Code::Depth, tokens));
            }
            let (place, rest) = place_of(EXCEPTION, tokens)?;
            return exceptions(self.alloc, place, room, scope.fixities(), rest);
        }
        self.with_values(room, scope, tokens)
    }

    /// `infixr`, `nonfix` or `local`, or what declares values or types.
    fn with_scopes(&self, room: u32, scope: &mut Scope, tokens: &'a [Token]) -> Read<'a, (Dec, u32)>
        requires nests { Nests self.now.most (E.pre self.now.exp) (E.post self.now.exp) (D.pre self.now.dec) (D.post self.now.dec) }
        requires low { room ≤ self.now.most }
        ensures gives { Gives (λ x. (x.0, x.1.now)) result (levels.with_scopes scope.old room tokens.now) }
        ensures moves { Moves scope.old scope.new result }
    {
        if is_next(INFIXR, tokens) {
            let (place, rest) = place_of(INFIXR, tokens)?;
            return self.infix(place, true, scope, rest);
        }
        if is_next(NONFIX, tokens) {
            let (place, rest) = place_of(NONFIX, tokens)?;
            return self.nonfix(place, scope, rest);
        }
        if is_next(LOCAL, tokens) {
            let (place, rest) = place_of(LOCAL, tokens)?;
            return self.local(place, room, scope, rest);
        }
        self.with_types(room, scope, tokens)
    }

    /// A declaration, where what stands inside has this room.
    pub fn declaration(
        &self,
        room: u32,
        scope: &mut Scope,
        tokens: &'a [Token],
    ) -> Read<'a, (Dec, u32)>
        requires nests { Nests self.now.most (E.pre self.now.exp) (E.post self.now.exp) (D.pre self.now.dec) (D.post self.now.dec) }
        requires low { room ≤ self.now.most }
        ensures gives { Gives (λ x. (x.0, x.1.now)) result (levels.declaration scope.old room tokens.now) }
        ensures moves { Moves scope.old scope.new result }
    {
        if is_next(OPEN, tokens) {
            let (place, rest) = place_of(OPEN, tokens)?;
            return opens(self.alloc, place, rest);
        }
        if is_next(INFIX, tokens) {
            let (place, rest) = place_of(INFIX, tokens)?;
            return self.infix(place, false, scope, rest);
        }
        self.with_scopes(room, scope, tokens)
    }
}
