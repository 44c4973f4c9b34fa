ghost use Rattle.std.specs.Prelude.{◌≡◌, ◌≤◌, ◌+◌, OnOk, Some, false, length, take};
ghost use Rattle.readers.specs.Reader.{mapped};
ghost use Rattle.readers.specs.Given.{Gives};
ghost use Rattle.sml_grammar_mod.specs.ReadStrs as read;
ghost use Rattle.sml_grammar_mod.specs.Strs as grammar;
ghost use Rattle.sml_parse_mod.specs.Levels as levels;
ghost use Rattle.sml_parse_mod.specs.Nested.{Nests, Moves, MovesAll};
ghost use Rattle.sml_parse_mod.specs.Trees as trees;
ghost use Rattle.sml_grammar.specs.Words.{CLOSE_PAREN as CLOSES, END as ENDS};

use crate::first::begins_str;
use crate::inside::{Inside, Read};
use crate::tree::{call, let_tree, named};
use readers::{Code, ReadError};
use sml_ast::{Ident, StrDec, StrExp};
use sml_lex::Token;
use sml_parse_bind::long_strid;
use sml_parse_sig::{is_strid, strid};
use sml_scan::{above, behind, is_next, place_of};
use sml_scope::Scope;
use std::alloc::Global;
use tl_text::Place;

const END: u32 = 7;

const IN: u32 = 13;

const LET: u32 = 16;

const STRUCT: u32 = 37;

const OPEN_PAREN: u32 = 40;

const CLOSE_PAREN: u32 = 41;

impl<
    'a,
    B: Fn(Global, u32, &mut Scope, &'a [Token]) -> Read<'a, (StrExp, u32)>,
    D: Fn(Global, u32, &mut Scope, &'a [Token]) -> Read<'a, (StrDec, u32)>,
> Inside<B, D> {
    /// Behind `struct`, whose place is given.
    fn body(
        &self,
        place: Place,
        room: u32,
        scope: &mut Scope,
        tokens: &'a [Token],
    ) -> Read<'a, (StrExp, u32)>
        requires nests { Nests self.now.most (B.pre self.now.base) (B.post self.now.base) (D.pre self.now.dec) (D.post self.now.dec) }
        requires low { room ≤ self.now.most }
        ensures gives { Gives (λ x. (x.0, x.1.now)) result (mapped (λ ds. grammar.body_of (place, ds)) (levels.closed_decs ENDS scope.old room) tokens.now) }
        ensures keeps { OnOk result (scope.new ≡ scope.old) }
    {
        let ((found, height), rest) = self.scoped_decs(END, room, scope, tokens)?;
        let height = above(height, 0)?;
        Ok(((StrExp::Body(place, found), height), rest))
    }

    /// `in e end`
    fn shown(&self, room: u32, scope: &mut Scope, tokens: &'a [Token]) -> Read<'a, (StrExp, u32)>
        requires nests { Nests self.now.most (B.pre self.now.base) (B.post self.now.base) (D.pre self.now.dec) (D.post self.now.dec) }
        requires low { room ≤ self.now.most }
        ensures gives { Gives (λ x. (x.0, x.1.now)) result (levels.shown_str scope.old room tokens.now) }
        ensures keeps { OnOk result (scope.new ≡ scope.old) }
    {
        let rest = behind(IN, tokens)?;
        let (found, rest) = self.str_exp(room, scope, rest)?;
        let rest = behind(END, rest)?;
        Ok((found, rest))
    }

    /// `in e end`, behind which only the directives up to this one are in force.
    fn left_shown(
        &self,
        outer: usize,
        room: u32,
        scope: &mut Scope,
        tokens: &'a [Token],
    ) -> Read<'a, (StrExp, u32)>
        requires nests { Nests self.now.most (B.pre self.now.base) (B.post self.now.base) (D.pre self.now.dec) (D.post self.now.dec) }
        requires low { room ≤ self.now.most }
        requires within { outer ≤ length scope.old }
        ensures gives { Gives (λ x. (x.0, x.1.now)) result (levels.shown_str scope.old room tokens.now) }
        ensures left { OnOk result (scope.new ≡ take outer scope.old) }
    {
        let (found, rest) = self.shown(room, scope, tokens)?;
        scope.leave(outer)?;
        Ok((found, rest))
    }

    /// Behind `let`, whose place is given.
    #[tactic(auto, using(crate::proofs::Scopes::front_short))]
    #[inline(never)]
    fn let_str(
        &self,
        place: Place,
        room: u32,
        scope: &mut Scope,
        tokens: &'a [Token],
    ) -> Read<'a, (StrExp, u32)>
        requires nests { Nests self.now.most (B.pre self.now.base) (B.post self.now.base) (D.pre self.now.dec) (D.post self.now.dec) }
        requires low { room ≤ self.now.most }
        ensures gives { Gives (λ x. (x.0, x.1.now)) result (mapped (λ x. grammar.let_str_of (place, x)) (levels.let_str scope.old room) tokens.now) }
        ensures keeps { OnOk result (scope.new ≡ scope.old) }
    {
        let outer = scope.count();
        let (decs, rest) = self.decs(room, scope, tokens)?;
        let (found, rest) = self.left_shown(outer, room, scope, rest)?;
        Ok((let_tree(self.alloc, place, decs, found)?, rest))
    }

    /// `e)`, the argument of this functor.
    fn given(
        &self,
        functor: Ident,
        room: u32,
        scope: &mut Scope,
        tokens: &'a [Token],
    ) -> Read<'a, (StrExp, u32)>
        requires nests { Nests self.now.most (B.pre self.now.base) (B.post self.now.base) (D.pre self.now.dec) (D.post self.now.dec) }
        requires low { room ≤ self.now.most }
        ensures gives { Gives (λ x. (x.0, x.1.now)) result (mapped (λ e. grammar.call_of (functor, e)) (levels.given scope.old room) tokens.now) }
        ensures keeps { OnOk result (scope.new ≡ scope.old) }
    {
        let (found, rest) = self.str_exp(room, scope, tokens)?;
        let rest = behind(CLOSE_PAREN, rest)?;
        Ok((call(self.alloc, functor, found)?, rest))
    }

    /// Behind the name of this functor and an opening parenthesis.
    fn argument(
        &self,
        functor: Ident,
        room: u32,
        scope: &mut Scope,
        tokens: &'a [Token],
    ) -> Read<'a, (StrExp, u32)>
        requires nests { Nests self.now.most (B.pre self.now.base) (B.post self.now.base) (D.pre self.now.dec) (D.post self.now.dec) }
        requires low { room ≤ self.now.most }
        ensures gives { Gives (λ x. (x.0, x.1.now)) result (mapped (λ a. read.named_of (functor, Some a)) (levels.argument scope.old room) tokens.now) }
        ensures keeps { OnOk result (scope.new ≡ scope.old) }
    {
        if begins_str(tokens) {
            if room < 1 {
                return Err(ReadError::Refused(Code::Depth, tokens));
            }
            return self.given(functor, room, scope, tokens);
        }
        let ((found, height), rest) = self.scoped_decs(CLOSE_PAREN, room, scope, tokens)?;
        let height = above(height, 0)?;
        Ok(((StrExp::CallBody(functor.0, functor, found), height), rest))
    }

    /// A structure, or a functor with its argument.
    #[inline(never)]
    fn named(&self, room: u32, scope: &mut Scope, tokens: &'a [Token]) -> Read<'a, (StrExp, u32)>
        requires nests { Nests self.now.most (B.pre self.now.base) (B.post self.now.base) (D.pre self.now.dec) (D.post self.now.dec) }
        requires low { room ≤ self.now.most }
        ensures gives { Gives (λ x. (x.0, x.1.now)) result (levels.named scope.old room tokens.now) }
        ensures keeps { OnOk result (scope.new ≡ scope.old) }
    {
        let (name, rest) = strid(self.alloc, tokens)?;
        if !is_next(OPEN_PAREN, rest) {
            return Ok((named(self.alloc, name)?, rest));
        }
        let rest = behind(OPEN_PAREN, rest)?;
        self.argument(name, room, scope, rest)
    }

    /// A structure expression without ascription, where what stands inside has this room.
    pub fn base_level(
        &self,
        room: u32,
        scope: &mut Scope,
        tokens: &'a [Token],
    ) -> Read<'a, (StrExp, u32)>
        requires nests { Nests self.now.most (B.pre self.now.base) (B.post self.now.base) (D.pre self.now.dec) (D.post self.now.dec) }
        requires low { room ≤ self.now.most }
        ensures gives { Gives (λ x. (x.0, x.1.now)) result (levels.base scope.old room tokens.now) }
        ensures keeps { OnOk result (scope.new ≡ scope.old) }
    {
        if is_next(STRUCT, tokens) {
            let (place, rest) = place_of(STRUCT, tokens)?;
            return self.body(place, room, scope, rest);
        }
        if is_next(LET, tokens) {
            if room < 1 {
                return Err(ReadError::Refused(Code::Depth, tokens));
            }
            let (place, rest) = place_of(LET, tokens)?;
            return self.let_str(place, room, scope, rest);
        }
        if is_strid(tokens) {
            return self.named(room, scope, tokens);
        }
        let (name, rest) = long_strid(self.alloc, tokens)?;
        Ok(((StrExp::At(name.0, name), 1), rest))
    }
}
