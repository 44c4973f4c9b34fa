ghost use Rattle.std.specs.Prelude.{◌≡◌, ◌≤◌, OnOk, false};
ghost use Rattle.readers.specs.Reader.{mapped};
ghost use Rattle.readers.specs.Forms.{seps};
ghost use Rattle.readers.specs.Given.{Gives};
ghost use Rattle.sml_grammar.specs.Words.{AND as SEPARATES};
ghost use Rattle.sml_grammar.specs.Tokens.{is};
ghost use Rattle.sml_grammar_exp.specs.Decs as grammar;
ghost use Rattle.sml_parse_exp.specs.Levels as levels;
ghost use Rattle.sml_parse_exp.specs.Nested.{Nests, Moves};
ghost use Rattle.sml_parse_exp.specs.Trees as trees;

use crate::inside::{Inside, Level, Read};
use crate::tall::{Tall, higher};
use readers::{Code, ReadError};
use sml_ast::{Dec, Exp, Pat};
use sml_lex::Token;
use sml_parse_bind::{goes_on, listed, under_two};
use sml_parse_pat::pat;
use sml_scan::{above, behind, is_next};
use sml_scope::Scope;
use std::alloc::Global;
use tl_text::{Boxed, List, Place};

const REC: u32 = 24;

const AND: u32 = 56;

impl<
    'a,
    E: Fn(Global, u32, Level, &mut Scope, &'a [Token]) -> Read<'a, Tall<Boxed<Exp>>>,
    D: Fn(Global, u32, &mut Scope, &'a [Token]) -> Read<'a, (Dec, u32)>,
> Inside<E, D> {
    /// `p = e`, with the height of the higher part.
    fn binding(
        &self,
        room: u32,
        scope: &mut Scope,
        tokens: &'a [Token],
    ) -> Read<'a, ((Pat, Exp), u32)>
        requires nests { Nests self.now.most (E.pre self.now.exp) (E.post self.now.exp) (D.pre self.now.dec) (D.post self.now.dec) }
        requires low { room ≤ self.now.most }
        ensures gives { Gives (λ x. (x.0, x.1.now)) result (mapped levels.bind_of (levels.binding scope.old room) tokens.now) }
        ensures keeps { OnOk result (scope.new ≡ scope.old) }
    {
        let (pat, rest) = pat(self.alloc, room, scope.fixities(), tokens)?;
        let (exp, rest) = self.value(room, scope, rest)?;
        let height = higher(pat.1, exp.height);
        Ok((((pat.0, exp.tree.into_inner()), height), rest))
    }

    /// One binding or more.
    fn bindings(
        &self,
        room: u32,
        scope: &mut Scope,
        tokens: &'a [Token],
    ) -> Read<'a, (List<(Pat, Exp)>, u32)>
        requires nests { Nests self.now.most (E.pre self.now.exp) (E.post self.now.exp) (D.pre self.now.dec) (D.post self.now.dec) }
        requires low { room ≤ self.now.most }
        ensures gives { Gives (λ x. (x.0, x.1.now)) result (mapped trees.binds_of (seps (is SEPARATES) (levels.binding scope.old room)) tokens.now) }
        ensures keeps { OnOk result (scope.new ≡ scope.old) }
    {
        let (first, mut rest) = self.binding(room, scope, tokens)?;
        let mut found = List::new(self.alloc);
        let mut height = first.1;
        found.push(first.0)?;
        'items: while is_next(AND, rest) {
            let after = behind(AND, rest)?;
            let (other, after) = self.binding(room, scope, after)?;
            height = higher(height, other.1);
            found.push(other.0)?;
            rest = after;
        }
        Ok(((found, height), rest))
    }

    /// `p = e and q = f`, `rec p = e`: whether `rec` is there, and the bindings.
    fn values(
        &self,
        room: u32,
        scope: &mut Scope,
        tokens: &'a [Token],
    ) -> Read<'a, ((bool, List<(Pat, Exp)>), u32)>
        requires nests { Nests self.now.most (E.pre self.now.exp) (E.post self.now.exp) (D.pre self.now.dec) (D.post self.now.dec) }
        requires low { room ≤ self.now.most }
        ensures gives { Gives (λ x. (x.0, x.1.now)) result (mapped levels.values_of (levels.values scope.old room) tokens.now) }
        ensures keeps { OnOk result (scope.new ≡ scope.old) }
    {
        if is_next(REC, tokens) {
            let rest = behind(REC, tokens)?;
            let ((found, height), rest) = self.bindings(room, scope, rest)?;
            return Ok((((true, found), height), rest));
        }
        let ((found, height), rest) = self.bindings(room, scope, tokens)?;
        Ok((((false, found), height), rest))
    }

    /// Behind `val`.
    pub fn vals(
        &self,
        place: Place,
        room: u32,
        scope: &mut Scope,
        tokens: &'a [Token],
    ) -> Read<'a, (Dec, u32)>
        requires nests { Nests self.now.most (E.pre self.now.exp) (E.post self.now.exp) (D.pre self.now.dec) (D.post self.now.dec) }
        requires low { room ≤ self.now.most }
        ensures gives { Gives (λ x. (x.0, x.1.now)) result (mapped (λ x. grammar.vals_of (place, x)) (levels.vals scope.old room) tokens.now) }
        ensures moves { Moves scope.old scope.new result }
    {
        let (vars, rest) = under_two(self.alloc, tokens)?;
        let (((is_rec, found), height), rest) = self.values(room, scope, rest)?;
        if goes_on(rest) {
            return Err(ReadError::Refused(Code::Grammar, rest));
        }
        let height = above(height, 0)?;
        let vars = listed(self.alloc, vars);
        Ok(((Dec::Vals(place, vars, is_rec, found), height), rest))
    }
}
