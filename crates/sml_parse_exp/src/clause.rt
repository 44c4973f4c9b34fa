ghost use Rattle.std.specs.Prelude.{◌≡◌, ◌≤◌, OnOk, false};
ghost use Rattle.readers.specs.Reader.{mapped};
ghost use Rattle.readers.specs.Forms.{seps};
ghost use Rattle.readers.specs.Given.{Gives};
ghost use Rattle.sml_grammar_exp.specs.Decs as grammar;
ghost use Rattle.sml_grammar_exp.specs.ReadDecs as read;
ghost use Rattle.sml_grammar_exp.specs.ReadLevels as knot;
ghost use Rattle.sml_parse_exp.specs.Clauses as spec;
ghost use Rattle.sml_parse_exp.specs.Levels as levels;
ghost use Rattle.sml_parse_exp.specs.Nested.{Nests, Moves};
ghost use Rattle.sml_parse_exp.specs.Trees as trees;

use crate::fun_tree::clause;
use crate::inside::{Inside, Level, Read};
use crate::tall::{Tall, higher, takes_bar};
use readers::{Code, ReadError, refusal};
use sml_ast::{Clause, Dec, Exp, Ty};
use sml_fix::Fixities;
use sml_lex::Token;
use sml_parse_bind::{Head, begins_head, clause_front, goes_on, listed, under_by};
use sml_parse_ty::ty;
use sml_scan::{above, behind, is_next};
use sml_scope::Scope;
use std::alloc::Global;
use tl_text::{Boxed, List, Place};

const COLON: u32 = 47;

const BAR: u32 = 52;

const AND: u32 = 56;

/// `: t`, where it is next.
fn result_ty(alloc: Global, room: u32, tokens: &[Token]) -> Read<'_, Option<(Ty, u32)>>
    ensures { Gives (λ x. (x.0, x.1.now)) result (levels.result_ty room tokens.now) }
{
    if !is_next(COLON, tokens) {
        return Ok((None, tokens));
    }
    if room < 1 {
        return Err(ReadError::Refused(Code::Depth, tokens));
    }
    let rest = behind(COLON, tokens)?;
    let (ty, rest) = ty(alloc, room, rest)?;
    Ok((Some(ty), rest))
}

/// `f p q : t`, with the height of the higher part.
fn front<'a>(
    alloc: Global,
    room: u32,
    some_operator: bool,
    fix: &Fixities,
    tokens: &'a [Token],
) -> Read<'a, ((Head, Option<Ty>), u32)>
    ensures { Gives (λ x. (x.0, x.1.now)) result (mapped spec.front (spec.front_read some_operator fix.now room) tokens.now) }
{
    let ((found, height), rest) = clause_front(alloc, room, some_operator, fix, tokens)?;
    let (ty, rest) = result_ty(alloc, room, rest)?;
    match ty {
        None => Ok((((found, None), higher(height, 0)), rest)),
        Some((ty, other)) => Ok((((found, Some(ty)), higher(height, other)), rest)),
    }
}

impl<
    'a,
    E: Fn(Global, u32, Level, &mut Scope, &'a [Token]) -> Read<'a, Tall<Boxed<Exp>>>,
    D: Fn(Global, u32, &mut Scope, &'a [Token]) -> Read<'a, (Dec, u32)>,
> Inside<E, D> {
    /// A clause, where what stands inside has this room.
    fn clause_level(
        &self,
        room: u32,
        scope: &mut Scope,
        tokens: &'a [Token],
    ) -> Read<'a, Tall<Clause>>
        requires nests { Nests self.now.most (E.pre self.now.exp) (E.post self.now.exp) (D.pre self.now.dec) (D.post self.now.dec) }
        requires low { room ≤ self.now.most }
        ensures gives { Gives (λ x. (trees.seen x.0, x.1.now)) result (levels.clause_level scope.old room tokens.now) }
        ensures keeps { OnOk result (scope.new ≡ scope.old) }
    {
        let some_operator = scope.has_operator();
        if !begins_head(some_operator, scope.fixities(), tokens) {
            return Err(ReadError::Refused(Code::Grammar, tokens));
        }
        if room < 2 {
            return Err(ReadError::Refused(Code::Depth, tokens));
        }
        let (((head, ty), height), rest) = front(
            self.alloc,
            room,
            some_operator,
            scope.fixities(),
            tokens,
        )?;
        let (body, rest) = self.value(room, scope, rest)?;
        Ok((clause(head, ty, height, body)?, rest))
    }

    /// A clause of at most this height.
    #[tactic(auto, unfolding(sml_grammar_exp::specs::ReadLevels::clause_read))]
    fn clause(&self, room: u32, scope: &mut Scope, tokens: &'a [Token]) -> Read<'a, Tall<Clause>>
        requires nests { Nests self.now.most (E.pre self.now.exp) (E.post self.now.exp) (D.pre self.now.dec) (D.post self.now.dec) }
        requires low { room ≤ self.now.most }
        ensures gives { Gives (λ x. (trees.seen x.0, x.1.now)) result (knot.clause_read room false scope.old tokens.now) }
        ensures keeps { OnOk result (scope.new ≡ scope.old) }
    {
        if room == 0 {
            let begins = begins_head(scope.has_operator(), scope.fixities(), tokens);
            return Err(ReadError::Refused(refusal(begins), tokens));
        }
        self.clause_level(room - 1, scope, tokens)
    }

    /// The clauses of a function; a bar belongs to the nearest match.
    fn clauses(
        &self,
        room: u32,
        scope: &mut Scope,
        tokens: &'a [Token],
    ) -> Read<'a, (List<Clause>, u32)>
        requires nests { Nests self.now.most (E.pre self.now.exp) (E.post self.now.exp) (D.pre self.now.dec) (D.post self.now.dec) }
        requires low { room ≤ self.now.most }
        ensures gives { Gives (λ x. (x.0, x.1.now)) result (mapped trees.clauses_of (levels.clauses scope.old room) tokens.now) }
        ensures keeps { OnOk result (scope.new ≡ scope.old) }
    {
        let (first, mut rest) = self.clause(room, scope, tokens)?;
        let mut found = List::new(self.alloc);
        let mut ends = first.ends;
        let mut height = first.height;
        found.push(first.tree)?;
        'clauses: while is_next(BAR, rest) {
            if takes_bar(ends) {
                return Err(ReadError::Refused(Code::Grammar, rest));
            }
            let after = behind(BAR, rest)?;
            let (other, after) = self.clause(room, scope, after)?;
            ends = other.ends;
            height = higher(height, other.height);
            found.push(other.tree)?;
            rest = after;
        }
        Ok(((found, height), rest))
    }

    /// One function or more.
    fn functions(
        &self,
        room: u32,
        scope: &mut Scope,
        tokens: &'a [Token],
    ) -> Read<'a, (List<List<Clause>>, u32)>
        requires nests { Nests self.now.most (E.pre self.now.exp) (E.post self.now.exp) (D.pre self.now.dec) (D.post self.now.dec) }
        requires low { room ≤ self.now.most }
        ensures gives { Gives (λ x. (x.0, x.1.now)) result (mapped trees.functions_of (read.clauses_read (knot.clause_read room false scope.old)) tokens.now) }
        ensures keeps { OnOk result (scope.new ≡ scope.old) }
    {
        let (first, mut rest) = self.clauses(room, scope, tokens)?;
        let mut found = List::new(self.alloc);
        let mut height = first.1;
        found.push(first.0)?;
        'items: while is_next(AND, rest) {
            let after = behind(AND, rest)?;
            let (other, after) = self.clauses(room, scope, after)?;
            height = higher(height, other.1);
            found.push(other.0)?;
            rest = after;
        }
        Ok(((found, height), rest))
    }

    /// Behind `fun`.
    pub fn funs(
        &self,
        place: Place,
        room: u32,
        scope: &mut Scope,
        tokens: &'a [Token],
    ) -> Read<'a, (Dec, u32)>
        requires nests { Nests self.now.most (E.pre self.now.exp) (E.post self.now.exp) (D.pre self.now.dec) (D.post self.now.dec) }
        requires low { room ≤ self.now.most }
        ensures gives { Gives (λ x. (x.0, x.1.now)) result (mapped (λ x. grammar.funs_of (place, x)) (levels.funs scope.old room) tokens.now) }
        ensures moves { Moves scope.old scope.new result }
    {
        let (vars, rest) = under_by(self.alloc, scope.has_operator(), tokens)?;
        let ((found, height), rest) = self.functions(room, scope, rest)?;
        if goes_on(rest) {
            return Err(ReadError::Refused(Code::Grammar, rest));
        }
        let height = above(height, 0)?;
        let vars = listed(self.alloc, vars);
        Ok(((Dec::Funs(place, vars, found), height), rest))
    }
}
