ghost use Rattle.std.specs.Prelude.{◌≡◌, ◌≤◌, ◌+◌, IfOk, OnOk, Some, false};
ghost use Rattle.readers.specs.Reader.{mapped};
ghost use Rattle.readers.specs.Given.{Gives};
ghost use Rattle.sml_grammar_mod.specs.ReadStrs as read;
ghost use Rattle.sml_grammar_mod.specs.Strs as grammar;
ghost use Rattle.sml_parse_mod.specs.Levels as levels;
ghost use Rattle.sml_parse_mod.specs.Nested.{Nests, Moves, MovesAll};
ghost use Rattle.sml_parse_mod.specs.Trees as trees;
ghost use Rattle.sml_grammar.specs.Tokens.{alphas, tokens_of};

use crate::ascription::ascription;
use crate::first::begins_grow;
use crate::growing::{Growing, grown_bind};
use crate::inside::{Inside, Read};
use crate::tree::{added, optional, with_height};
use crate::turn::{after, turned};
use readers::{Code, ReadError, refusal};
use sml_ast::{Ascribe, Ident, StrBind, StrDec, StrExp};
use sml_lex::Token;
use sml_parse_bind::higher;
use sml_parse_sig::{is_strid, strid};
use sml_scan::behind;
use sml_scope::Scope;
use std::alloc::Global;
use tl_text::{Boxed, List, NoMemory};

const EQUALS: u32 = 53;

/// The front of a binding, up to the `=`.
type Front = (Ident, Option<(Ascribe, u32)>);

/// A binding of a structure as far as it was read: its front, and the structure expression behind it. It is on the heap, so that a
/// row inside a row takes little of the stack.
type Bind = Boxed<(Front, Growing)>;

/// What a turn of a row of bindings gives: the binding where it is done, and the one that is last then.
type Step = (Option<(Boxed<StrBind>, u32)>, Bind);

/// The binding of this front and this structure expression.
fn strbind_over(front: Front, body: (StrExp, u32)) -> Result<(StrBind, u32), NoMemory>
    ensures { IfOk result (λ x. x ≡ grammar.strbind_of (front, body)) }
{
    let (name, ascription) = front;
    let (ascription, sealed) = optional(ascription);
    let height = higher(sealed, body.1);
    with_height(StrBind::Bind(name.0, name, ascription, body.0), height)
}

/// The binding with all of its structure expression. A function of its own, so that the stack holds no more than the box.
#[inline(never)]
fn strbind(alloc: Global, bind: Bind) -> Result<(Boxed<StrBind>, u32), NoMemory>
    ensures { IfOk result (λ x. x ≡ grammar.strbind_of (bind.0, read.grown_str (trees.growing bind.1))) }
{
    let (front, body) = grown_bind(alloc, bind.into_inner())?;
    let (tree, height) = strbind_over(front, body)?;
    Ok((Boxed::new(alloc, tree)?, height))
}

/// A row of bindings and the height of its highest, with one more.
#[inline(never)]
fn with_last(
    row: (List<StrBind>, u32),
    last: (Boxed<StrBind>, u32),
) -> Result<(List<StrBind>, u32), NoMemory>
    ensures { IfOk result (λ x. x ≡ trees.added row last) }
{
    added(row, (last.0.into_inner(), last.1))
}

/// A row of bindings behind a turn, which hands on the binding that comes after it.
#[inline(never)]
fn with_step(
    row: (List<StrBind>, u32),
    turn: Step,
) -> Result<((List<StrBind>, u32), Bind), NoMemory>
    ensures { IfOk result (λ x. x ≡ (trees.with_done row turn.0, turn.1)) }
{
    let (done, last) = turn;
    match done {
        None => Ok((row, last)),
        Some(done) => Ok((with_last(row, done)?, last)),
    }
}

/// Behind this binding: whether it goes on, and the binding then. Where it is done, another one follows.
#[inline(never)]
fn turned_bind<'a>(
    alloc: Global,
    last: Bind,
    room: u32,
    tokens: &'a [Token],
) -> Read<'a, (bool, Bind)>
    ensures { Gives (λ x. (trees.judged x.0, x.1.now)) result (mapped (trees.goes_on (trees.bind last)) (levels.turn room (trees.growing last.1)) tokens.now) }
{
    let ((goes_on, next), rest) = turned(alloc, last.into_inner(), room, tokens)?;
    Ok(((goes_on, Boxed::new(alloc, next)?), rest))
}

impl<
    'a,
    B: Fn(Global, u32, &mut Scope, &'a [Token]) -> Read<'a, (StrExp, u32)>,
    D: Fn(Global, u32, &mut Scope, &'a [Token]) -> Read<'a, (StrDec, u32)>,
> Inside<B, D> {
    /// `S : G`, before the `=`.
    #[inline(never)]
    fn front(&self, room: u32, tokens: &'a [Token]) -> Read<'a, Front>
        requires nests { Nests self.now.most (B.pre self.now.base) (B.post self.now.base) (D.pre self.now.dec) (D.post self.now.dec) }
        requires low { room ≤ self.now.most }
        ensures gives { Gives (λ x. (x.0, x.1.now)) result (levels.front room tokens.now) }
    {
        let (name, rest) = strid(self.alloc, tokens)?;
        let (found, rest) = ascription(self.alloc, room, rest)?;
        Ok(((name, found), rest))
    }

    /// `= e`, as far as the first ascription.
    fn value(&self, room: u32, scope: &mut Scope, tokens: &'a [Token]) -> Read<'a, Growing>
        requires nests { Nests self.now.most (B.pre self.now.base) (B.post self.now.base) (D.pre self.now.dec) (D.post self.now.dec) }
        requires low { room ≤ self.now.most }
        ensures gives { Gives (λ x. (trees.growing x.0, x.1.now)) result (levels.value scope.old room tokens.now) }
        ensures keeps { OnOk result (scope.new ≡ scope.old) }
    {
        let rest = behind(EQUALS, tokens)?;
        let (found, rest) = self.base(room, scope, rest)?;
        Ok((Growing::Whole(found), rest))
    }

    /// `S : G = e`, as far as the first ascription behind the `=`.
    fn bind(&self, room: u32, scope: &mut Scope, tokens: &'a [Token]) -> Read<'a, Bind>
        requires nests { Nests self.now.most (B.pre self.now.base) (B.post self.now.base) (D.pre self.now.dec) (D.post self.now.dec) }
        requires low { room ≤ self.now.most }
        ensures gives { Gives (λ x. (trees.bind x.0, x.1.now)) result (levels.bind scope.old room tokens.now) }
        ensures keeps { OnOk result (scope.new ≡ scope.old) }
    {
        let (front, rest) = self.front(room, tokens)?;
        let (found, rest) = self.value(room, scope, rest)?;
        Ok((Boxed::new(self.alloc, (front, found))?, rest))
    }

    /// This binding, which is done, and the next one.
    #[inline(never)]
    fn follow(
        &self,
        last: Bind,
        room: u32,
        scope: &mut Scope,
        tokens: &'a [Token],
    ) -> Read<'a, Step>
        requires nests { Nests self.now.most (B.pre self.now.base) (B.post self.now.base) (D.pre self.now.dec) (D.post self.now.dec) }
        requires low { room ≤ self.now.most }
        ensures gives { Gives (λ x. (trees.stepped x.0, x.1.now)) result (mapped (λ y. (Some (grammar.strbind_of (last.0, read.grown_str (trees.growing last.1))), y)) (levels.bind scope.old room) tokens.now) }
        ensures keeps { OnOk result (scope.new ≡ scope.old) }
    {
        let done = strbind(self.alloc, last)?;
        after(done, self.bind(room, scope, tokens))
    }

    /// Behind this binding, where it goes on or another one follows: the binding where it is done, and the one that is last then.
    #[inline(never)]
    fn step(&self, last: Bind, room: u32, scope: &mut Scope, tokens: &'a [Token]) -> Read<'a, Step>
        requires nests { Nests self.now.most (B.pre self.now.base) (B.post self.now.base) (D.pre self.now.dec) (D.post self.now.dec) }
        requires low { room ≤ self.now.most }
        ensures gives { Gives (λ x. (trees.stepped x.0, x.1.now)) result (mapped (trees.step grammar.strbind_of (trees.bind last)) (read.turn_read (levels.bind scope.old room) room (trees.bind last)) tokens.now) }
        ensures keeps { OnOk result (scope.new ≡ scope.old) }
    {
        let ((goes_on, next), rest) = turned_bind(self.alloc, last, room, tokens)?;
        if goes_on {
            return Ok(((None, next), rest));
        }
        self.follow(next, room, scope, rest)
    }

    /// What follows this binding of a structure, and the bindings behind it, with `and` between. A function of its own, so that the
    /// stack does not hold it while the first binding is read.
    #[inline(never)]
    fn binds_behind(
        &self,
        first: Bind,
        room: u32,
        scope: &mut Scope,
        tokens: &'a [Token],
    ) -> Read<'a, (List<StrBind>, u32)>
        requires nests { Nests self.now.most (B.pre self.now.base) (B.post self.now.base) (D.pre self.now.dec) (D.post self.now.dec) }
        requires low { room ≤ self.now.most }
        ensures gives { Gives (λ x. (x.0, x.1.now)) result (mapped trees.strbinds (levels.binds_behind scope.old room (trees.bind first)) tokens.now) }
        ensures keeps { OnOk result (scope.new ≡ scope.old) }
    {
        let mut last = first;
        let mut rest = tokens;
        let mut row = (List::new(self.alloc), 0);
        'turns: while begins_grow(rest) {
            let (turn, after) = self.step(last, room, scope, rest)?;
            let (more, next) = with_step(row, turn)?;
            row = more;
            last = next;
            rest = after;
        }
        let end = strbind(self.alloc, last)?;
        Ok((with_last(row, end)?, rest))
    }

    /// Bindings of structures with `and` between.
    fn binds(
        &self,
        room: u32,
        scope: &mut Scope,
        tokens: &'a [Token],
    ) -> Read<'a, (List<StrBind>, u32)>
        requires nests { Nests self.now.most (B.pre self.now.base) (B.post self.now.base) (D.pre self.now.dec) (D.post self.now.dec) }
        requires low { room ≤ self.now.most }
        ensures gives { Gives (λ x. (x.0, x.1.now)) result (mapped trees.strbinds (levels.binds scope.old room) tokens.now) }
        ensures keeps { OnOk result (scope.new ≡ scope.old) }
    {
        let (first, rest) = self.bind(room, scope, tokens)?;
        self.binds_behind(first, room, scope, rest)
    }

    /// Bindings of structures, where the structure expressions have this room.
    fn binds_level(
        &self,
        room: u32,
        scope: &mut Scope,
        tokens: &'a [Token],
    ) -> Read<'a, (List<StrBind>, u32)>
        requires nests { Nests self.now.most (B.pre self.now.base) (B.post self.now.base) (D.pre self.now.dec) (D.post self.now.dec) }
        requires low { room ≤ self.now.most }
        ensures gives { Gives (λ x. (x.0, x.1.now)) result (mapped trees.strbinds (read.strbinds_level (read.base_read room false scope.old) room) tokens.now) }
        ensures keeps { OnOk result (scope.new ≡ scope.old) }
    {
        if !is_strid(tokens) {
            return Err(ReadError::Refused(Code::Grammar, tokens));
        }
        if room < 1 {
            return Err(ReadError::Refused(Code::Depth, tokens));
        }
        self.binds(room, scope, tokens)
    }

    /// Bindings of structures of at most this height.
    #[tactic(auto, unfolding(sml_grammar_mod::specs::ReadStrs::strbinds_read))]
    pub fn strbinds(
        &self,
        room: u32,
        scope: &mut Scope,
        tokens: &'a [Token],
    ) -> Read<'a, (List<StrBind>, u32)>
        requires nests { Nests self.now.most (B.pre self.now.base) (B.post self.now.base) (D.pre self.now.dec) (D.post self.now.dec) }
        requires low { room ≤ self.now.most }
        ensures gives { Gives (λ x. (x.0, x.1.now)) result (mapped trees.strbinds (read.strbinds_read room false scope.old) tokens.now) }
        ensures keeps { OnOk result (scope.new ≡ scope.old) }
    {
        if room == 0 {
            return Err(ReadError::Refused(refusal(is_strid(tokens)), tokens));
        }
        self.binds_level(room - 1, scope, tokens)
    }
}
