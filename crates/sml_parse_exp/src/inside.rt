ghost use Rattle.std.specs.Prelude.{◌≡◌, ◌≤◌, OnOk, false};
ghost use Rattle.readers.specs.Given.{Gives};
ghost use Rattle.sml_grammar_exp.specs.ReadLevels as read;
ghost use Rattle.sml_parse_exp.specs.Levels as levels;
ghost use Rattle.sml_parse_exp.specs.Nested.{Nests, Moves};
ghost use Rattle.sml_parse_exp.specs.Trees as trees;

use crate::first::{begins_at, begins_dec, begins_exp};
use crate::tall::Tall;
use readers::{Code, Floor, ReadError, refusal};
use sml_ast::{Dec, Exp};
use sml_lex::Token;
use sml_scope::Scope;
use std::alloc::Global;
use tl_text::Boxed;

/// What was read, and the tokens behind it.
pub type Read<'a, T> = Result<(T, &'a [Token]), ReadError<'a, Token>>;

/// What is read: an expression, what stands behind `andalso` or `orelse`, or a row of operators that stands on a floor.
#[derive(Clone, Copy)]
pub enum Level {
    Whole,
    BehindAnd,
    BehindOr,
    Row(Floor),
}

/// The forms of expressions and declarations, over readers of those that stand inside.
#[derive(Clone, Copy)]
pub struct Inside<E, D> {
    pub alloc: Global,
    /// How high what stands inside may be.
    pub most: u32,
    pub exp: E,
    pub dec: D,
}

impl<
    'a,
    E: Fn(Global, u32, Level, &mut Scope, &'a [Token]) -> Read<'a, Tall<Boxed<Exp>>>,
    D: Fn(Global, u32, &mut Scope, &'a [Token]) -> Read<'a, (Dec, u32)>,
> Inside<E, D> {
    /// An expression that stands inside.
    pub fn exp(
        &self,
        room: u32,
        scope: &mut Scope,
        tokens: &'a [Token],
    ) -> Read<'a, Tall<Boxed<Exp>>>
        requires nests { Nests self.now.most (E.pre self.now.exp) (E.post self.now.exp) (D.pre self.now.dec) (D.post self.now.dec) }
        requires low { room ≤ self.now.most }
        ensures gives { Gives (λ x. (trees.seen x.0, x.1.now)) result (levels.exp scope.old room tokens.now) }
        ensures keeps { OnOk result (scope.new ≡ scope.old) }
    {
        (self.exp)(self.alloc, room, Level::Whole, scope, tokens)
    }

    /// What stands behind `andalso`.
    pub fn behind_and(
        &self,
        room: u32,
        scope: &mut Scope,
        tokens: &'a [Token],
    ) -> Read<'a, Tall<Boxed<Exp>>>
        requires nests { Nests self.now.most (E.pre self.now.exp) (E.post self.now.exp) (D.pre self.now.dec) (D.post self.now.dec) }
        requires low { room ≤ self.now.most }
        ensures gives { Gives (λ x. (trees.seen x.0, x.1.now)) result (read.behind_and_read room false scope.old tokens.now) }
        ensures keeps { OnOk result (scope.new ≡ scope.old) }
    {
        (self.exp)(self.alloc, room, Level::BehindAnd, scope, tokens)
    }

    /// What stands behind `orelse`.
    pub fn behind_or(
        &self,
        room: u32,
        scope: &mut Scope,
        tokens: &'a [Token],
    ) -> Read<'a, Tall<Boxed<Exp>>>
        requires nests { Nests self.now.most (E.pre self.now.exp) (E.post self.now.exp) (D.pre self.now.dec) (D.post self.now.dec) }
        requires low { room ≤ self.now.most }
        ensures gives { Gives (λ x. (trees.seen x.0, x.1.now)) result (read.behind_or_read room false scope.old tokens.now) }
        ensures keeps { OnOk result (scope.new ≡ scope.old) }
    {
        (self.exp)(self.alloc, room, Level::BehindOr, scope, tokens)
    }

    /// A row that stands on the right of an operator.
    pub fn right(
        &self,
        room: u32,
        floor: Floor,
        scope: &mut Scope,
        tokens: &'a [Token],
    ) -> Read<'a, Tall<Boxed<Exp>>>
        requires nests { Nests self.now.most (E.pre self.now.exp) (E.post self.now.exp) (D.pre self.now.dec) (D.post self.now.dec) }
        requires low { room ≤ self.now.most }
        ensures gives { Gives (λ x. (trees.seen x.0, x.1.now)) result (read.row_read room false floor scope.old tokens.now) }
        ensures keeps { OnOk result (scope.new ≡ scope.old) }
    {
        (self.exp)(self.alloc, room, Level::Row(floor), scope, tokens)
    }

    /// A declaration that stands inside.
    pub fn dec(&self, room: u32, scope: &mut Scope, tokens: &'a [Token]) -> Read<'a, (Dec, u32)>
        requires nests { Nests self.now.most (E.pre self.now.exp) (E.post self.now.exp) (D.pre self.now.dec) (D.post self.now.dec) }
        requires low { room ≤ self.now.most }
        ensures gives { Gives (λ x. (x.0, x.1.now)) result (read.dec_read room false scope.old tokens.now) }
        ensures moves { Moves scope.old scope.new result }
    {
        (self.dec)(self.alloc, room, scope, tokens)
    }

    /// An expression.
    fn whole(&self, room: u32, scope: &mut Scope, tokens: &'a [Token]) -> Read<'a, Tall<Boxed<Exp>>>
        requires nests { Nests self.now.most (E.pre self.now.exp) (E.post self.now.exp) (D.pre self.now.dec) (D.post self.now.dec) }
        requires low { room ≤ self.now.most }
        ensures gives { Gives (λ x. (trees.seen x.0, x.1.now)) result (levels.whole scope.old room tokens.now) }
        ensures keeps { OnOk result (scope.new ≡ scope.old) }
    {
        if !begins_at(scope.fixities(), tokens) {
            return self.far(room, scope, tokens);
        }
        if room < 1 {
            return Err(ReadError::Refused(Code::Depth, tokens));
        }
        self.handled(room, scope, tokens)
    }

    /// What stands behind `andalso`: what is as tight as a row with a type, or reaches far.
    fn and_operand(
        &self,
        room: u32,
        scope: &mut Scope,
        tokens: &'a [Token],
    ) -> Read<'a, Tall<Boxed<Exp>>>
        requires nests { Nests self.now.most (E.pre self.now.exp) (E.post self.now.exp) (D.pre self.now.dec) (D.post self.now.dec) }
        requires low { room ≤ self.now.most }
        ensures gives { Gives (λ x. (trees.seen x.0, x.1.now)) result (levels.and_operand scope.old room tokens.now) }
        ensures keeps { OnOk result (scope.new ≡ scope.old) }
    {
        if !begins_at(scope.fixities(), tokens) {
            return self.far(room, scope, tokens);
        }
        if room < 1 {
            return Err(ReadError::Refused(Code::Depth, tokens));
        }
        self.typed(room, scope, tokens)
    }

    /// What stands behind `orelse`: what is as tight as `andalso`, or reaches far.
    fn or_operand(
        &self,
        room: u32,
        scope: &mut Scope,
        tokens: &'a [Token],
    ) -> Read<'a, Tall<Boxed<Exp>>>
        requires nests { Nests self.now.most (E.pre self.now.exp) (E.post self.now.exp) (D.pre self.now.dec) (D.post self.now.dec) }
        requires low { room ≤ self.now.most }
        ensures gives { Gives (λ x. (trees.seen x.0, x.1.now)) result (levels.or_operand scope.old room tokens.now) }
        ensures keeps { OnOk result (scope.new ≡ scope.old) }
    {
        if !begins_at(scope.fixities(), tokens) {
            return self.far(room, scope, tokens);
        }
        if room < 1 {
            return Err(ReadError::Refused(Code::Depth, tokens));
        }
        self.and_also(room, scope, tokens)
    }
}

/// Whether what is read may begin with the next token.
fn begins(level: Level, scope: &Scope, tokens: &[Token]) -> bool
    ensures { result ≡ levels.begins scope.now level tokens.now }
{
    match level {
        Level::Row(_) => begins_at(scope.fixities(), tokens),
        _ => begins_exp(scope.fixities(), tokens),
    }
}

/// The expression or the part of one that is next, of at most this height.
#[cycle(parse)]
#[tactic(auto, unfolding(sml_grammar_exp::specs::ReadLevels::exp_read, sml_grammar_exp::specs::ReadLevels::behind_and_read, sml_grammar_exp::specs::ReadLevels::behind_or_read, sml_grammar_exp::specs::ReadLevels::row_read))]
fn phrase<'a>(
    alloc: Global,
    room: u32,
    level: Level,
    scope: &mut Scope,
    tokens: &'a [Token],
) -> Read<'a, Tall<Boxed<Exp>>>
    ensures gives { Gives (λ x. (trees.seen x.0, x.1.now)) result (levels.phrase scope.old room level tokens.now) }
    ensures keeps { OnOk result (scope.new ≡ scope.old) }
{
    if room == 0 {
        return Err(ReadError::Refused(refusal(begins(level, scope, tokens)), tokens));
    }
    let inside = Inside {
        alloc,
        most: room - 1,
        exp: phrase,
        dec,
    };
    match level {
        Level::Whole => inside.whole(room - 1, scope, tokens),
        Level::BehindAnd => inside.and_operand(room - 1, scope, tokens),
        Level::BehindOr => inside.or_operand(room - 1, scope, tokens),
        Level::Row(floor) => inside.row(room - 1, floor, scope, tokens),
    }
}

/// The expression that is next, of at most this height, as far as the tokens go on with it. The directives in force stay.
///
/// # Errors
/// Grammar, Depth, FixityClash at the first token with which no expression goes on. NoMemory where none is left. The directives
/// in force are then not said.
pub fn exp<'a>(
    alloc: Global,
    room: u32,
    scope: &mut Scope,
    tokens: &'a [Token],
) -> Read<'a, Tall<Boxed<Exp>>>
    ensures gives { Gives (λ x. (trees.seen x.0, x.1.now)) result (read.exp_read room false scope.old tokens.now) }
    ensures keeps { OnOk result (scope.new ≡ scope.old) }
{
    phrase(alloc, room, Level::Whole, scope, tokens)
}

/// The declaration that is next, of at most this height, as far as the tokens go on with it. Its directives come into force.
///
/// # Errors
/// Grammar, Depth, FixityClash at the first token with which no declaration goes on. NoMemory where none is left. The directives
/// in force are then not said.
#[cycle(parse)]
#[tactic(auto, unfolding(sml_grammar_exp::specs::ReadLevels::dec_read))]
pub fn dec<'a>(
    alloc: Global,
    room: u32,
    scope: &mut Scope,
    tokens: &'a [Token],
) -> Read<'a, (Dec, u32)>
    ensures gives { Gives (λ x. (x.0, x.1.now)) result (read.dec_read room false scope.old tokens.now) }
    ensures moves { Moves scope.old scope.new result }
{
    if room == 0 {
        return Err(ReadError::Refused(refusal(begins_dec(tokens)), tokens));
    }
    Inside {
        alloc,
        most: room - 1,
        exp: phrase,
        dec,
    }
    .declaration(room - 1, scope, tokens)
}
