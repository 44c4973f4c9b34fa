ghost use Rattle.std.specs.Prelude.{◌≡◌, ◌≤◌, ◌+◌, OnOk, false};
ghost use Rattle.readers.specs.Reader.{mapped};
ghost use Rattle.readers.specs.Given.{Gives};
ghost use Rattle.sml_grammar_mod.specs.ReadStrs as read;
ghost use Rattle.sml_grammar_mod.specs.Strs as grammar;
ghost use Rattle.sml_parse_mod.specs.Levels as levels;
ghost use Rattle.sml_parse_mod.specs.Nested.{Nests, Moves, MovesAll};
ghost use Rattle.sml_parse_mod.specs.Trees as trees;

use crate::first::{begins_grow, begins_str, begins_strdec};
use crate::growing::{Growing, grown, with};
use crate::turn::grow;
use readers::{Code, ReadError, refusal};
use sml_ast::{StrDec, StrExp};
use sml_lex::Token;
use sml_scope::Scope;
use std::alloc::Global;

/// What was read, and the tokens behind it.
pub type Read<'a, T> = Result<(T, &'a [Token]), ReadError<'a, Token>>;

/// This structure expression with the ascriptions that follow it, where no `and` of a row may follow. A function of its own, so
/// that the stack does not hold it while the structure expression is read.
#[inline(never)]
fn all_grown<'a>(
    alloc: Global,
    room: u32,
    found: (StrExp, u32),
    tokens: &'a [Token],
) -> Read<'a, (StrExp, u32)>
    ensures { Gives (λ x. (x.0, x.1.now)) result (levels.all_grown room found tokens.now) }
{
    let mut growing = Growing::Whole(found);
    let mut rest = tokens;
    'ascriptions: while begins_grow(rest) {
        let (more, after) = grow(alloc, room, &growing, rest)?;
        growing = with(alloc, growing, more)?;
        rest = after;
    }
    Ok((grown(alloc, growing)?, rest))
}

/// The forms of structure expressions and of declarations, over readers of those that stand inside.
#[derive(Clone, Copy)]
pub struct Inside<B, D> {
    pub alloc: Global,
    /// How high what stands inside may be.
    pub most: u32,
    pub base: B,
    pub dec: D,
}

impl<
    'a,
    B: Fn(Global, u32, &mut Scope, &'a [Token]) -> Read<'a, (StrExp, u32)>,
    D: Fn(Global, u32, &mut Scope, &'a [Token]) -> Read<'a, (StrDec, u32)>,
> Inside<B, D> {
    /// A structure expression without ascription that stands inside.
    pub fn base(&self, room: u32, scope: &mut Scope, tokens: &'a [Token]) -> Read<'a, (StrExp, u32)>
        requires nests { Nests self.now.most (B.pre self.now.base) (B.post self.now.base) (D.pre self.now.dec) (D.post self.now.dec) }
        requires low { room ≤ self.now.most }
        ensures gives { Gives (λ x. (x.0, x.1.now)) result (read.base_read room false scope.old tokens.now) }
        ensures keeps { OnOk result (scope.new ≡ scope.old) }
    {
        (self.base)(self.alloc, room, scope, tokens)
    }

    /// A declaration that stands inside.
    pub fn dec(&self, room: u32, scope: &mut Scope, tokens: &'a [Token]) -> Read<'a, (StrDec, u32)>
        requires nests { Nests self.now.most (B.pre self.now.base) (B.post self.now.base) (D.pre self.now.dec) (D.post self.now.dec) }
        requires low { room ≤ self.now.most }
        ensures gives { Gives (λ x. (x.0, x.1.now)) result (read.strdec_read room false scope.old tokens.now) }
        ensures moves { Moves scope.old scope.new result }
    {
        (self.dec)(self.alloc, room, scope, tokens)
    }

    /// A structure expression that stands inside, where no `and` of a row may follow.
    #[inline(never)]
    pub fn str_exp(
        &self,
        room: u32,
        scope: &mut Scope,
        tokens: &'a [Token],
    ) -> Read<'a, (StrExp, u32)>
        requires nests { Nests self.now.most (B.pre self.now.base) (B.post self.now.base) (D.pre self.now.dec) (D.post self.now.dec) }
        requires low { room ≤ self.now.most }
        ensures gives { Gives (λ x. (x.0, x.1.now)) result (read.str_read room false scope.old tokens.now) }
        ensures keeps { OnOk result (scope.new ≡ scope.old) }
    {
        let (found, rest) = self.base(room, scope, tokens)?;
        all_grown(self.alloc, room, found, rest)
    }
}

/// The structure expression without ascription that is next, of at most this height. The directives in force stay.
///
/// # Errors
/// Grammar, Depth, FixityClash at the first token with which none goes on. NoMemory where none is left. The directives in force
/// are then not said.
#[cycle(parse)]
#[tactic(auto, unfolding(sml_grammar_mod::specs::ReadStrs::base_read))]
pub fn base<'a>(
    alloc: Global,
    room: u32,
    scope: &mut Scope,
    tokens: &'a [Token],
) -> Read<'a, (StrExp, u32)>
    ensures gives { Gives (λ x. (x.0, x.1.now)) result (read.base_read room false scope.old tokens.now) }
    ensures keeps { OnOk result (scope.new ≡ scope.old) }
{
    if room == 0 {
        return Err(ReadError::Refused(refusal(begins_str(tokens)), tokens));
    }
    Inside {
        alloc,
        most: room - 1,
        base,
        dec: strdec,
    }
    .base_level(room - 1, scope, tokens)
}

/// The declaration at structure level that is next, of at most this height. Its directives come into force.
///
/// # Errors
/// Grammar, Depth, FixityClash at the first token with which none goes on. NoMemory where none is left. The directives in force
/// are then not said.
#[cycle(parse)]
#[tactic(auto, unfolding(sml_grammar_mod::specs::ReadStrs::strdec_read))]
pub fn strdec<'a>(
    alloc: Global,
    room: u32,
    scope: &mut Scope,
    tokens: &'a [Token],
) -> Read<'a, (StrDec, u32)>
    ensures gives { Gives (λ x. (x.0, x.1.now)) result (read.strdec_read room false scope.old tokens.now) }
    ensures moves { Moves scope.old scope.new result }
{
    if room == 0 {
        return Err(ReadError::Refused(refusal(begins_strdec(tokens)), tokens));
    }
    Inside {
        alloc,
        most: room - 1,
        base,
        dec: strdec,
    }
    .declaration(room - 1, scope, tokens)
}
