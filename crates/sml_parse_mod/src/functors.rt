ghost use Rattle.std.specs.Prelude.{◌≡◌, IfOk, OnOk, Some, false};
ghost use Rattle.readers.specs.Reader.{mapped};
ghost use Rattle.readers.specs.Given.{Gives};
ghost use Rattle.sml_grammar_mod.specs.ReadStrs as read;
ghost use Rattle.sml_grammar_mod.specs.Strs as grammar;
ghost use Rattle.sml_parse_mod.specs.Levels as levels;
ghost use Rattle.sml_parse_mod.specs.Params as params;
ghost use Rattle.sml_parse_mod.specs.Trees as trees;

use crate::ascription::ascription;
use crate::first::begins_grow;
use crate::growing::{Growing, grown_bind};
use crate::inside::{Read, base};
use crate::tree::{added, optional, with_height, with_turn};
use crate::turn::{after, turned};
use readers::{Code, ReadError, refusal};
use sml_ast::{Ascribe, FunBind, Ident, SigExp, Spec, StrExp};
use sml_lex::Token;
use sml_parse_bind::higher;
use sml_parse_sig::{enclosed, is_strid, sig_exp, strid};
use sml_scan::behind;
use sml_scope::Scope;
use std::alloc::Global;
use tl_text::{List, NoMemory};

const OPEN_PAREN: u32 = 40;

const CLOSE_PAREN: u32 = 41;

const COLON: u32 = 47;

const EQUALS: u32 = 53;

/// What stands in the parentheses of a functor: a structure with its signature, or specifications alone; with the height.
#[derive(Drop)]
enum Param {
    Named(Ident, (SigExp, u32)),
    Opened((List<Spec>, u32)),
}

/// The front of a binding, up to the `=`.
type Front = (Ident, (Param, Option<(Ascribe, u32)>));

/// A binding of a functor as far as it was read.
type Bind = (Front, Growing);

/// `X : G)`
fn named(alloc: Global, room: u32, tokens: &[Token]) -> Read<'_, (Ident, (SigExp, u32))>
    ensures { Gives (λ x. (x.0, x.1.now)) result (levels.param_named room tokens.now) }
{
    let (name, rest) = strid(alloc, tokens)?;
    let rest = behind(COLON, rest)?;
    let (found, rest) = sig_exp(alloc, room, rest)?;
    let rest = behind(CLOSE_PAREN, rest)?;
    Ok(((name, found), rest))
}

/// `val x : t)`
fn opened(alloc: Global, room: u32, tokens: &[Token]) -> Read<'_, Param>
    ensures { Gives (λ x. (x.0, x.1.now)) result (params.opened room tokens.now) }
{
    let (found, rest) = enclosed(alloc, room, tokens)?;
    Ok((Param::Opened(found), rest))
}

/// `(X : G)`, `(val x : t)`
fn parameter(alloc: Global, room: u32, tokens: &[Token]) -> Read<'_, Param>
    ensures { Gives (λ x. (x.0, x.1.now)) result (mapped trees.param (read.param_read room) tokens.now) }
{
    let rest = behind(OPEN_PAREN, tokens)?;
    if is_strid(rest) {
        let ((name, found), rest) = named(alloc, room, rest)?;
        return Ok((Param::Named(name, found), rest));
    }
    opened(alloc, room, rest)
}

/// `F (X : G) : H`, before the `=`.
fn front(alloc: Global, room: u32, tokens: &[Token]) -> Read<'_, Front>
    ensures { Gives (λ x. (x.0, x.1.now)) result (mapped trees.front (levels.functor_front room) tokens.now) }
{
    let (name, rest) = strid(alloc, tokens)?;
    let (param, rest) = parameter(alloc, room, rest)?;
    let (found, rest) = ascription(alloc, room, rest)?;
    Ok(((name, (param, found)), rest))
}

/// `= e`, as far as the first ascription.
fn value<'a>(alloc: Global, room: u32, scope: &mut Scope, tokens: &'a [Token]) -> Read<'a, Growing>
    ensures gives { Gives (λ x. (trees.growing x.0, x.1.now)) result (levels.value scope.old room tokens.now) }
    ensures keeps { OnOk result (scope.new ≡ scope.old) }
{
    let rest = behind(EQUALS, tokens)?;
    let (found, rest) = base(alloc, room, scope, rest)?;
    Ok((Growing::Whole(found), rest))
}

/// `F (X : G) : H = e`, as far as the first ascription behind the `=`.
fn bind<'a>(alloc: Global, room: u32, scope: &mut Scope, tokens: &'a [Token]) -> Read<'a, Bind>
    ensures gives { Gives (λ x. (trees.bind x.0, x.1.now)) result (levels.functor scope.old room tokens.now) }
    ensures keeps { OnOk result (scope.new ≡ scope.old) }
{
    let (front, rest) = front(alloc, room, tokens)?;
    let (found, rest) = value(alloc, room, scope, rest)?;
    Ok(((front, found), rest))
}

/// The binding of these parts, the last of which are without their heights.
fn funbind_tree(
    name: Ident,
    param: Param,
    ascription: Option<Ascribe>,
    body: StrExp,
) -> (FunBind, u32)
    ensures { result ≡ trees.funbind_tree name param ascription body }
{
    match param {
        Param::Named(arg, sig) => (
            FunBind::FunOf(name.0, name, arg, sig.0, ascription, body),
            sig.1,
        ),
        Param::Opened(specs) => (
            FunBind::FunSpecs(name.0, name, specs.0, ascription, body),
            specs.1,
        ),
    }
}

/// The binding of this front and this structure expression.
fn funbind_over(front: Front, body: (StrExp, u32)) -> Result<(FunBind, u32), NoMemory>
    ensures { IfOk result (λ x. x ≡ trees.funbind_made (front, body)) }
{
    let (name, (param, ascription)) = front;
    let (ascription, sealed) = optional(ascription);
    let (found, inner) = funbind_tree(name, param, ascription, body.0);
    with_height(found, higher(higher(inner, sealed), body.1))
}

/// The binding with all of its structure expression.
fn funbind(alloc: Global, bind: Bind) -> Result<(FunBind, u32), NoMemory>
    ensures { IfOk result (λ x. x ≡ trees.funbind_made (bind.0, read.grown_str (trees.growing bind.1))) }
{
    let (front, body) = grown_bind(alloc, bind)?;
    funbind_over(front, body)
}

/// This binding, which is done, and the next one.
fn follow<'a>(
    alloc: Global,
    last: Bind,
    room: u32,
    scope: &mut Scope,
    tokens: &'a [Token],
) -> Read<'a, (Option<(FunBind, u32)>, Bind)>
    ensures gives { Gives (λ x. (trees.stepped x.0, x.1.now)) result (mapped (λ y. (Some (trees.funbind_made (last.0, read.grown_str (trees.growing last.1))), y)) (levels.functor scope.old room) tokens.now) }
    ensures keeps { OnOk result (scope.new ≡ scope.old) }
{
    let done = funbind(alloc, last)?;
    after(done, bind(alloc, room, scope, tokens))
}

/// Behind this binding, where it goes on or another one follows: the binding where it is done, and the one that is last then.
fn step<'a>(
    alloc: Global,
    last: Bind,
    room: u32,
    scope: &mut Scope,
    tokens: &'a [Token],
) -> Read<'a, (Option<(FunBind, u32)>, Bind)>
    ensures gives { Gives (λ x. (trees.stepped x.0, x.1.now)) result (mapped (trees.step trees.funbind_made (trees.bind last)) (read.turn_read (levels.functor scope.old room) room (trees.bind last)) tokens.now) }
    ensures keeps { OnOk result (scope.new ≡ scope.old) }
{
    let ((goes_on, next), rest) = turned(alloc, last, room, tokens)?;
    if goes_on {
        return Ok(((None, next), rest));
    }
    follow(alloc, next, room, scope, rest)
}

/// Bindings of functors with `and` between.
fn binds<'a>(
    alloc: Global,
    room: u32,
    scope: &mut Scope,
    tokens: &'a [Token],
) -> Read<'a, (List<FunBind>, u32)>
    ensures gives { Gives (λ x. (x.0, x.1.now)) result (mapped trees.funbinds (levels.functors scope.old room) tokens.now) }
    ensures keeps { OnOk result (scope.new ≡ scope.old) }
{
    let (mut last, mut rest) = bind(alloc, room, scope, tokens)?;
    let mut row = (List::new(alloc), 0);
    'turns: while begins_grow(rest) {
        let (turn, after) = step(alloc, last, room, scope, rest)?;
        let (more, next) = with_turn(row, turn)?;
        row = more;
        last = next;
        rest = after;
    }
    let end = funbind(alloc, last)?;
    Ok((added(row, end)?, rest))
}

/// Bindings of functors, where what stands inside has this room.
fn level<'a>(
    alloc: Global,
    room: u32,
    scope: &mut Scope,
    tokens: &'a [Token],
) -> Read<'a, (List<FunBind>, u32)>
    ensures gives { Gives (λ x. (x.0, x.1.now)) result (mapped trees.funbinds (read.funbinds_level (read.base_read room false scope.old) room) tokens.now) }
    ensures keeps { OnOk result (scope.new ≡ scope.old) }
{
    if !is_strid(tokens) {
        return Err(ReadError::Refused(Code::Grammar, tokens));
    }
    if room < 1 {
        return Err(ReadError::Refused(Code::Depth, tokens));
    }
    binds(alloc, room, scope, tokens)
}

/// Bindings of functors of at most this height, and the height of the highest.
#[tactic(auto, unfolding(sml_grammar_mod::specs::ReadStrs::funbinds_read))]
pub fn functors<'a>(
    alloc: Global,
    room: u32,
    scope: &mut Scope,
    tokens: &'a [Token],
) -> Read<'a, (List<FunBind>, u32)>
    ensures gives { Gives (λ x. (x.0, x.1.now)) result (mapped trees.funbinds (read.funbinds_read room false scope.old) tokens.now) }
    ensures keeps { OnOk result (scope.new ≡ scope.old) }
{
    if room == 0 {
        return Err(ReadError::Refused(refusal(is_strid(tokens)), tokens));
    }
    level(alloc, room - 1, scope, tokens)
}
