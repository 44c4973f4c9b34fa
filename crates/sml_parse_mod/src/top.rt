ghost use Rattle.std.specs.Prelude.{◌≡◌, IfOk, OnOk, false};
ghost use Rattle.readers.specs.Reader.{head_is, mapped};
ghost use Rattle.readers.specs.Given.{Gives};
ghost use Rattle.sml_grammar_mod.specs.Programs as grammar;
ghost use Rattle.sml_grammar_mod.specs.ReadPrograms as read;
ghost use Rattle.sml_grammar_mod.specs.ReadStrs as strs;
ghost use Rattle.sml_parse_mod.specs.Levels as levels;
ghost use Rattle.sml_parse_mod.specs.Nested.{MovesTop};
ghost use Rattle.sml_parse_mod.specs.Trees as trees;

use crate::first::{begins_exp, begins_top, goes_on};
use crate::functors::functors;
use crate::inside::{Read, strdec};
use crate::tree::{exp_place, strdec_place, with_height};
use readers::{Code, ReadError, refusal};
use sml_ast::{SigBind, Top};
use sml_lex::Token;
use sml_parse_bind::higher;
use sml_parse_exp::exp;
use sml_parse_sig::{Named, is_strid, signatures};
use sml_scan::{above, is_next, place_of};
use sml_scope::Scope;
use std::alloc::Global;
use tl_text::{List, NoMemory, Place};

const FUNCTOR: u32 = 32;

const SIGNATURE: u32 = 36;

/// Bindings of signatures from identifiers with their signatures, and the height of the highest.
fn sigbinds_of(alloc: Global, items: List<Named>) -> Result<(List<SigBind>, u32), NoMemory>
    ensures { IfOk result (λ x. x ≡ trees.sigbinds_of items) }
{
    let mut found = List::new(alloc);
    let mut height = 0;
    for (name, sig) in items.into_vec() {
        height = higher(height, above(sig.1, 0)?);
        found.push(SigBind::SigAs(name.0, name, sig.0))?;
    }
    Ok((found, height))
}

/// Bindings of signatures of at most this height, and the height of the highest.
fn sigbinds(alloc: Global, room: u32, tokens: &[Token]) -> Read<'_, (List<SigBind>, u32)>
    ensures { Gives (λ x. (x.0, x.1.now)) result (mapped trees.sigbinds (strs.sigbinds_read room) tokens.now) }
{
    if !is_strid(tokens) {
        return Err(ReadError::Refused(Code::Grammar, tokens));
    }
    if room < 2 {
        return Err(ReadError::Refused(Code::Depth, tokens));
    }
    let (found, rest) = signatures(alloc, room - 1, tokens)?;
    Ok((sigbinds_of(alloc, found)?, rest))
}

/// Behind `signature`, whose place is given.
fn sigs(alloc: Global, place: Place, room: u32, tokens: &[Token]) -> Read<'_, (Top, u32)>
    ensures { Gives (λ x. (x.0, x.1.now)) result (mapped (λ x. grammar.sigs_of (place, x)) (levels.sigs room) tokens.now) }
{
    let ((found, height), rest) = sigbinds(alloc, room, tokens)?;
    if goes_on(rest) {
        return Err(ReadError::Refused(Code::Grammar, rest));
    }
    Ok((with_height(Top::Sigs(place, found), height)?, rest))
}

/// Behind `functor`, whose place is given.
fn funs<'a>(
    alloc: Global,
    place: Place,
    room: u32,
    scope: &mut Scope,
    tokens: &'a [Token],
) -> Read<'a, (Top, u32)>
    ensures gives { Gives (λ x. (x.0, x.1.now)) result (mapped (λ x. grammar.funs_of (place, x)) (levels.funs scope.old room) tokens.now) }
    ensures keeps { OnOk result (scope.new ≡ scope.old) }
{
    let ((found, height), rest) = functors(alloc, room, scope, tokens)?;
    if goes_on(rest) {
        return Err(ReadError::Refused(Code::Grammar, rest));
    }
    Ok((with_height(Top::Funs(place, found), height)?, rest))
}

/// A declaration at structure level.
fn strs<'a>(
    alloc: Global,
    room: u32,
    scope: &mut Scope,
    tokens: &'a [Token],
) -> Read<'a, (Top, u32)>
    ensures gives { Gives (λ x. (x.0, x.1.now)) result (mapped grammar.strs_of (strs.strdec_read room false scope.old) tokens.now) }
    ensures moves { MovesTop scope.old scope.new result }
{
    let (found, rest) = strdec(alloc, room, scope, tokens)?;
    let place = strdec_place(&found.0);
    Ok((with_height(Top::Strs(place, found.0), found.1)?, rest))
}

/// A top-level declaration, where what stands inside has this room.
fn top_level<'a>(
    alloc: Global,
    room: u32,
    scope: &mut Scope,
    tokens: &'a [Token],
) -> Read<'a, (Top, u32)>
    ensures gives { Gives (λ x. (x.0, x.1.now)) result (levels.top_level scope.old room tokens.now) }
    ensures moves { MovesTop scope.old scope.new result }
{
    if is_next(SIGNATURE, tokens) {
        if room < 2 {
            return Err(ReadError::Refused(Code::Depth, tokens));
        }
        let (place, rest) = place_of(SIGNATURE, tokens)?;
        return sigs(alloc, place, room, rest);
    }
    if is_next(FUNCTOR, tokens) {
        if room < 2 {
            return Err(ReadError::Refused(Code::Depth, tokens));
        }
        let (place, rest) = place_of(FUNCTOR, tokens)?;
        return funs(alloc, place, room, scope, rest);
    }
    strs(alloc, room, scope, tokens)
}

/// A top-level declaration of at most this height. Its directives come into force.
#[tactic(auto, unfolding(sml_grammar_mod::specs::ReadPrograms::top_read))]
pub fn top<'a>(
    alloc: Global,
    room: u32,
    scope: &mut Scope,
    tokens: &'a [Token],
) -> Read<'a, (Top, u32)>
    ensures gives { Gives (λ x. (x.0, x.1.now)) result (read.top_read room false scope.old tokens.now) }
    ensures moves { MovesTop scope.old scope.new result }
{
    if room == 0 {
        return Err(ReadError::Refused(refusal(begins_top(tokens)), tokens));
    }
    top_level(alloc, room - 1, scope, tokens)
}

/// An expression that stands as a top-level declaration, where it has this room.
fn run_level<'a>(
    alloc: Global,
    room: u32,
    scope: &mut Scope,
    tokens: &'a [Token],
) -> Read<'a, (Top, u32)>
    ensures gives { Gives (λ x. (x.0, x.1.now)) result (levels.run_level scope.old room tokens.now) }
    ensures moves { MovesTop scope.old scope.new result }
{
    if !begins_exp(scope.fixities(), tokens) {
        return Err(ReadError::Refused(Code::Grammar, tokens));
    }
    if room < 2 {
        return Err(ReadError::Refused(Code::Depth, tokens));
    }
    let (found, rest) = exp(alloc, room, scope, tokens)?;
    if goes_on(rest) {
        return Err(ReadError::Refused(Code::Grammar, rest));
    }
    let place = exp_place(found.tree.get());
    Ok((
        with_height(Top::Run(place, found.tree.into_inner()), found.height)?,
        rest,
    ))
}

/// The same of at most this height.
#[tactic(auto, unfolding(sml_grammar_mod::specs::ReadPrograms::run_read))]
pub fn run<'a>(
    alloc: Global,
    room: u32,
    scope: &mut Scope,
    tokens: &'a [Token],
) -> Read<'a, (Top, u32)>
    ensures gives { Gives (λ x. (x.0, x.1.now)) result (read.run_read room false scope.old tokens.now) }
    ensures moves { MovesTop scope.old scope.new result }
{
    if room == 0 {
        let begins = begins_exp(scope.fixities(), tokens);
        return Err(ReadError::Refused(refusal(begins), tokens));
    }
    run_level(alloc, room - 1, scope, tokens)
}
