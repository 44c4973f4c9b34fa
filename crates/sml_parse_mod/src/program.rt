ghost use Rattle.std.specs.Prelude.{◌≡◌, ◌≤◌, OnOk, false};
ghost use Rattle.readers.specs.Reader.{first, head_is, mapped, token_by};
ghost use Rattle.readers.specs.Given.{Gives};
ghost use Rattle.sml_grammar_mod.specs.Programs as grammar;
ghost use Rattle.sml_grammar_mod.specs.ReadPrograms as read;
ghost use Rattle.sml_parse_mod.specs.Levels as levels;
ghost use Rattle.sml_parse_mod.specs.Nested.{MovesItem, MovesProgram, MovesTop, MovesTops};
ghost use Rattle.sml_parse_mod.specs.Trees as trees;

use crate::decs::semis;
use crate::first::{begins_top, is_end};
use crate::inside::Read;
use crate::top::{run, top};
use crate::tree::{top_place, with_height};
use readers::{Code, ReadError};
use sml_ast::{Program, Top};
use sml_lex::Token;
use sml_parse_bind::higher;
use sml_scan::{is_next, place_of};
use sml_scope::Scope;
use std::alloc::Global;
use tl_text::{List, Place};

const SEMICOLON: u32 = 49;

/// What stands before a top-level declaration: nothing or a semicolon, a declaration, an expression.
#[derive(Clone, Copy)]
enum Before {
    Fresh,
    Declared,
    Evaluated,
}

/// What stands before the next one where no semicolon does.
fn behind_top(top: &Top) -> Before
    ensures { trees.before result ≡ grammar.behind_top top.now }
{
    match top {
        Top::Run(..) => Before::Evaluated,
        Top::Strs(..) => Before::Declared,
        Top::Sigs(..) => Before::Declared,
        Top::Funs(..) => Before::Declared,
    }
}

/// What may stand behind this: an expression only at the start or behind a semicolon, nothing right behind one.
fn here<'a>(
    alloc: Global,
    before: Before,
    room: u32,
    scope: &mut Scope,
    tokens: &'a [Token],
) -> Read<'a, (Top, u32)>
    ensures gives { Gives (λ x. (x.0, x.1.now)) result (levels.here scope.old room (trees.before before) tokens.now) }
    ensures moves { MovesTop scope.old scope.new result }
{
    match before {
        Before::Fresh => {
            if begins_top(tokens) {
                top(alloc, room, scope, tokens)
            } else {
                run(alloc, room, scope, tokens)
            }
        }
        Before::Declared => top(alloc, room, scope, tokens),
        Before::Evaluated => Err(ReadError::Refused(Code::Grammar, tokens)),
    }
}

/// A top-level declaration and the semicolons behind it, and what stands before the next one.
fn item<'a>(
    alloc: Global,
    before: Before,
    room: u32,
    scope: &mut Scope,
    tokens: &'a [Token],
) -> Read<'a, ((Top, u32), Before)>
    ensures gives { Gives (λ x. (trees.item x.0, x.1.now)) result (mapped trees.item_seen (levels.item scope.old room (trees.before before)) tokens.now) }
    ensures moves { MovesItem scope.old scope.new result }
{
    let (found, rest) = here(alloc, before, room, scope, tokens)?;
    if is_next(SEMICOLON, rest) {
        let ((), rest) = semis(rest)?;
        return Ok(((found, Before::Fresh), rest));
    }
    let before = behind_top(&found.0);
    Ok(((found, before), rest))
}

/// Whether a token is next that does not end the source.
fn goes_further(tokens: &[Token]) -> bool
    ensures { result ≡ head_is read.going_on (first tokens.now) }
{
    match tokens {
        [] => false,
        [_, ..] => !is_end(tokens),
    }
}

/// Top-level declarations up to the end of the source, and the height of the highest.
fn items<'a>(
    alloc: Global,
    room: u32,
    scope: &mut Scope,
    tokens: &'a [Token],
) -> Read<'a, (List<Top>, u32)>
    ensures gives { Gives (λ x. (x.0, x.1.now)) result (mapped trees.tops (levels.items scope.old room) tokens.now) }
    ensures moves { MovesTops scope.old scope.new result }
{
    let mut found = List::new(alloc);
    let mut height = 0;
    let mut before = Before::Fresh;
    let mut rest = tokens;
    'items: while goes_further(rest) {
        let ((top, next), after) = item(alloc, before, room, scope, rest)?;
        height = higher(height, top.1);
        found.push(top.0)?;
        before = next;
        rest = after;
    }
    Ok(((found, height), rest))
}

/// The place of the first semicolon, where one is next, and the tokens behind them all.
fn opening(tokens: &[Token]) -> Read<'_, Option<Place>>
    ensures { Gives (λ x. (x.0, x.1.now)) result (mapped trees.first_place levels.opening tokens.now) }
{
    if !is_next(SEMICOLON, tokens) {
        return Ok((None, tokens));
    }
    let (place, rest) = place_of(SEMICOLON, tokens)?;
    let ((), rest) = semis(rest)?;
    Ok((Some(place), rest))
}

/// The place of the end of the source.
fn end(tokens: &[Token]) -> Read<'_, Place>
    ensures { Gives (λ x. (x.0, x.1.now)) result (token_by grammar.the_end tokens.now) }
{
    if !is_end(tokens) {
        return Err(ReadError::Refused(Code::Grammar, tokens));
    }
    match tokens {
        [token, rest @ ..] => Ok((token.place, rest)),
        [] => Err(ReadError::Refused(Code::Grammar, tokens)),
    }
}

/// The place of the first token: of a semicolon, else of the first declaration, else of the end.
fn program_place(opening: Option<Place>, tops: &[Top], end: Place) -> Place
    ensures { result ≡ trees.program_place opening tops.now end }
{
    match opening {
        Some(place) => place,
        None => match tops {
            [top, ..] => top_place(top),
            [] => end,
        },
    }
}

/// A program, where what stands inside has this room, up to the end of the source. Its directives come into force.
fn level<'a>(
    alloc: Global,
    room: u32,
    scope: &mut Scope,
    tokens: &'a [Token],
) -> Read<'a, (Program, u32)>
    ensures gives { Gives (λ x. (x.0, x.1.now)) result (levels.program scope.old room tokens.now) }
    ensures moves { MovesProgram scope.old scope.new result }
{
    let (opening, rest) = opening(tokens)?;
    let ((tops, height), rest) = items(alloc, room, scope, rest)?;
    let (end, rest) = end(rest)?;
    let place = program_place(opening, tops.items(), end);
    Ok((with_height(Program::Tops(place, tops), height)?, rest))
}

/// The program that is next, of at most this height, up to the end of the source. Its directives come into force.
#[tactic(auto, unfolding(sml_grammar_mod::specs::ReadPrograms::program_read))]
pub fn program<'a>(
    alloc: Global,
    room: u32,
    scope: &mut Scope,
    tokens: &'a [Token],
) -> Read<'a, (Program, u32)>
    requires { 1 ≤ room }
    ensures gives { Gives (λ x. (x.0, x.1.now)) result (read.program_read room false scope.old tokens.now) }
    ensures moves { MovesProgram scope.old scope.new result }
{
    level(alloc, room - 1, scope, tokens)
}
