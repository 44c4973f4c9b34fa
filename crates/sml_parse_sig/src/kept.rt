ghost use Rattle.std.specs.Prelude.{◌≡◌, IfOk, true};
ghost use Rattle.readers.specs.Reader.{guard, mapped, one};
ghost use Rattle.readers.specs.Forms.{growth};
ghost use Rattle.readers.specs.Given.{Gives};
ghost use Rattle.sml_grammar.specs.Tokens.{is};
ghost use Rattle.sml_grammar_sig.specs.ReadDescs as descs;
ghost use Rattle.sml_grammar_sig.specs.ReadSigs as read;
ghost use Rattle.sml_parse_sig.specs.Levels as levels;
ghost use Rattle.sml_parse_sig.specs.Rows as rows;

use crate::inside::Named;
use crate::name::Read;
use crate::real::{Suffix, where_type};
use crate::tree::{is_lone, suffixed};
use readers::{Code, ReadError};
use sml_ast::{Ident, SigExp, Spec};
use sml_lex::Token;
use sml_parse_bind::higher;
use sml_scan::{behind, is_next};
use std::alloc::Global;
use tl_text::{List, NoMemory};

/// What follows an identifier with its signature: a type for the signature, or the next identifier.
#[derive(Drop)]
pub enum Turn {
    More(Suffix),
    Next(Named),
}

/// Whether `include` with one identifier was read last, and the specifications so far with the height of the highest.
pub type Specs = (bool, (List<Spec>, u32));

/// Identifiers with their signatures, and the last one, whose signature may still grow.
pub type Sigs = (List<Named>, Named);

/// With one more specification, or behind a semicolon.
pub fn with_item(kept: Specs, item: Option<(Spec, u32)>) -> Result<Specs, NoMemory>
    ensures { IfOk result (λ x. x ≡ rows.with_item kept item) }
{
    let (mut found, height) = kept.1;
    match item {
        None => Ok((false, (found, height))),
        Some((spec, tall)) => {
            let lone = is_lone(&spec);
            found.push(spec)?;
            Ok((lone, (found, higher(height, tall))))
        }
    }
}

/// With what follows the last identifier and its signature.
pub fn with_turn(alloc: Global, kept: Sigs, turn: Turn) -> Result<Sigs, NoMemory>
    ensures { IfOk result (λ x. x ≡ rows.with_turn kept (rows.turn turn)) }
{
    let (mut found, last) = kept;
    match turn {
        Turn::More(more) => Ok((found, (last.0, suffixed(alloc, last.1, more)?))),
        Turn::Next(next) => {
            found.push(last)?;
            Ok((found, next))
        }
    }
}

/// A type behind `where`, behind a signature that needs this room.
pub fn there(alloc: Global, needed: u32, room: u32, tokens: &[Token]) -> Read<'_, Turn>
    ensures { Gives (λ x. (rows.turn x.0, x.1.now)) result (read.there_read (descs.real_bind_read room) needed room tokens.now) }
{
    let (found, rest) = where_type(alloc, needed, room, tokens)?;
    Ok((Turn::More(found), rest))
}

/// This word, which closes specifications.
fn last(word: u32, tokens: &[Token]) -> Read<'_, ()>
    ensures { Gives (λ x. (x.0, x.1.now)) result (one (is word) tokens.now) }
{
    let rest = behind(word, tokens)?;
    Ok(((), rest))
}

/// The same, where there must be room for a signature.
fn roomy_last(word: u32, room: u32, tokens: &[Token]) -> Read<'_, ()>
    ensures { Gives (λ x. (x.0, x.1.now)) result (guard (growth (is word) true 2 room) (one (is word)) tokens.now) }
{
    if !is_next(word, tokens) {
        return Err(ReadError::Refused(Code::Grammar, tokens));
    }
    if room < 2 {
        return Err(ReadError::Refused(Code::Depth, tokens));
    }
    last(word, tokens)
}

/// The word that closes specifications, behind `include` with one identifier or not.
fn closing(word: u32, lone: bool, room: u32, tokens: &[Token]) -> Read<'_, ()>
    ensures { Gives (λ x. (x.0, x.1.now)) result (levels.closing word lone room tokens.now) }
{
    if lone {
        return roomy_last(word, room, tokens);
    }
    last(word, tokens)
}

/// These specifications, closed by this word.
pub fn closed(word: u32, kept: Specs, room: u32, tokens: &[Token]) -> Read<'_, (List<Spec>, u32)>
    ensures { Gives (λ x. (x.0, x.1.now)) result (mapped (λ u. kept.1) (levels.closing word kept.0 room) tokens.now) }
{
    let ((), rest) = closing(word, kept.0, room, tokens)?;
    Ok((kept.1, rest))
}

/// Identifiers with their signatures, and the height of the highest signature.
pub fn parted(alloc: Global, items: List<Named>) -> Result<(List<(Ident, SigExp)>, u32), NoMemory>
    ensures { IfOk result (λ x. x ≡ rows.parted items) }
{
    let mut found = List::new(alloc);
    let mut height = 0;
    for item in items.into_vec() {
        height = higher(height, item.1.1);
        found.push((item.0, item.1.0))?;
    }
    Ok((found, height))
}
