ghost use Rattle.std.specs.Prelude.{◌≡◌};
ghost use Rattle.readers.specs.Given.{Gives};
ghost use Rattle.sml_grammar_mod.specs.ReadStrs as read;
ghost use Rattle.sml_grammar_sig.specs.ReadSigs as sigs;
ghost use Rattle.sml_parse_mod.specs.Levels as levels;

use crate::first::begins_ascribe;
use crate::inside::Read;
use readers::{Code, ReadError, refusal};
use sml_ast::Ascribe;
use sml_lex::Token;
use sml_parse_sig::sig_exp;
use sml_scan::{above, is_next, place_of};
use std::alloc::Global;

const COLON: u32 = 47;

const SEAL: u32 = 48;

/// `: G`
fn clear(alloc: Global, room: u32, tokens: &[Token]) -> Read<'_, (Ascribe, u32)>
    ensures { Gives (λ x. (x.0, x.1.now)) result (levels.clear room tokens.now) }
{
    let (place, rest) = place_of(COLON, tokens)?;
    let (sig, rest) = sig_exp(alloc, room, rest)?;
    let height = above(sig.1, 0)?;
    Ok(((Ascribe::Clear(place, sig.0), height), rest))
}

/// `:> G`
fn opaque(alloc: Global, room: u32, tokens: &[Token]) -> Read<'_, (Ascribe, u32)>
    ensures { Gives (λ x. (x.0, x.1.now)) result (levels.opaque room tokens.now) }
{
    let (place, rest) = place_of(SEAL, tokens)?;
    let (sig, rest) = sig_exp(alloc, room, rest)?;
    let height = above(sig.1, 0)?;
    Ok(((Ascribe::Opaque(place, sig.0), height), rest))
}

/// An ascription, where the signature may have this height.
fn level(alloc: Global, room: u32, tokens: &[Token]) -> Read<'_, (Ascribe, u32)>
    ensures { Gives (λ x. (x.0, x.1.now)) result (read.ascribe_level (sigs.sig_read room) room tokens.now) }
{
    if !begins_ascribe(tokens) {
        return Err(ReadError::Refused(Code::Grammar, tokens));
    }
    if room < 1 {
        return Err(ReadError::Refused(Code::Depth, tokens));
    }
    if is_next(COLON, tokens) {
        return clear(alloc, room, tokens);
    }
    opaque(alloc, room, tokens)
}

/// An ascription of at most this height.
fn some_ascription(alloc: Global, room: u32, tokens: &[Token]) -> Read<'_, (Ascribe, u32)>
    ensures { Gives (λ x. (x.0, x.1.now)) result (read.ascribe_read room tokens.now) }
{
    if room == 0 {
        return Err(ReadError::Refused(refusal(begins_ascribe(tokens)), tokens));
    }
    level(alloc, room - 1, tokens)
}

/// An ascription of at most this height, where one begins.
pub fn ascription(alloc: Global, room: u32, tokens: &[Token]) -> Read<'_, Option<(Ascribe, u32)>>
    ensures { Gives (λ x. (x.0, x.1.now)) result (read.ascription_read room tokens.now) }
{
    if !begins_ascribe(tokens) {
        return Ok((None, tokens));
    }
    if room < 2 {
        return Err(ReadError::Refused(Code::Depth, tokens));
    }
    let (found, rest) = some_ascription(alloc, room, tokens)?;
    Ok((Some(found), rest))
}
