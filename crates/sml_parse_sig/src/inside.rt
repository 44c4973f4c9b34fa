ghost use Rattle.std.specs.Prelude.{◌≡◌, ◌≤◌, ◌+◌};
ghost use Rattle.readers.specs.Reader.{mapped};
ghost use Rattle.readers.specs.Given.{Gives, Inside as Nests};
ghost use Rattle.sml_grammar.specs.Words.{CLOSE_PAREN as CLOSES, END as ENDS, EQUALS as BINDS};
ghost use Rattle.sml_grammar_sig.specs.ReadDescs as descs;
ghost use Rattle.sml_grammar_sig.specs.ReadSigs as read;
ghost use Rattle.sml_grammar_sig.specs.Sigs as grammar;
ghost use Rattle.sml_parse_sig.specs.Levels as levels;
ghost use Rattle.sml_parse_sig.specs.Rows as rows;

use crate::data::datatype;
use crate::first::{begins_item, begins_sig, begins_spec, goes_in_spec, goes_on};
use crate::kept::{Turn, closed, parted, there, with_item, with_turn};
use crate::name::{Read, is_strid, strid};
use crate::parts::{eqtypes, exceptions, sharing, types, values};
use crate::real::{further_type, suffix};
use crate::tree::{ends_with_where, named, needed, suffixed};
use readers::{Code, ReadError, refusal};
use sml_ast::{Ident, SigExp, Spec};
use sml_lex::Token;
use sml_scan::{above, behind, is_next, place_of};
use std::alloc::Global;
use tl_text::{List, Place};

const DATATYPE: u32 = 4;

const END: u32 = 7;

const EXCEPTION: u32 = 8;

const TYPE: u32 = 26;

const VAL: u32 = 27;

const EQTYPE: u32 = 31;

const INCLUDE: u32 = 33;

const SHARING: u32 = 34;

const SIG: u32 = 35;

const STRUCTURE: u32 = 38;

const CLOSE_PAREN: u32 = 41;

const COLON: u32 = 47;

const SEMICOLON: u32 = 49;

const EQUALS: u32 = 53;

const AND: u32 = 56;

/// An identifier with its signature, and its height.
pub type Named = (Ident, (SigExp, u32));

/// The forms of signatures and specifications, over the reader of the specifications that stand inside.
#[derive(Clone, Copy)]
pub struct Inside<F> {
    pub alloc: Global,
    /// How high the specifications inside may be.
    pub most: u32,
    pub spec: F,
}

impl<'a, F: Fn(Global, u32, &'a [Token]) -> Read<'a, (Spec, u32)>> Inside<F> {
    /// A specification that stands inside.
    fn spec(&self, room: u32, tokens: &'a [Token]) -> Read<'a, (Spec, u32)>
        requires nests { Nests (λ r. read.spec_read r) self.now.most (F.pre self.now.spec) (F.post self.now.spec) }
        requires low { room ≤ self.now.most }
        ensures { Gives (λ x. (x.0, x.1.now)) result (read.spec_read room tokens.now) }
    {
        (self.spec)(self.alloc, room, tokens)
    }

    /// A semicolon, or a specification.
    fn item(&self, room: u32, tokens: &'a [Token]) -> Read<'a, Option<(Spec, u32)>>
        requires nests { Nests (λ r. read.spec_read r) self.now.most (F.pre self.now.spec) (F.post self.now.spec) }
        requires low { room ≤ self.now.most }
        ensures { Gives (λ x. (x.0, x.1.now)) result (read.item_read (read.spec_read room) tokens.now) }
    {
        if is_next(SEMICOLON, tokens) {
            let rest = behind(SEMICOLON, tokens)?;
            return Ok((None, rest));
        }
        let (found, rest) = self.spec(room, tokens)?;
        Ok((Some(found), rest))
    }

    /// The same, behind `include` with one identifier or not: behind that there must be room for a signature.
    fn roomy_item(
        &self,
        lone: bool,
        room: u32,
        tokens: &'a [Token],
    ) -> Read<'a, Option<(Spec, u32)>>
        requires nests { Nests (λ r. read.spec_read r) self.now.most (F.pre self.now.spec) (F.post self.now.spec) }
        requires low { room ≤ self.now.most }
        ensures { Gives (λ x. (x.0, x.1.now)) result (levels.item room lone tokens.now) }
    {
        if lone {
            if !begins_item(tokens) {
                return Err(ReadError::Refused(Code::Grammar, tokens));
            }
            if room < 2 {
                return Err(ReadError::Refused(Code::Depth, tokens));
            }
        }
        self.item(room, tokens)
    }

    /// Specifications and semicolons up to this word.
    pub fn specs_to(&self, word: u32, room: u32, tokens: &'a [Token]) -> Read<'a, (List<Spec>, u32)>
        requires nests { Nests (λ r. read.spec_read r) self.now.most (F.pre self.now.spec) (F.post self.now.spec) }
        requires low { room ≤ self.now.most }
        ensures { Gives (λ x. (x.0, x.1.now)) result (mapped rows.specs (levels.specs_to word room) tokens.now) }
    {
        let mut kept = (false, (List::new(self.alloc), 0));
        let mut rest = tokens;
        'items: while begins_item(rest) {
            let (item, after) = self.roomy_item(kept.0, room, rest)?;
            kept = with_item(kept, item)?;
            rest = after;
        }
        closed(word, kept, room, rest)
    }

    /// `sig .. end`, where the specifications have this room.
    fn body_level(&self, room: u32, tokens: &'a [Token]) -> Read<'a, (SigExp, u32)>
        requires nests { Nests (λ r. read.spec_read r) self.now.most (F.pre self.now.spec) (F.post self.now.spec) }
        requires low { room ≤ self.now.most }
        ensures { Gives (λ x. (x.0, x.1.now)) result (read.body_level (levels.specs_to ENDS room) tokens.now) }
    {
        let (place, rest) = place_of(SIG, tokens)?;
        let ((found, height), rest) = self.specs_to(END, room, rest)?;
        let height = above(height, 0)?;
        Ok(((SigExp::Specs(place, found), height), rest))
    }

    /// `sig .. end`, of at most this height.
    #[tactic(auto, unfolding(sml_grammar_sig::specs::ReadSigs::body_read))]
    pub fn body(&self, room: u32, tokens: &'a [Token]) -> Read<'a, (SigExp, u32)>
        requires nests { Nests (λ r. read.spec_read r) self.now.most (F.pre self.now.spec) (F.post self.now.spec) }
        requires low { room ≤ self.now.most + 1 }
        ensures { Gives (λ x. (x.0, x.1.now)) result (read.body_read room tokens.now) }
    {
        if room == 0 {
            return Err(ReadError::Refused(refusal(is_next(SIG, tokens)), tokens));
        }
        self.body_level(room - 1, tokens)
    }

    /// A signature without `where`, where the specifications have this room.
    fn head_level(&self, room: u32, tokens: &'a [Token]) -> Read<'a, (SigExp, u32)>
        requires nests { Nests (λ r. read.spec_read r) self.now.most (F.pre self.now.spec) (F.post self.now.spec) }
        requires low { room ≤ self.now.most }
        ensures { Gives (λ x. (x.0, x.1.now)) result (read.head_level (levels.specs_to ENDS room) tokens.now) }
    {
        if is_next(SIG, tokens) {
            return self.body_level(room, tokens);
        }
        let (name, rest) = strid(self.alloc, tokens)?;
        Ok((named(name), rest))
    }

    /// A signature without `where`, of at most this height.
    #[tactic(auto, unfolding(sml_grammar_sig::specs::ReadSigs::head_read))]
    pub fn head(&self, room: u32, tokens: &'a [Token]) -> Read<'a, (SigExp, u32)>
        requires nests { Nests (λ r. read.spec_read r) self.now.most (F.pre self.now.spec) (F.post self.now.spec) }
        requires low { room ≤ self.now.most + 1 }
        ensures { Gives (λ x. (x.0, x.1.now)) result (read.head_read room tokens.now) }
    {
        if room == 0 {
            return Err(ReadError::Refused(refusal(begins_sig(tokens)), tokens));
        }
        self.head_level(room - 1, tokens)
    }

    /// A signature, where no `and` of another row may follow.
    pub fn sig_exp(&self, room: u32, tokens: &'a [Token]) -> Read<'a, (SigExp, u32)>
        requires nests { Nests (λ r. read.spec_read r) self.now.most (F.pre self.now.spec) (F.post self.now.spec) }
        requires low { room ≤ self.now.most + 1 }
        ensures { Gives (λ x. (x.0, x.1.now)) result (read.sig_read room tokens.now) }
    {
        let (found, rest) = self.head(room, tokens)?;
        grown(self.alloc, room, found, rest)
    }

    /// An identifier, this word and a signature as far as its first `where`.
    fn named_sig(&self, word: u32, room: u32, tokens: &'a [Token]) -> Read<'a, Named>
        requires nests { Nests (λ r. read.spec_read r) self.now.most (F.pre self.now.spec) (F.post self.now.spec) }
        requires low { room ≤ self.now.most + 1 }
        ensures { Gives (λ x. (x.0, x.1.now)) result (read.str_read word (read.head_read room) tokens.now) }
    {
        let (name, rest) = strid(self.alloc, tokens)?;
        let rest = behind(word, rest)?;
        let (found, rest) = self.head(room, rest)?;
        Ok(((name, found), rest))
    }

    /// Behind `and`: the next identifier, or a type for a signature that ends with `where` and needs this room.
    fn further(
        &self,
        word: u32,
        realised: bool,
        needed: u32,
        room: u32,
        tokens: &'a [Token],
    ) -> Read<'a, Turn>
        requires nests { Nests (λ r. read.spec_read r) self.now.most (F.pre self.now.spec) (F.post self.now.spec) }
        requires low { room ≤ self.now.most + 1 }
        ensures { Gives (λ x. (rows.turn x.0, x.1.now)) result (levels.further word realised needed room tokens.now) }
    {
        if realised && !is_strid(tokens) {
            let (found, rest) = further_type(self.alloc, needed, room, tokens)?;
            return Ok((Turn::More(found), rest));
        }
        let (next, rest) = self.named_sig(word, room, tokens)?;
        Ok((Turn::Next(next), rest))
    }

    /// What follows an identifier with this signature.
    fn turn(&self, word: u32, room: u32, sig: &(SigExp, u32), tokens: &'a [Token]) -> Read<'a, Turn>
        requires nests { Nests (λ r. read.spec_read r) self.now.most (F.pre self.now.spec) (F.post self.now.spec) }
        requires low { room ≤ self.now.most + 1 }
        ensures { Gives (λ x. (rows.turn x.0, x.1.now)) result (levels.turn word room sig.now tokens.now) }
    {
        let needed = needed(sig.1)?;
        if is_next(AND, tokens) {
            let rest = behind(AND, tokens)?;
            return self.further(word, ends_with_where(&sig.0), needed, room, rest);
        }
        there(self.alloc, needed, room, tokens)
    }

    /// Identifiers with their signatures, with `and` between, where this word stands between the two.
    pub fn named_sigs(&self, word: u32, room: u32, tokens: &'a [Token]) -> Read<'a, List<Named>>
        requires nests { Nests (λ r. read.spec_read r) self.now.most (F.pre self.now.spec) (F.post self.now.spec) }
        requires low { room ≤ self.now.most + 1 }
        ensures { Gives (λ x. (x.0, x.1.now)) result (read.strs_level word (read.head_read room) (descs.real_bind_read room) room tokens.now) }
    {
        let (first, mut rest) = self.named_sig(word, room, tokens)?;
        let mut kept = (List::new(self.alloc), first);
        'turns: while goes_on(rest) {
            let (turn, after) = self.turn(word, room, &kept.1.1, rest)?;
            kept = with_turn(self.alloc, kept, turn)?;
            rest = after;
        }
        let (mut found, last) = kept;
        found.push(last)?;
        Ok((found, rest))
    }

    /// Behind `structure`, whose place is given.
    fn structures(&self, place: Place, room: u32, tokens: &'a [Token]) -> Read<'a, (Spec, u32)>
        requires nests { Nests (λ r. read.spec_read r) self.now.most (F.pre self.now.spec) (F.post self.now.spec) }
        requires low { room ≤ self.now.most + 1 }
        ensures { Gives (λ x. (x.0, x.1.now)) result (mapped (λ x. grammar.strs_of (place, x)) (levels.structures room) tokens.now) }
    {
        let (found, rest) = self.named_sigs(COLON, room, tokens)?;
        if goes_in_spec(rest) {
            return Err(ReadError::Refused(Code::Grammar, rest));
        }
        let (found, height) = parted(self.alloc, found)?;
        let height = above(height, 0)?;
        Ok(((Spec::StrSpec(place, found), height), rest))
    }

    /// `val` or `structure`.
    fn with_signatures(&self, room: u32, tokens: &'a [Token]) -> Read<'a, (Spec, u32)>
        requires nests { Nests (λ r. read.spec_read r) self.now.most (F.pre self.now.spec) (F.post self.now.spec) }
        requires low { room ≤ self.now.most + 1 }
        ensures { Gives (λ x. (x.0, x.1.now)) result (levels.with_signatures room tokens.now) }
    {
        if is_next(VAL, tokens) {
            if room < 1 {
                return Err(ReadError::Refused(Code::Depth, tokens));
            }
            let (place, rest) = place_of(VAL, tokens)?;
            return values(self.alloc, place, room, rest);
        }
        if !is_next(STRUCTURE, tokens) {
            return Err(ReadError::Refused(Code::Grammar, tokens));
        }
        if room < 1 {
            return Err(ReadError::Refused(Code::Depth, tokens));
        }
        let (place, rest) = place_of(STRUCTURE, tokens)?;
        self.structures(place, room, rest)
    }

    /// `type`, `datatype` or `exception`, or what holds signatures or values.
    fn with_types(&self, room: u32, tokens: &'a [Token]) -> Read<'a, (Spec, u32)>
        requires nests { Nests (λ r. read.spec_read r) self.now.most (F.pre self.now.spec) (F.post self.now.spec) }
        requires low { room ≤ self.now.most + 1 }
        ensures { Gives (λ x. (x.0, x.1.now)) result (levels.with_types room tokens.now) }
    {
        if is_next(TYPE, tokens) {
            let (place, rest) = place_of(TYPE, tokens)?;
            return types(self.alloc, place, room, rest);
        }
        if is_next(DATATYPE, tokens) {
            let (place, rest) = place_of(DATATYPE, tokens)?;
            return datatype(self.alloc, place, room, rest);
        }
        if is_next(EXCEPTION, tokens) {
            let (place, rest) = place_of(EXCEPTION, tokens)?;
            return exceptions(self.alloc, place, room, rest);
        }
        self.with_signatures(room, tokens)
    }

    /// A specification, where what stands inside has this room.
    fn level(&self, room: u32, tokens: &'a [Token]) -> Read<'a, (Spec, u32)>
        requires nests { Nests (λ r. read.spec_read r) self.now.most (F.pre self.now.spec) (F.post self.now.spec) }
        requires low { room ≤ self.now.most + 1 }
        ensures { Gives (λ x. (x.0, x.1.now)) result (levels.spec room tokens.now) }
    {
        if is_next(INCLUDE, tokens) {
            let (place, rest) = place_of(INCLUDE, tokens)?;
            return self.include(place, room, rest);
        }
        if is_next(EQTYPE, tokens) {
            let (place, rest) = place_of(EQTYPE, tokens)?;
            return eqtypes(self.alloc, place, rest);
        }
        if is_next(SHARING, tokens) {
            let (place, rest) = place_of(SHARING, tokens)?;
            return sharing(self.alloc, place, rest);
        }
        self.with_types(room, tokens)
    }
}

/// With the types behind it, where no `and` of another row may follow.
pub fn grown<'a>(
    alloc: Global,
    room: u32,
    head: (SigExp, u32),
    tokens: &'a [Token],
) -> Read<'a, (SigExp, u32)>
    ensures { Gives (λ x. (x.0, x.1.now)) result (levels.grown room head tokens.now) }
{
    let mut found = head;
    let mut rest = tokens;
    'types: while goes_on(rest) {
        let needed = needed(found.1)?;
        let (more, after) = suffix(alloc, ends_with_where(&found.0), needed, room, rest)?;
        found = suffixed(alloc, found, more)?;
        rest = after;
    }
    Ok((found, rest))
}

/// The specification that is next, of at most this height, as far as the tokens go on with it.
#[tactic(auto, unfolding(sml_grammar_sig::specs::ReadSigs::spec_read))]
fn spec<'a>(alloc: Global, room: u32, tokens: &'a [Token]) -> Read<'a, (Spec, u32)>
    ensures { Gives (λ x. (x.0, x.1.now)) result (read.spec_read room tokens.now) }
{
    if room == 0 {
        return Err(ReadError::Refused(refusal(begins_spec(tokens)), tokens));
    }
    Inside {
        alloc,
        most: room - 1,
        spec,
    }
    .level(room - 1, tokens)
}

/// The signature without `where` that is next, of at most this height.
///
/// # Errors
/// Grammar, Depth at the first token with which none goes on. NoMemory where none is left.
pub fn head<'a>(alloc: Global, room: u32, tokens: &'a [Token]) -> Read<'a, (SigExp, u32)>
    ensures { Gives (λ x. (x.0, x.1.now)) result (read.head_read room tokens.now) }
{
    Inside {
        alloc,
        most: room,
        spec,
    }
    .head(room, tokens)
}

/// The signature that is next, of at most this height, as far as the tokens go on with it.
///
/// # Errors
/// Grammar, Depth at the first token with which none goes on. NoMemory where none is left.
pub fn sig_exp<'a>(alloc: Global, room: u32, tokens: &'a [Token]) -> Read<'a, (SigExp, u32)>
    ensures { Gives (λ x. (x.0, x.1.now)) result (read.sig_read room tokens.now) }
{
    Inside {
        alloc,
        most: room,
        spec,
    }
    .sig_exp(room, tokens)
}

/// Identifiers with their signatures, `S = G and T = H`, of at most this height, each with its height.
///
/// # Errors
/// Grammar, Depth at the first token with which none go on. NoMemory where none is left.
pub fn signatures<'a>(alloc: Global, room: u32, tokens: &'a [Token]) -> Read<'a, List<Named>>
    ensures { Gives (λ x. (x.0, x.1.now)) result (read.strs_level BINDS (read.head_read room) (descs.real_bind_read room) room tokens.now) }
{
    Inside {
        alloc,
        most: room,
        spec,
    }
    .named_sigs(EQUALS, room, tokens)
}

/// Specifications of at most this height and the parenthesis that closes them, and the height of the highest.
///
/// # Errors
/// Grammar, Depth at the first token with which none go on. NoMemory where none is left.
pub fn enclosed<'a>(alloc: Global, room: u32, tokens: &'a [Token]) -> Read<'a, (List<Spec>, u32)>
    ensures { Gives (λ x. (x.0, x.1.now)) result (mapped rows.specs (levels.specs_to CLOSES room) tokens.now) }
{
    Inside {
        alloc,
        most: room,
        spec,
    }
    .specs_to(CLOSE_PAREN, room, tokens)
}
