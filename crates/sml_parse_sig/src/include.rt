ghost use Rattle.std.specs.Prelude.{◌≡◌, ◌≤◌, ◌+◌};
ghost use Rattle.readers.specs.Reader.{mapped};
ghost use Rattle.readers.specs.Given.{Gives, Inside as Nests};
ghost use Rattle.sml_ast.specs.declared.sig.SigExp.{out-SigExp};
ghost use Rattle.sml_grammar_sig.specs.ReadSigs as read;
ghost use Rattle.sml_parse_sig.specs.Levels as levels;

use crate::first::goes_in_spec;
use crate::inside::{Inside, grown};
use crate::name::{Read, is_strid, strid, strids};
use crate::tree::{included, is_name, named};
use readers::{Code, ReadError};
use sml_ast::{Ident, SigExp, Spec};
use sml_lex::Token;
use std::alloc::Global;
use tl_text::{List, Place};

/// Further identifiers behind `include` with this signature, which there may be where it is one itself.
fn further<'a>(alloc: Global, sig: &SigExp, tokens: &'a [Token]) -> Read<'a, Option<List<Ident>>>
    ensures { Gives (λ x. (x.0, x.1.now)) result (read.further_read (read.name_in (out-SigExp sig.now)) tokens.now) }
{
    if !is_strid(tokens) {
        return Ok((None, tokens));
    }
    if !is_name(sig) {
        return Err(ReadError::Refused(Code::Grammar, tokens));
    }
    let (found, rest) = strids(alloc, tokens)?;
    Ok((Some(found), rest))
}

impl<'a, F: Fn(Global, u32, &'a [Token]) -> Read<'a, (Spec, u32)>> Inside<F> {
    /// What `include` stands before: an identifier, whatever the room, or `sig .. end`.
    fn lean_head(&self, room: u32, tokens: &'a [Token]) -> Read<'a, (SigExp, u32)>
        requires nests { Nests (λ r. read.spec_read r) self.now.most (F.pre self.now.spec) (F.post self.now.spec) }
        requires low { room ≤ self.now.most + 1 }
        ensures { Gives (λ x. (x.0, x.1.now)) result (read.lean_head (read.body_read room) tokens.now) }
    {
        if is_strid(tokens) {
            let (name, rest) = strid(self.alloc, tokens)?;
            return Ok((named(name), rest));
        }
        self.body(room, tokens)
    }

    /// The same with the types behind it.
    fn lean(&self, room: u32, tokens: &'a [Token]) -> Read<'a, (SigExp, u32)>
        requires nests { Nests (λ r. read.spec_read r) self.now.most (F.pre self.now.spec) (F.post self.now.spec) }
        requires low { room ≤ self.now.most + 1 }
        ensures { Gives (λ x. (x.0, x.1.now)) result (levels.lean room tokens.now) }
    {
        let (found, rest) = self.lean_head(room, tokens)?;
        grown(self.alloc, room, found, rest)
    }

    /// Behind `include`, whose place is given.
    pub fn include(&self, place: Place, room: u32, tokens: &'a [Token]) -> Read<'a, (Spec, u32)>
        requires nests { Nests (λ r. read.spec_read r) self.now.most (F.pre self.now.spec) (F.post self.now.spec) }
        requires low { room ≤ self.now.most + 1 }
        ensures { Gives (λ x. (x.0, x.1.now)) result (mapped (λ x. read.included_of (place, x)) (levels.include room) tokens.now) }
    {
        let (found, rest) = self.lean(room, tokens)?;
        let (others, rest) = further(self.alloc, &found.0, rest)?;
        if goes_in_spec(rest) {
            return Err(ReadError::Refused(Code::Grammar, rest));
        }
        Ok((included(self.alloc, place, found, others)?, rest))
    }
}
