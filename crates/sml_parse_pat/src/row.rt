ghost use Rattle.std.specs.Prelude.{◌≡◌, ◌≤◌, false, true};
ghost use Rattle.readers.specs.Reader.{first, head_is, mapped};
ghost use Rattle.readers.specs.Given.{Gives};
ghost use Rattle.sml_fix.specs.Fixities.{settings};
ghost use Rattle.sml_grammar.specs.Pats as grammar;
ghost use Rattle.sml_grammar.specs.ReadPats as read;
ghost use Rattle.sml_parse_pat.specs.Levels as levels;
ghost use Rattle.sml_parse_pat.specs.Nested.{Nests};

use crate::first::{begins_at, begins_name, begins_other};
use crate::inside::{Inside, Level, Read};
use crate::tree::{atomic, constructed, higher, infixed, top_fixity};
use readers::{Code, Floor, ReadError, judge, refusal};
use sml_ast::{AtPat, Ident, LongIdent, Pat};
use sml_fix::Fixities;
use sml_lex::Token;
use sml_scan::{fixity_of, infix_vid, is_long_vid, long_vid, next_fixity, op_long_vid, place_of};
use std::alloc::Global;
use tl_text::{Boxed, Place};

const OP: u32 = 20;

/// `x`, `op x`: the place, whether `op` is there, and the identifier.
pub fn name<'a>(
    alloc: Global,
    fix: &Fixities,
    tokens: &'a [Token],
) -> Read<'a, (Place, bool, LongIdent)>
    ensures { Gives (λ x. ((x.0, 1), x.1.now)) result (read.name_level (settings fix.now) tokens.now) }
{
    if is_long_vid(fix, tokens) {
        let (name, rest) = long_vid(alloc, fix, tokens)?;
        return Ok(((name.0, false, name), rest));
    }
    let (place, rest) = place_of(OP, tokens)?;
    let (name, rest) = op_long_vid(alloc, rest)?;
    Ok(((place, true, name), rest))
}

/// Whether an operator comes that may follow on this floor.
fn is_taken(fix: &Fixities, floor: Floor, tokens: &[Token]) -> bool
    ensures { result ≡ head_is (levels.taken (settings fix.now) floor) (first tokens.now) }
{
    match next_fixity(fix, tokens) {
        None => false,
        Some(fixity) => floor.is_reached(fixity),
    }
}

impl<
    'f,
    'a,
    F: Fn(Global, u32, Level, &Fixities, &'a [Token]) -> Read<'a, (Boxed<Pat>, u32)>,
> Inside<'f, F> {
    /// An atomic pattern of at most this height.
    #[tactic(auto, unfolding(sml_grammar::specs::ReadPats::at_read))]
    fn argument(&self, room: u32, tokens: &'a [Token]) -> Read<'a, (AtPat, u32)>
        requires nests { Nests self.now.most (F.pre self.now.phrase) (F.post self.now.phrase) }
        requires low { room ≤ self.now.most }
        ensures { Gives (λ x. (x.0, x.1.now)) result (read.at_read room false (settings self.now.fix.now) tokens.now) }
    {
        if room == 0 {
            return Err(ReadError::Refused(refusal(begins_at(self.fix, tokens)), tokens));
        }
        self.atom(room - 1, tokens)
    }

    /// The argument of a constructor, where one is next.
    fn some_argument(&self, room: u32, tokens: &'a [Token]) -> Read<'a, Option<(AtPat, u32)>>
        requires nests { Nests self.now.most (F.pre self.now.phrase) (F.post self.now.phrase) }
        requires low { room ≤ self.now.most }
        ensures { Gives (λ x. (x.0, x.1.now)) result (levels.arg (settings self.now.fix.now) room tokens.now) }
    {
        if !begins_at(self.fix, tokens) {
            return Ok((None, tokens));
        }
        let (atom, rest) = self.argument(room, tokens)?;
        Ok((Some(atom), rest))
    }

    /// `C`, `C p`
    fn construction(&self, room: u32, tokens: &'a [Token]) -> Read<'a, (Boxed<Pat>, u32)>
        requires nests { Nests self.now.most (F.pre self.now.phrase) (F.post self.now.phrase) }
        requires low { room ≤ self.now.most }
        ensures { Gives (λ x. (x.0, x.1.now)) result (levels.construction (settings self.now.fix.now) room tokens.now) }
    {
        let (name, rest) = name(self.alloc, self.fix, tokens)?;
        let (arg, rest) = self.some_argument(room, rest)?;
        Ok((constructed(self.alloc, name, arg)?, rest))
    }

    /// An atomic pattern that is no identifier, as an operand.
    fn other_operand(&self, room: u32, tokens: &'a [Token]) -> Read<'a, (Boxed<Pat>, u32)>
        requires nests { Nests self.now.most (F.pre self.now.phrase) (F.post self.now.phrase) }
        requires low { room ≤ self.now.most }
        ensures { Gives (λ x. (x.0, x.1.now)) result (mapped grammar.operand_of (mapped grammar.Operand.Atom (levels.other_level (settings self.now.fix.now) room)) tokens.now) }
    {
        let (atom, rest) = self.other(room, tokens)?;
        Ok((atomic(self.alloc, atom)?, rest))
    }

    /// What stands between operators, whatever follows.
    fn open_operand(&self, room: u32, tokens: &'a [Token]) -> Read<'a, (Boxed<Pat>, u32)>
        requires nests { Nests self.now.most (F.pre self.now.phrase) (F.post self.now.phrase) }
        requires low { room ≤ self.now.most }
        ensures { Gives (λ x. (x.0, x.1.now)) result (levels.open_operand (settings self.now.fix.now) room tokens.now) }
    {
        if begins_name(self.fix, tokens) {
            if room == 0 {
                return Err(ReadError::Refused(Code::Depth, tokens));
            }
            return self.construction(room, tokens);
        }
        if !begins_other(tokens) {
            return Err(ReadError::Refused(Code::Grammar, tokens));
        }
        if room == 0 {
            return Err(ReadError::Refused(Code::Depth, tokens));
        }
        self.other_operand(room - 1, tokens)
    }

    /// What stands between operators; no atomic pattern may follow it.
    fn operand(&self, room: u32, tokens: &'a [Token]) -> Read<'a, (Boxed<Pat>, u32)>
        requires nests { Nests self.now.most (F.pre self.now.phrase) (F.post self.now.phrase) }
        requires low { room ≤ self.now.most }
        ensures { Gives (λ x. (x.0, x.1.now)) result (levels.operand (settings self.now.fix.now) room tokens.now) }
    {
        let (found, rest) = self.open_operand(room, tokens)?;
        if begins_at(self.fix, rest) {
            return Err(ReadError::Refused(Code::Grammar, rest));
        }
        Ok((found, rest))
    }

    /// The operator that comes behind this pattern, and the row on its right.
    fn operation(
        &self,
        room: u32,
        floor: Floor,
        left: &(Boxed<Pat>, u32),
        tokens: &'a [Token],
    ) -> Read<'a, (Ident, (Boxed<Pat>, u32))>
        requires nests { Nests self.now.most (F.pre self.now.phrase) (F.post self.now.phrase) }
        requires low { room ≤ self.now.most }
        requires comes { head_is (levels.taken (settings self.now.fix.now) floor) (first tokens.now) ≡ true }
        ensures { Gives (λ x. (x.0, x.1.now)) result (levels.suffix (settings self.now.fix.now) room floor left.now tokens.now) }
    {
        let (op, inner) = infix_vid(self.alloc, self.fix, tokens)?;
        let fixity = fixity_of(self.fix, &op.1);
        let top = top_fixity(self.fix, &left.0);
        if let Some(code) = judge(room, floor, top, higher(2, left.1), fixity) {
            return Err(ReadError::Refused(code, tokens));
        }
        let (right, rest) = self.right(room, fixity.floor(), inner)?;
        Ok(((op, right), rest))
    }

    /// The row that stands on this floor, as far as it goes, where its operands have this room.
    pub fn row(&self, room: u32, floor: Floor, tokens: &'a [Token]) -> Read<'a, (Boxed<Pat>, u32)>
        requires nests { Nests self.now.most (F.pre self.now.phrase) (F.post self.now.phrase) }
        requires low { room ≤ self.now.most }
        ensures { Gives (λ x. (x.0, x.1.now)) result (levels.row_level (settings self.now.fix.now) room floor tokens.now) }
    {
        let (mut found, mut rest) = self.operand(room, tokens)?;
        'operators: while is_taken(self.fix, floor, rest) {
            let (more, after) = self.operation(room, floor, &found, rest)?;
            found = infixed(self.alloc, found, more.0, more.1)?;
            rest = after;
        }
        Ok((found, rest))
    }
}
