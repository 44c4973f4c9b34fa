ghost use Rattle.std.specs.Prelude.{◌≡◌, ◌≤◌, ◌++◌, OnOk, IfOk, false, map};
ghost use Rattle.readers.specs.Reader.{mapped};
ghost use Rattle.readers.specs.Given.{Gives};
ghost use Rattle.sml_grammar_exp.specs.Decs as grammar;
ghost use Rattle.sml_grammar_exp.specs.ReadDecs as read;
ghost use Rattle.sml_grammar_exp.specs.ReadLevels as knot;
ghost use Rattle.sml_parse_exp.specs.Levels as levels;
ghost use Rattle.sml_parse_exp.specs.Nested.{Nests, Moves, MovesAll};
ghost use Rattle.sml_parse_exp.specs.Trees as trees;

use crate::first::{begins_dec, goes_in_decs, goes_in_item};
use crate::inside::{Inside, Level, Read};
use crate::tall::{Tall, higher};
use readers::{Code, ReadError};
use sml_ast::{Dec, Exp};
use sml_lex::Token;
use sml_scan::{behind, is_next};
use sml_scope::Scope;
use std::alloc::Global;
use tl_text::{Boxed, List};

const SEMICOLON: u32 = 49;

/// The tokens behind the semicolons that are next.
fn semis(tokens: &[Token]) -> Result<&[Token], ReadError<'_, Token>>
    ensures { Gives (λ x. (tt, x.now)) result (mapped levels.no_tree read.semis_read tokens.now) }
{
    let mut rest = tokens;
    'semicolons: while is_next(SEMICOLON, rest) {
        rest = behind(SEMICOLON, rest)?;
    }
    Ok(rest)
}

impl<
    'a,
    E: Fn(Global, u32, Level, &mut Scope, &'a [Token]) -> Read<'a, Tall<Boxed<Exp>>>,
    D: Fn(Global, u32, &mut Scope, &'a [Token]) -> Read<'a, (Dec, u32)>,
> Inside<E, D> {
    /// A declaration and the semicolons behind it.
    fn item(&self, room: u32, scope: &mut Scope, tokens: &'a [Token]) -> Read<'a, (Dec, u32)>
        requires nests { Nests self.now.most (E.pre self.now.exp) (E.post self.now.exp) (D.pre self.now.dec) (D.post self.now.dec) }
        requires low { room ≤ self.now.most }
        ensures gives { Gives (λ x. (x.0, x.1.now)) result (read.item_read (knot.dec_read room false scope.old) tokens.now) }
        ensures moves { Moves scope.old scope.new result }
    {
        let (found, rest) = self.dec(room, scope, tokens)?;
        let rest = semis(rest)?;
        if goes_in_item(rest) {
            return Err(ReadError::Refused(Code::Grammar, rest));
        }
        Ok((found, rest))
    }

    /// Declarations as far as they go, each under the directives of those before it.
    fn row_of_decs(
        &self,
        room: u32,
        scope: &mut Scope,
        tokens: &'a [Token],
    ) -> Read<'a, (List<Dec>, u32)>
        requires nests { Nests self.now.most (E.pre self.now.exp) (E.post self.now.exp) (D.pre self.now.dec) (D.post self.now.dec) }
        requires low { room ≤ self.now.most }
        ensures gives { Gives (λ x. (x.0, x.1.now)) result (mapped trees.decs_of (levels.row_of_decs scope.old room) tokens.now) }
        ensures moves { MovesAll scope.old scope.new result }
    {
        let mut found = List::new(self.alloc);
        let mut height = 0;
        let mut rest = tokens;
        'items: while begins_dec(rest) {
            let (other, after) = self.item(room, scope, rest)?;
            height = higher(height, other.1);
            found.push(other.0)?;
            rest = after;
        }
        Ok(((found, height), rest))
    }

    /// Declarations, with semicolons before, between and behind them.
    pub fn decs(
        &self,
        room: u32,
        scope: &mut Scope,
        tokens: &'a [Token],
    ) -> Read<'a, (List<Dec>, u32)>
        requires nests { Nests self.now.most (E.pre self.now.exp) (E.post self.now.exp) (D.pre self.now.dec) (D.post self.now.dec) }
        requires low { room ≤ self.now.most }
        ensures gives { Gives (λ x. (x.0, x.1.now)) result (mapped trees.decs_of (levels.decs scope.old room) tokens.now) }
        ensures moves { MovesAll scope.old scope.new result }
    {
        let rest = semis(tokens)?;
        let (found, rest) = self.row_of_decs(room, scope, rest)?;
        if goes_in_decs(rest) {
            return Err(ReadError::Refused(Code::Grammar, rest));
        }
        Ok((found, rest))
    }
}
