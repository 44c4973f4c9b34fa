ghost use Rattle.std.specs.Prelude.{◌≡◌, ◌≤◌, ◌+◌, OnOk, false};
ghost use Rattle.readers.specs.Reader.{mapped};
ghost use Rattle.readers.specs.Given.{Gives};
ghost use Rattle.sml_grammar_mod.specs.ReadStrs as read;
ghost use Rattle.sml_grammar_mod.specs.Strs as grammar;
ghost use Rattle.sml_parse_mod.specs.Levels as levels;
ghost use Rattle.sml_parse_mod.specs.Nested.{Nests, Moves, MovesAll};
ghost use Rattle.sml_parse_mod.specs.Trees as trees;
ghost use Rattle.sml_grammar_exp.specs.ReadDecs.{semis_read};

use crate::first::{begins_strdec, goes_in_decs, goes_in_item};
use crate::inside::{Inside, Read};
use readers::{Code, ReadError};
use sml_ast::{StrDec, StrExp};
use sml_lex::Token;
use sml_parse_bind::higher;
use sml_scan::{behind, is_next};
use sml_scope::Scope;
use std::alloc::Global;
use tl_text::List;

const SEMICOLON: u32 = 49;

/// The tokens behind the semicolons that are next.
pub fn semis(tokens: &[Token]) -> Read<'_, ()>
    ensures { Gives (λ x. (x.0, x.1.now)) result (mapped levels.no_tree semis_read tokens.now) }
{
    let mut rest = tokens;
    'semicolons: while is_next(SEMICOLON, rest) {
        rest = behind(SEMICOLON, rest)?;
    }
    Ok(((), rest))
}

impl<
    'a,
    B: Fn(Global, u32, &mut Scope, &'a [Token]) -> Read<'a, (StrExp, u32)>,
    D: Fn(Global, u32, &mut Scope, &'a [Token]) -> Read<'a, (StrDec, u32)>,
> Inside<B, D> {
    /// A declaration and the semicolons behind it.
    #[inline(never)]
    fn item(&self, room: u32, scope: &mut Scope, tokens: &'a [Token]) -> Read<'a, (StrDec, u32)>
        requires nests { Nests self.now.most (B.pre self.now.base) (B.post self.now.base) (D.pre self.now.dec) (D.post self.now.dec) }
        requires low { room ≤ self.now.most }
        ensures gives { Gives (λ x. (x.0, x.1.now)) result (read.str_item_read (read.strdec_read room false scope.old) tokens.now) }
        ensures moves { Moves scope.old scope.new result }
    {
        let (found, rest) = self.dec(room, scope, tokens)?;
        let ((), rest) = semis(rest)?;
        if goes_in_item(rest) {
            return Err(ReadError::Refused(Code::Grammar, rest));
        }
        Ok((found, rest))
    }

    /// Declarations as far as they go, each under the directives of those before it.
    #[inline(never)]
    fn row_of_decs(
        &self,
        room: u32,
        scope: &mut Scope,
        tokens: &'a [Token],
    ) -> Read<'a, (List<StrDec>, u32)>
        requires nests { Nests self.now.most (B.pre self.now.base) (B.post self.now.base) (D.pre self.now.dec) (D.post self.now.dec) }
        requires low { room ≤ self.now.most }
        ensures gives { Gives (λ x. (x.0, x.1.now)) result (mapped trees.strdecs (levels.row_of_decs scope.old room) tokens.now) }
        ensures moves { MovesAll scope.old scope.new result }
    {
        let mut found = List::new(self.alloc);
        let mut height = 0;
        let mut rest = tokens;
        'items: while begins_strdec(rest) {
            let (other, after) = self.item(room, scope, rest)?;
            height = higher(height, other.1);
            found.push(other.0)?;
            rest = after;
        }
        Ok(((found, height), rest))
    }

    /// Declarations, with semicolons before, between and behind them.
    pub fn decs(
        &self,
        room: u32,
        scope: &mut Scope,
        tokens: &'a [Token],
    ) -> Read<'a, (List<StrDec>, u32)>
        requires nests { Nests self.now.most (B.pre self.now.base) (B.post self.now.base) (D.pre self.now.dec) (D.post self.now.dec) }
        requires low { room ≤ self.now.most }
        ensures gives { Gives (λ x. (x.0, x.1.now)) result (mapped trees.strdecs (levels.decs scope.old room) tokens.now) }
        ensures moves { MovesAll scope.old scope.new result }
    {
        let ((), rest) = semis(tokens)?;
        let (found, rest) = self.row_of_decs(room, scope, rest)?;
        if goes_in_decs(rest) {
            return Err(ReadError::Refused(Code::Grammar, rest));
        }
        Ok((found, rest))
    }

    /// Declarations and the word that closes them.
    pub fn closed_decs(
        &self,
        word: u32,
        room: u32,
        scope: &mut Scope,
        tokens: &'a [Token],
    ) -> Read<'a, (List<StrDec>, u32)>
        requires nests { Nests self.now.most (B.pre self.now.base) (B.post self.now.base) (D.pre self.now.dec) (D.post self.now.dec) }
        requires low { room ≤ self.now.most }
        ensures gives { Gives (λ x. (x.0, x.1.now)) result (mapped trees.strdecs (levels.closed_decs word scope.old room) tokens.now) }
        ensures moves { MovesAll scope.old scope.new result }
    {
        let (found, rest) = self.decs(room, scope, tokens)?;
        let rest = behind(word, rest)?;
        Ok((found, rest))
    }

    /// The same, whose directives hold no longer than they stand.
    pub fn scoped_decs(
        &self,
        word: u32,
        room: u32,
        scope: &mut Scope,
        tokens: &'a [Token],
    ) -> Read<'a, (List<StrDec>, u32)>
        requires nests { Nests self.now.most (B.pre self.now.base) (B.post self.now.base) (D.pre self.now.dec) (D.post self.now.dec) }
        requires low { room ≤ self.now.most }
        ensures gives { Gives (λ x. (x.0, x.1.now)) result (mapped trees.strdecs (levels.closed_decs word scope.old room) tokens.now) }
        ensures keeps { OnOk result (scope.new ≡ scope.old) }
    {
        let outer = scope.count();
        let (found, rest) = self.closed_decs(word, room, scope, tokens)?;
        scope.leave(outer)?;
        Ok((found, rest))
    }
}
