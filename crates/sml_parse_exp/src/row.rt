ghost use Rattle.std.specs.Prelude.{◌≡◌, ◌≤◌, OnOk, true};
ghost use Rattle.readers.specs.Reader.{first, head_is};
ghost use Rattle.readers.specs.Given.{Gives};
ghost use Rattle.sml_grammar_exp.specs.Decs.{fixed};
ghost use Rattle.sml_parse_exp.specs.Levels as levels;
ghost use Rattle.sml_parse_exp.specs.Nested.{Nests};
ghost use Rattle.sml_parse_exp.specs.Trees as trees;

use crate::first::begins_at;
use crate::inside::{Inside, Level, Read};
use crate::operators::is_taken;
use crate::tall::{Tall, higher};
use crate::tree::{applied, at_place, infixed, top_fixity};
use readers::{Floor, ReadError, judge};
use sml_ast::{Dec, Exp, Ident};
use sml_lex::Token;
use sml_parse_bind::operator;
use sml_scan::fixity_of;
use sml_scope::Scope;
use std::alloc::Global;
use tl_text::{Boxed, List};

impl<
    'a,
    E: Fn(Global, u32, Level, &mut Scope, &'a [Token]) -> Read<'a, Tall<Boxed<Exp>>>,
    D: Fn(Global, u32, &mut Scope, &'a [Token]) -> Read<'a, (Dec, u32)>,
> Inside<E, D> {
    /// `e f g`: one atomic expression or more, each of at most this height.
    fn operand(
        &self,
        room: u32,
        scope: &mut Scope,
        tokens: &'a [Token],
    ) -> Read<'a, Tall<Boxed<Exp>>>
        requires nests { Nests self.now.most (E.pre self.now.exp) (E.post self.now.exp) (D.pre self.now.dec) (D.post self.now.dec) }
        requires low { room ≤ self.now.most }
        ensures gives { Gives (λ x. (trees.seen x.0, x.1.now)) result (levels.operand scope.old room tokens.now) }
        ensures keeps { OnOk result (scope.new ≡ scope.old) }
    {
        let (first, mut rest) = self.at(room, scope, tokens)?;
        let place = at_place(&first.0);
        let mut found = List::new(self.alloc);
        let mut height = first.1;
        found.push(first.0)?;
        'items: while begins_at(scope.fixities(), rest) {
            let (other, after) = self.at(room, scope, rest)?;
            height = higher(height, other.1);
            found.push(other.0)?;
            rest = after;
        }
        let tree = applied(self.alloc, place, found, height)?;
        Ok((tree, rest))
    }

    /// An operator behind this expression, and the row on its right.
    fn operation(
        &self,
        room: u32,
        floor: Floor,
        left: &Tall<Boxed<Exp>>,
        scope: &mut Scope,
        tokens: &'a [Token],
    ) -> Read<'a, (Ident, Tall<Boxed<Exp>>)>
        requires nests { Nests self.now.most (E.pre self.now.exp) (E.post self.now.exp) (D.pre self.now.dec) (D.post self.now.dec) }
        requires low { room ≤ self.now.most }
        requires comes { head_is (levels.taken (fixed scope.old) floor) (first tokens.now) ≡ true }
        ensures gives { Gives (λ x. ((x.0.0, trees.seen x.0.1), x.1.now)) result (levels.operation scope.old room floor (trees.seen left.now) tokens.now) }
        ensures keeps { OnOk result (scope.new ≡ scope.old) }
    {
        let fix = scope.fixities();
        let (op, inner) = operator(self.alloc, fix, tokens)?;
        let fixity = fixity_of(fix, &op.1);
        let top = top_fixity(fix, &left.tree);
        if let Some(code) = judge(room, floor, top, higher(2, left.height), fixity) {
            return Err(ReadError::Refused(code, tokens));
        }
        let (right, rest) = self.right(room, fixity.floor(), scope, inner)?;
        Ok(((op, right), rest))
    }

    /// The row that stands on this floor, as far as it goes, where its operands have this room.
    pub fn row(
        &self,
        room: u32,
        floor: Floor,
        scope: &mut Scope,
        tokens: &'a [Token],
    ) -> Read<'a, Tall<Boxed<Exp>>>
        requires nests { Nests self.now.most (E.pre self.now.exp) (E.post self.now.exp) (D.pre self.now.dec) (D.post self.now.dec) }
        requires low { room ≤ self.now.most }
        ensures gives { Gives (λ x. (trees.seen x.0, x.1.now)) result (levels.row scope.old room floor tokens.now) }
        ensures keeps { OnOk result (scope.new ≡ scope.old) }
    {
        let (mut found, mut rest) = self.operand(room, scope, tokens)?;
        let mut taken = is_taken(self.alloc, scope.fixities(), floor, rest)?;
        'operators: while taken {
            let (more, after) = self.operation(room, floor, &found, scope, rest)?;
            found = infixed(self.alloc, found, more.0, more.1)?;
            rest = after;
            taken = is_taken(self.alloc, scope.fixities(), floor, rest)?;
        }
        Ok((found, rest))
    }
}
