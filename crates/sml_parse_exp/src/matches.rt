ghost use Rattle.std.specs.Prelude.{◌≡◌, ◌≤◌, OnOk, false};
ghost use Rattle.readers.specs.Reader.{mapped};
ghost use Rattle.readers.specs.Given.{Gives};
ghost use Rattle.sml_grammar_exp.specs.ReadLevels as knot;
ghost use Rattle.sml_parse_exp.specs.Levels as levels;
ghost use Rattle.sml_parse_exp.specs.Nested.{Nests};
ghost use Rattle.sml_parse_exp.specs.Trees as trees;

use crate::inside::{Inside, Level, Read};
use crate::tall::{Tall, higher, takes_bar};
use crate::tree::arm;
use readers::{Code, ReadError, refusal};
use sml_ast::{Dec, Exp, Rule};
use sml_lex::Token;
use sml_parse_pat::{begins_at as begins_pat, pat};
use sml_scan::{behind, is_next};
use sml_scope::Scope;
use std::alloc::Global;
use tl_text::{Boxed, List};

const BAR: u32 = 52;

const DARROW: u32 = 54;

impl<
    'a,
    E: Fn(Global, u32, Level, &mut Scope, &'a [Token]) -> Read<'a, Tall<Boxed<Exp>>>,
    D: Fn(Global, u32, &mut Scope, &'a [Token]) -> Read<'a, (Dec, u32)>,
> Inside<E, D> {
    /// `p => e`, where what stands inside has this room.
    fn rule_level(&self, room: u32, scope: &mut Scope, tokens: &'a [Token]) -> Read<'a, Tall<Rule>>
        requires nests { Nests self.now.most (E.pre self.now.exp) (E.post self.now.exp) (D.pre self.now.dec) (D.post self.now.dec) }
        requires low { room ≤ self.now.most }
        ensures gives { Gives (λ x. (trees.seen x.0, x.1.now)) result (levels.rule_level scope.old room tokens.now) }
        ensures keeps { OnOk result (scope.new ≡ scope.old) }
    {
        if !begins_pat(scope.fixities(), tokens) {
            return Err(ReadError::Refused(Code::Grammar, tokens));
        }
        if room < 2 {
            return Err(ReadError::Refused(Code::Depth, tokens));
        }
        let (pat, rest) = pat(self.alloc, room, scope.fixities(), tokens)?;
        let rest = behind(DARROW, rest)?;
        let (exp, rest) = self.exp(room, scope, rest)?;
        Ok((arm(pat, exp)?, rest))
    }

    /// `p => e`, of at most this height.
    #[tactic(auto, unfolding(sml_grammar_exp::specs::ReadLevels::rule_read))]
    fn rule(&self, room: u32, scope: &mut Scope, tokens: &'a [Token]) -> Read<'a, Tall<Rule>>
        requires nests { Nests self.now.most (E.pre self.now.exp) (E.post self.now.exp) (D.pre self.now.dec) (D.post self.now.dec) }
        requires low { room ≤ self.now.most }
        ensures gives { Gives (λ x. (trees.seen x.0, x.1.now)) result (knot.rule_read room false scope.old tokens.now) }
        ensures keeps { OnOk result (scope.new ≡ scope.old) }
    {
        if room == 0 {
            return Err(ReadError::Refused(refusal(begins_pat(scope.fixities(), tokens)), tokens));
        }
        self.rule_level(room - 1, scope, tokens)
    }

    /// One rule or more, with bars between; a bar belongs to the nearest match.
    pub fn rules(
        &self,
        room: u32,
        scope: &mut Scope,
        tokens: &'a [Token],
    ) -> Read<'a, Tall<List<Rule>>>
        requires nests { Nests self.now.most (E.pre self.now.exp) (E.post self.now.exp) (D.pre self.now.dec) (D.post self.now.dec) }
        requires low { room ≤ self.now.most }
        ensures gives { Gives (λ x. (trees.seen x.0, x.1.now)) result (mapped trees.rules_of (levels.rules scope.old room) tokens.now) }
        ensures keeps { OnOk result (scope.new ≡ scope.old) }
    {
        let (first, mut rest) = self.rule(room, scope, tokens)?;
        let mut tree = List::new(self.alloc);
        let mut ends = first.ends;
        let mut height = first.height;
        tree.push(first.tree)?;
        'rules: while is_next(BAR, rest) {
            if takes_bar(ends) {
                return Err(ReadError::Refused(Code::Grammar, rest));
            }
            let after = behind(BAR, rest)?;
            let (other, after) = self.rule(room, scope, after)?;
            ends = other.ends;
            height = higher(height, other.height);
            tree.push(other.tree)?;
            rest = after;
        }
        Ok((Tall { tree, ends, height }, rest))
    }
}
