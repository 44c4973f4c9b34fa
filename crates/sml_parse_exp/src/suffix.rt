ghost use Rattle.std.specs.Prelude.{◌≡◌, ◌≤◌, OnOk};
ghost use Rattle.readers.specs.Reader.{mapped};
ghost use Rattle.readers.specs.Given.{Gives};
ghost use Rattle.sml_parse_exp.specs.Levels as levels;
ghost use Rattle.sml_parse_exp.specs.Nested.{Nests};
ghost use Rattle.sml_parse_exp.specs.Trees as trees;

use crate::inside::{Inside, Level, Read};
use crate::tall::{Tall, higher, is_near};
use crate::tree::{and_also, handled, or_else, typed};
use readers::{Code, Floor, ReadError};
use sml_ast::{Dec, Exp, Rule, Ty};
use sml_lex::Token;
use sml_parse_ty::ty;
use sml_scan::{behind, is_next};
use sml_scope::Scope;
use std::alloc::Global;
use tl_text::{Boxed, List};

const ANDALSO: u32 = 1;

const HANDLE: u32 = 11;

const ORELSE: u32 = 22;

const COLON: u32 = 47;

/// `: t`
fn annotation(alloc: Global, room: u32, tokens: &[Token]) -> Read<'_, (Ty, u32)>
    ensures { Gives (λ x. (x.0, x.1.now)) result (levels.annotation room tokens.now) }
{
    let rest = behind(COLON, tokens)?;
    let (ty, rest) = ty(alloc, room, rest)?;
    Ok((ty, rest))
}

impl<
    'a,
    E: Fn(Global, u32, Level, &mut Scope, &'a [Token]) -> Read<'a, Tall<Boxed<Exp>>>,
    D: Fn(Global, u32, &mut Scope, &'a [Token]) -> Read<'a, (Dec, u32)>,
> Inside<E, D> {
    /// `e : t : u`
    pub fn typed(
        &self,
        room: u32,
        scope: &mut Scope,
        tokens: &'a [Token],
    ) -> Read<'a, Tall<Boxed<Exp>>>
        requires nests { Nests self.now.most (E.pre self.now.exp) (E.post self.now.exp) (D.pre self.now.dec) (D.post self.now.dec) }
        requires low { room ≤ self.now.most }
        ensures gives { Gives (λ x. (trees.seen x.0, x.1.now)) result (levels.typed scope.old room tokens.now) }
        ensures keeps { OnOk result (scope.new ≡ scope.old) }
    {
        let (mut found, mut rest) = self.row(room, Floor::ground(), scope, tokens)?;
        'types: while is_next(COLON, rest) {
            let least = higher(2, found.height);
            if room < least {
                return Err(ReadError::Refused(Code::Depth, rest));
            }
            let (ty, after) = annotation(self.alloc, room, rest)?;
            found = typed(self.alloc, found, ty)?;
            rest = after;
        }
        Ok((found, rest))
    }

    /// `andalso e`
    fn and_suffix(
        &self,
        room: u32,
        scope: &mut Scope,
        tokens: &'a [Token],
    ) -> Read<'a, Tall<Boxed<Exp>>>
        requires nests { Nests self.now.most (E.pre self.now.exp) (E.post self.now.exp) (D.pre self.now.dec) (D.post self.now.dec) }
        requires low { room ≤ self.now.most }
        ensures gives { Gives (λ x. (trees.seen x.0, x.1.now)) result (levels.and_suffix scope.old room tokens.now) }
        ensures keeps { OnOk result (scope.new ≡ scope.old) }
    {
        let rest = behind(ANDALSO, tokens)?;
        self.behind_and(room, scope, rest)
    }

    /// `e andalso f andalso g`
    pub fn and_also(
        &self,
        room: u32,
        scope: &mut Scope,
        tokens: &'a [Token],
    ) -> Read<'a, Tall<Boxed<Exp>>>
        requires nests { Nests self.now.most (E.pre self.now.exp) (E.post self.now.exp) (D.pre self.now.dec) (D.post self.now.dec) }
        requires low { room ≤ self.now.most }
        ensures gives { Gives (λ x. (trees.seen x.0, x.1.now)) result (levels.and_also scope.old room tokens.now) }
        ensures keeps { OnOk result (scope.new ≡ scope.old) }
    {
        let (mut found, mut rest) = self.typed(room, scope, tokens)?;
        'operands: while is_next(ANDALSO, rest) {
            if !is_near(found.ends) {
                return Err(ReadError::Refused(Code::Grammar, rest));
            }
            let least = higher(2, found.height);
            if room < least {
                return Err(ReadError::Refused(Code::Depth, rest));
            }
            let (right, after) = self.and_suffix(room, scope, rest)?;
            found = and_also(self.alloc, found, right)?;
            rest = after;
        }
        Ok((found, rest))
    }

    /// `orelse e`
    fn or_suffix(
        &self,
        room: u32,
        scope: &mut Scope,
        tokens: &'a [Token],
    ) -> Read<'a, Tall<Boxed<Exp>>>
        requires nests { Nests self.now.most (E.pre self.now.exp) (E.post self.now.exp) (D.pre self.now.dec) (D.post self.now.dec) }
        requires low { room ≤ self.now.most }
        ensures gives { Gives (λ x. (trees.seen x.0, x.1.now)) result (levels.or_suffix scope.old room tokens.now) }
        ensures keeps { OnOk result (scope.new ≡ scope.old) }
    {
        let rest = behind(ORELSE, tokens)?;
        self.behind_or(room, scope, rest)
    }

    /// `e orelse f orelse g`
    fn or_else(
        &self,
        room: u32,
        scope: &mut Scope,
        tokens: &'a [Token],
    ) -> Read<'a, Tall<Boxed<Exp>>>
        requires nests { Nests self.now.most (E.pre self.now.exp) (E.post self.now.exp) (D.pre self.now.dec) (D.post self.now.dec) }
        requires low { room ≤ self.now.most }
        ensures gives { Gives (λ x. (trees.seen x.0, x.1.now)) result (levels.or_else scope.old room tokens.now) }
        ensures keeps { OnOk result (scope.new ≡ scope.old) }
    {
        let (mut found, mut rest) = self.and_also(room, scope, tokens)?;
        'operands: while is_next(ORELSE, rest) {
            if !is_near(found.ends) {
                return Err(ReadError::Refused(Code::Grammar, rest));
            }
            let least = higher(2, found.height);
            if room < least {
                return Err(ReadError::Refused(Code::Depth, rest));
            }
            let (right, after) = self.or_suffix(room, scope, rest)?;
            found = or_else(self.alloc, found, right)?;
            rest = after;
        }
        Ok((found, rest))
    }

    /// `handle p => e | q => f`
    fn handle_suffix(
        &self,
        room: u32,
        scope: &mut Scope,
        tokens: &'a [Token],
    ) -> Read<'a, Tall<List<Rule>>>
        requires nests { Nests self.now.most (E.pre self.now.exp) (E.post self.now.exp) (D.pre self.now.dec) (D.post self.now.dec) }
        requires low { room ≤ self.now.most }
        ensures gives { Gives (λ x. (trees.seen x.0, x.1.now)) result (mapped trees.rules_of (levels.handle_suffix scope.old room) tokens.now) }
        ensures keeps { OnOk result (scope.new ≡ scope.old) }
    {
        let rest = behind(HANDLE, tokens)?;
        self.rules(room, scope, rest)
    }

    /// `e handle p => f | q => g`
    pub fn handled(
        &self,
        room: u32,
        scope: &mut Scope,
        tokens: &'a [Token],
    ) -> Read<'a, Tall<Boxed<Exp>>>
        requires nests { Nests self.now.most (E.pre self.now.exp) (E.post self.now.exp) (D.pre self.now.dec) (D.post self.now.dec) }
        requires low { room ≤ self.now.most }
        ensures gives { Gives (λ x. (trees.seen x.0, x.1.now)) result (levels.handled scope.old room tokens.now) }
        ensures keeps { OnOk result (scope.new ≡ scope.old) }
    {
        let (found, rest) = self.or_else(room, scope, tokens)?;
        if !is_next(HANDLE, rest) {
            return Ok((found, rest));
        }
        if !is_near(found.ends) {
            return Err(ReadError::Refused(Code::Grammar, rest));
        }
        let least = higher(3, found.height);
        if room < least {
            return Err(ReadError::Refused(Code::Depth, rest));
        }
        let (rules, rest) = self.handle_suffix(room, scope, rest)?;
        Ok((handled(self.alloc, found, rules)?, rest))
    }
}
