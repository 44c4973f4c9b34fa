ghost use Rattle.std.specs.Prelude.{◌≡◌, ◌≤◌, ◌+◌, ◌++◌, IfOk, OnOk, false, length, take};
ghost use Rattle.readers.specs.Reader.{mapped};
ghost use Rattle.sml_ast.specs.declared.program.StrDec.TheVariants as made;
ghost use Rattle.readers.specs.Given.{Gives};
ghost use Rattle.sml_grammar_mod.specs.ReadStrs as read;
ghost use Rattle.sml_grammar_mod.specs.Strs as grammar;
ghost use Rattle.sml_parse_mod.specs.Levels as levels;
ghost use Rattle.sml_parse_mod.specs.Nested.{Nests, Moves, MovesAll};
ghost use Rattle.sml_parse_mod.specs.Trees as trees;
ghost use Rattle.sml_grammar_exp.specs.ReadLevels as knot;
ghost use Rattle.sml_grammar.specs.Words.{END as ENDS};

use crate::first::goes_on;
use crate::inside::{Inside, Read};
use crate::tree::dec_place;
use readers::{Code, ReadError};
use sml_ast::{Dec, StrBind, StrDec, StrExp};
use sml_lex::Token;
use sml_parse_exp::dec;
use sml_scan::{above, behind, is_next, place_of};
use sml_scope::Scope;
use std::alloc::Global;
use tl_text::{List, NoMemory, Place};

const END: u32 = 7;

const IN: u32 = 13;

const LOCAL: u32 = 17;

const STRUCTURE: u32 = 38;

/// Whether all of them are declarations of the core.
fn are_core(decs: &[StrDec]) -> bool
    ensures { result ≡ trees.are_core decs.now }
{
    for dec in decs {
        match dec {
            StrDec::Core(..) => {}
            _ => return false,
        }
    }
    true
}

/// The declarations of the core among them.
fn cores(alloc: Global, decs: List<StrDec>) -> Result<List<Dec>, NoMemory>
    ensures { IfOk result (λ ds. ds ≡ trees.core_parts decs) }
{
    let mut found = List::new(alloc);
    for dec in decs.into_vec() {
        if let Some(dec) = dec.into_core() {
            found.push(dec)?;
        }
    }
    Ok(found)
}

/// A `local` of these members, each row with the height of its highest; of the core where all of them are.
fn local_tree(
    alloc: Global,
    place: Place,
    hidden: (List<StrDec>, u32),
    shown: (List<StrDec>, u32),
) -> Result<(StrDec, u32), NoMemory>
    ensures { IfOk result (λ x. x ≡ trees.local_tree place hidden shown) }
{
    let height = above(hidden.1, shown.1)?;
    if are_core(hidden.0.items()) && are_core(shown.0.items()) {
        let hidden = cores(alloc, hidden.0)?;
        let shown = cores(alloc, shown.0)?;
        let height = height.max(2);
        return Ok((
            StrDec::Core(place, Dec::Local(place, hidden, shown)),
            height,
        ));
    }
    Ok((StrDec::LocalStr(place, hidden.0, shown.0), height))
}

/// These bindings, with the height of their highest, behind the word at this place.
fn structs_tree(place: Place, found: (List<StrBind>, u32)) -> Result<(StrDec, u32), NoMemory>
    ensures { IfOk result (λ x. x ≡ (made.Structs place found.0, found.1 + 1)) }
{
    let height = above(found.1, 0)?;
    Ok((StrDec::Structs(place, found.0), height))
}

/// The same as a declaration at structure level.
fn core_tree(found: (Dec, u32)) -> Result<(StrDec, u32), NoMemory>
    ensures { IfOk result (λ x. x ≡ grammar.core_of found) }
{
    let height = above(found.1, 0)?;
    Ok((StrDec::Core(dec_place(&found.0), found.0), height))
}

impl<
    'a,
    B: Fn(Global, u32, &mut Scope, &'a [Token]) -> Read<'a, (StrExp, u32)>,
    D: Fn(Global, u32, &mut Scope, &'a [Token]) -> Read<'a, (StrDec, u32)>,
> Inside<B, D> {
    /// `in d end`
    fn shown_decs(
        &self,
        room: u32,
        scope: &mut Scope,
        tokens: &'a [Token],
    ) -> Read<'a, (List<StrDec>, u32)>
        requires nests { Nests self.now.most (B.pre self.now.base) (B.post self.now.base) (D.pre self.now.dec) (D.post self.now.dec) }
        requires low { room ≤ self.now.most }
        ensures gives { Gives (λ x. (x.0, x.1.now)) result (mapped trees.strdecs (levels.shown_decs scope.old room) tokens.now) }
        ensures moves { MovesAll scope.old scope.new result }
    {
        let rest = behind(IN, tokens)?;
        self.closed_decs(END, room, scope, rest)
    }

    /// `in d end` in a `local`. What was brought into force before the `in`, behind the given count, ends with it.
    fn left_decs(
        &self,
        outer: usize,
        room: u32,
        scope: &mut Scope,
        tokens: &'a [Token],
    ) -> Read<'a, (List<StrDec>, u32)>
        requires nests { Nests self.now.most (B.pre self.now.base) (B.post self.now.base) (D.pre self.now.dec) (D.post self.now.dec) }
        requires low { room ≤ self.now.most }
        requires order { outer ≤ length scope.old }
        ensures gives { Gives (λ x. (x.0, x.1.now)) result (mapped trees.strdecs (levels.shown_decs scope.old room) tokens.now) }
        ensures leaves { IfOk result (λ x. scope.new ≡ take outer scope.old ++ trees.all_changes x.0.0) }
    {
        let inner = scope.count();
        let (shown, rest) = self.shown_decs(room, scope, tokens)?;
        scope.leave_local(outer, inner)?;
        Ok((shown, rest))
    }

    /// Behind `local`, whose place is given.
    #[tactic(auto, using(crate::proofs::Scopes::front_short))]
    #[inline(never)]
    fn local(
        &self,
        place: Place,
        room: u32,
        scope: &mut Scope,
        tokens: &'a [Token],
    ) -> Read<'a, (StrDec, u32)>
        requires nests { Nests self.now.most (B.pre self.now.base) (B.post self.now.base) (D.pre self.now.dec) (D.post self.now.dec) }
        requires low { room ≤ self.now.most }
        ensures gives { Gives (λ x. (x.0, x.1.now)) result (mapped (λ x. read.any_local_of (place, x)) (levels.local scope.old room) tokens.now) }
        ensures moves { Moves scope.old scope.new result }
    {
        let outer = scope.count();
        let (hidden, rest) = self.decs(room, scope, tokens)?;
        let (shown, rest) = self.left_decs(outer, room, scope, rest)?;
        if goes_on(rest) {
            return Err(ReadError::Refused(Code::Grammar, rest));
        }
        Ok((local_tree(self.alloc, place, hidden, shown)?, rest))
    }

    /// Behind `structure`, whose place is given.
    #[inline(never)]
    fn structs(
        &self,
        place: Place,
        room: u32,
        scope: &mut Scope,
        tokens: &'a [Token],
    ) -> Read<'a, (StrDec, u32)>
        requires nests { Nests self.now.most (B.pre self.now.base) (B.post self.now.base) (D.pre self.now.dec) (D.post self.now.dec) }
        requires low { room ≤ self.now.most }
        ensures gives { Gives (λ x. (x.0, x.1.now)) result (mapped (λ x. grammar.structs_of (place, x)) (levels.structs scope.old room) tokens.now) }
        ensures keeps { OnOk result (scope.new ≡ scope.old) }
    {
        let (found, rest) = self.strbinds(room, scope, tokens)?;
        if goes_on(rest) {
            return Err(ReadError::Refused(Code::Grammar, rest));
        }
        Ok((structs_tree(place, found)?, rest))
    }

    /// A declaration of the core.
    #[inline(never)]
    fn core(&self, room: u32, scope: &mut Scope, tokens: &'a [Token]) -> Read<'a, (StrDec, u32)>
        requires nests { Nests self.now.most (B.pre self.now.base) (B.post self.now.base) (D.pre self.now.dec) (D.post self.now.dec) }
        requires low { room ≤ self.now.most }
        ensures gives { Gives (λ x. (x.0, x.1.now)) result (levels.core scope.old room tokens.now) }
        ensures moves { Moves scope.old scope.new result }
    {
        let (found, rest) = dec(self.alloc, room, scope, tokens)?;
        if goes_on(rest) {
            return Err(ReadError::Refused(Code::Grammar, rest));
        }
        Ok((core_tree(found)?, rest))
    }

    /// A declaration at structure level, where what stands inside has this room.
    pub fn declaration(
        &self,
        room: u32,
        scope: &mut Scope,
        tokens: &'a [Token],
    ) -> Read<'a, (StrDec, u32)>
        requires nests { Nests self.now.most (B.pre self.now.base) (B.post self.now.base) (D.pre self.now.dec) (D.post self.now.dec) }
        requires low { room ≤ self.now.most }
        ensures gives { Gives (λ x. (x.0, x.1.now)) result (levels.declaration scope.old room tokens.now) }
        ensures moves { Moves scope.old scope.new result }
    {
        if is_next(LOCAL, tokens) {
            if room < 1 {
                return Err(ReadError::Refused(Code::Depth, tokens));
            }
            let (place, rest) = place_of(LOCAL, tokens)?;
            return self.local(place, room, scope, rest);
        }
        if is_next(STRUCTURE, tokens) {
            if room < 2 {
                return Err(ReadError::Refused(Code::Depth, tokens));
            }
            let (place, rest) = place_of(STRUCTURE, tokens)?;
            return self.structs(place, room, scope, rest);
        }
        self.core(room, scope, tokens)
    }
}
