ghost use Rattle.std.specs.Prelude.{◌≡◌};
ghost use Rattle.readers.specs.Reader.{both, mapped, row, skip, token_by};
ghost use Rattle.readers.specs.Forms.{seps};
ghost use Rattle.readers.specs.Given.{Gives};
ghost use Rattle.sml_fix.specs.Fixities.{settings};
ghost use Rattle.sml_grammar.specs.Words.{AND as SEPARATES, EQUALS as BEFORE_CONS};
ghost use Rattle.sml_grammar.specs.Tokens.{is};
ghost use Rattle.sml_grammar.specs.Tokens as tokens_spec;
ghost use Rattle.sml_grammar.specs.ReadTypes.{ty_read};
ghost use Rattle.sml_grammar_exp.specs.Binds as grammar;
ghost use Rattle.sml_grammar_exp.specs.ReadBinds as read;
ghost use Rattle.sml_parse_bind.specs.Levels as levels;
ghost use Rattle.sml_parse_bind.specs.Rows as rows;

use crate::constructor::{Con, constructors};
use crate::name::{Read, tycon};
use crate::option::{first_place, higher, listed};
use crate::type_bind::withtype;
use crate::vars::under_one;
use sml_ast::{DatBind, Ident, TyBind, Tyvars};
use sml_fix::Fixities;
use sml_lex::Token;
use sml_scan::{behind, is_next};
use std::alloc::Global;
use tl_text::{List, Place};

const EQUALS: u32 = 53;

const AND: u32 = 56;

/// Bindings of datatypes, and those behind their `withtype`.
pub type Datatypes = (List<DatBind>, List<TyBind>);

/// `'a t = C of u | D`, where the constructors have the height of the binding.
pub fn datbind_tree(
    alloc: Global,
    vars: Option<(Place, Tyvars)>,
    name: Ident,
    cons: (List<Con>, u32),
) -> (DatBind, u32)
    ensures { result ≡ grammar.datbind_of (vars, (name, cons)) }
{
    let place = first_place(&vars, name.0);
    (
        DatBind::Data(place, listed(alloc, vars), name, cons.0),
        cons.1,
    )
}

/// `t = C of u | D`
fn named<'a>(
    alloc: Global,
    room: u32,
    fix: &Fixities,
    tokens: &'a [Token],
) -> Read<'a, (Ident, (List<Con>, u32))>
    ensures { Gives (λ x. (x.0, x.1.now)) result (both (token_by tokens_spec.tycon) (skip (is BEFORE_CONS) (read.cons_read room (settings fix.now))) tokens.now) }
{
    let (name, rest) = tycon(alloc, tokens)?;
    let rest = behind(EQUALS, rest)?;
    let (cons, rest) = constructors(alloc, room, fix, rest)?;
    Ok(((name, cons), rest))
}

/// `'a t = C of u | D`, in two parts.
fn parts<'a>(
    alloc: Global,
    room: u32,
    fix: &Fixities,
    tokens: &'a [Token],
) -> Read<'a, (DatBind, u32)>
    ensures { Gives (λ x. (x.0, x.1.now)) result (levels.datbind_parts (settings fix.now) room tokens.now) }
{
    let (vars, rest) = under_one(alloc, tokens)?;
    let ((name, cons), rest) = named(alloc, room, fix, rest)?;
    Ok((datbind_tree(alloc, vars, name, cons), rest))
}

/// `'a t = C of u | D`
fn datbind<'a>(
    alloc: Global,
    room: u32,
    fix: &Fixities,
    tokens: &'a [Token],
) -> Read<'a, (DatBind, u32)>
    ensures { Gives (λ x. (x.0, x.1.now)) result (read.datbind_read (read.cons_read room (settings fix.now)) tokens.now) }
{
    parts(alloc, room, fix, tokens)
}

/// Further bindings, each behind `and`.
pub fn more_datbinds<'a>(
    alloc: Global,
    room: u32,
    fix: &Fixities,
    tokens: &'a [Token],
) -> Read<'a, (List<DatBind>, u32)>
    ensures { Gives (λ x. (x.0, x.1.now)) result (mapped rows.datbinds (row (is SEPARATES) (skip (is SEPARATES) (read.datbind_read (read.cons_read room (settings fix.now))))) tokens.now) }
{
    let mut found = List::new(alloc);
    let mut height = 0;
    let mut rest = tokens;
    'items: while is_next(AND, rest) {
        let after = behind(AND, rest)?;
        let (other, after) = datbind(alloc, room, fix, after)?;
        height = higher(height, other.1);
        found.push(other.0)?;
        rest = after;
    }
    Ok(((found, height), rest))
}

/// One binding or more, with `and` between.
fn datbinds<'a>(
    alloc: Global,
    room: u32,
    fix: &Fixities,
    tokens: &'a [Token],
) -> Read<'a, (List<DatBind>, u32)>
    ensures { Gives (λ x. (x.0, x.1.now)) result (mapped rows.datbinds (seps (is SEPARATES) (read.datbind_read (read.cons_read room (settings fix.now)))) tokens.now) }
{
    let (first, mut rest) = datbind(alloc, room, fix, tokens)?;
    let mut found = List::new(alloc);
    let mut height = first.1;
    found.push(first.0)?;
    'items: while is_next(AND, rest) {
        let after = behind(AND, rest)?;
        let (other, after) = datbind(alloc, room, fix, after)?;
        height = higher(height, other.1);
        found.push(other.0)?;
        rest = after;
    }
    Ok(((found, height), rest))
}

/// Behind `abstype`, up to its `with`: the bindings, with the height of the highest.
///
/// # Errors
/// Grammar, Depth at the first token with which nothing goes on. NoMemory where none is left.
pub fn abstract_types<'a>(
    alloc: Global,
    room: u32,
    fix: &Fixities,
    tokens: &'a [Token],
) -> Read<'a, (Datatypes, u32)>
    ensures { Gives (λ x. (x.0, x.1.now)) result (mapped rows.abstract_types (levels.abstract_types (settings fix.now) room) tokens.now) }
{
    let ((found, height), rest) = datbinds(alloc, room, fix, tokens)?;
    let ((types, other), rest) = withtype(alloc, room, rest)?;
    Ok((((found, types), higher(height, other)), rest))
}
