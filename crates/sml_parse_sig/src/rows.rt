ghost use Rattle.std.specs.Prelude.{◌≡◌};
ghost use Rattle.readers.specs.Reader.{mapped, row, skip, token_by};
ghost use Rattle.readers.specs.Forms.{seps};
ghost use Rattle.readers.specs.Given.{Gives};
ghost use Rattle.sml_grammar.specs.Words.{AND as SEPARATES, EQUALS as MAKES_EQUAL};
ghost use Rattle.sml_grammar.specs.Tokens as tokens_spec;
ghost use Rattle.sml_grammar.specs.Tokens.{is};
ghost use Rattle.sml_grammar.specs.ReadTypes.{ty_read};
ghost use Rattle.sml_grammar_exp.specs.ReadBinds.{tybind_read};
ghost use Rattle.sml_grammar_sig.specs.ReadDescs as descs;
ghost use Rattle.sml_grammar_sig.specs.ReadSigs as read;
ghost use Rattle.sml_parse_sig.specs.Rows as rows;

use crate::desc::named;
use crate::name::Read;
use sml_ast::{Ident, LongIdent, Ty, TyBind, Tyvars};
use sml_lex::Token;
use sml_parse_bind::{any_vid, higher, long_strid, tybind};
use sml_parse_ty::ty;
use sml_scan::{behind, is_next, long_tycon};
use std::alloc::Global;
use tl_text::List;

const COLON: u32 = 47;

const EQUALS: u32 = 53;

const AND: u32 = 56;

/// One name of a type or more, with `and` between.
pub fn names(alloc: Global, tokens: &[Token]) -> Read<'_, List<(Tyvars, Ident)>>
    ensures { Gives (λ x. (x.0, x.1.now)) result (seps (is SEPARATES) descs.named_read tokens.now) }
{
    let (first, mut rest) = named(alloc, tokens)?;
    let mut found = List::new(alloc);
    found.push(first)?;
    'items: while is_next(AND, rest) {
        let after = behind(AND, rest)?;
        let (other, after) = named(alloc, after)?;
        found.push(other)?;
        rest = after;
    }
    Ok((found, rest))
}

/// Further names of types, each behind `and`.
pub fn more_names(alloc: Global, tokens: &[Token]) -> Read<'_, List<(Tyvars, Ident)>>
    ensures { Gives (λ x. (x.0, x.1.now)) result (row (is SEPARATES) (skip (is SEPARATES) descs.named_read) tokens.now) }
{
    let mut found = List::new(alloc);
    let mut rest = tokens;
    'items: while is_next(AND, rest) {
        let after = behind(AND, rest)?;
        let (other, after) = named(alloc, after)?;
        found.push(other)?;
        rest = after;
    }
    Ok((found, rest))
}

/// Further bindings of types, each behind `and`.
pub fn more_tybinds(alloc: Global, room: u32, tokens: &[Token]) -> Read<'_, (List<TyBind>, u32)>
    ensures { Gives (λ x. (x.0, x.1.now)) result (mapped rows.tybinds (row (is SEPARATES) (skip (is SEPARATES) (tybind_read (ty_read room)))) tokens.now) }
{
    let mut found = List::new(alloc);
    let mut height = 0;
    let mut rest = tokens;
    'items: while is_next(AND, rest) {
        let after = behind(AND, rest)?;
        let (other, after) = tybind(alloc, room, after)?;
        height = higher(height, other.1);
        found.push(other.0)?;
        rest = after;
    }
    Ok(((found, height), rest))
}

/// Names of types, each behind `=`, one or more.
pub fn equal_types(alloc: Global, tokens: &[Token]) -> Read<'_, List<LongIdent>>
    ensures { Gives (λ x. (x.0, x.1.now)) result (seps (is MAKES_EQUAL) (token_by tokens_spec.long_tycon) tokens.now) }
{
    let (first, mut rest) = long_tycon(alloc, tokens)?;
    let mut found = List::new(alloc);
    found.push(first)?;
    'items: while is_next(EQUALS, rest) {
        let after = behind(EQUALS, rest)?;
        let (other, after) = long_tycon(alloc, after)?;
        found.push(other)?;
        rest = after;
    }
    Ok((found, rest))
}

/// Names of structures with `=` between, one or more.
pub fn equal_structures(alloc: Global, tokens: &[Token]) -> Read<'_, List<LongIdent>>
    ensures { Gives (λ x. (x.0, x.1.now)) result (seps (is MAKES_EQUAL) (token_by tokens_spec.long_strid) tokens.now) }
{
    let (first, mut rest) = long_strid(alloc, tokens)?;
    let mut found = List::new(alloc);
    found.push(first)?;
    'items: while is_next(EQUALS, rest) {
        let after = behind(EQUALS, rest)?;
        let (other, after) = long_strid(alloc, after)?;
        found.push(other)?;
        rest = after;
    }
    Ok((found, rest))
}

/// `x : t`
fn val(alloc: Global, room: u32, tokens: &[Token]) -> Read<'_, (Ident, (Ty, u32))>
    ensures { Gives (λ x. (x.0, x.1.now)) result (read.val_read (ty_read room) tokens.now) }
{
    let (name, rest) = any_vid(alloc, tokens)?;
    let rest = behind(COLON, rest)?;
    let (ty, rest) = ty(alloc, room, rest)?;
    Ok(((name, ty), rest))
}

/// One value with its type or more, with `and` between.
pub fn vals(alloc: Global, room: u32, tokens: &[Token]) -> Read<'_, (List<(Ident, Ty)>, u32)>
    ensures { Gives (λ x. (x.0, x.1.now)) result (mapped rows.vals (seps (is SEPARATES) (read.val_read (ty_read room))) tokens.now) }
{
    let (first, mut rest) = val(alloc, room, tokens)?;
    let mut found = List::new(alloc);
    let mut height = first.1.1;
    found.push((first.0, first.1.0))?;
    'items: while is_next(AND, rest) {
        let after = behind(AND, rest)?;
        let (other, after) = val(alloc, room, after)?;
        height = higher(height, other.1.1);
        found.push((other.0, other.1.0))?;
        rest = after;
    }
    Ok(((found, height), rest))
}
