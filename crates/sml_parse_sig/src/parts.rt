ghost use Rattle.std.specs.Prelude.{◌≡◌, IfOk};
ghost use Rattle.readers.specs.Reader.{both, mapped, row, skip, token_by};
ghost use Rattle.readers.specs.Forms.{ended, maybe, seps};
ghost use Rattle.readers.specs.Given.{Gives};
ghost use Rattle.sml_grammar.specs.Words.{AND as SEPARATES, TYPE as OF_TYPES};
ghost use Rattle.sml_grammar.specs.Tokens as tokens_spec;
ghost use Rattle.sml_grammar.specs.Tokens.{is, tokens_of};
ghost use Rattle.sml_grammar.specs.ReadTypes.{ty_read};
ghost use Rattle.sml_grammar_sig.specs.ReadDescs as descs;
ghost use Rattle.sml_grammar_sig.specs.ReadSigs as read;
ghost use Rattle.sml_grammar_sig.specs.Sigs as grammar;
ghost use Rattle.sml_parse_sig.specs.declared.parts.Behind.TheVariants as behinds;
ghost use Rattle.sml_parse_sig.specs.Levels as levels;
ghost use Rattle.sml_parse_sig.specs.Rows as rows;

use crate::desc::{cons, named};
use crate::first::goes_in_spec;
use crate::name::Read;
use crate::rows::{equal_structures, equal_types, more_names, more_tybinds, names, vals};
use readers::{Code, ReadError};
use sml_ast::{Ident, Spec, Ty, TyBind, Tyvars};
use sml_lex::Token;
use sml_parse_bind::{higher, long_strid};
use sml_parse_ty::ty;
use sml_scan::{above, behind, is_next, long_tycon};
use std::alloc::Global;
use tl_text::{List, NoMemory, Place};

const TYPE: u32 = 26;

const EQUALS: u32 = 53;

const AND: u32 = 56;

/// Behind `eqtype`, whose place is given.
pub fn eqtypes(alloc: Global, place: Place, tokens: &[Token]) -> Read<'_, (Spec, u32)>
    ensures { Gives (λ x. (x.0, x.1.now)) result (mapped (λ x. grammar.eqtypes_of (place, x)) (ended (tokens_of read.spec_goes) (seps (is SEPARATES) descs.named_read)) tokens.now) }
{
    let (found, rest) = names(alloc, tokens)?;
    if goes_in_spec(rest) {
        return Err(ReadError::Refused(Code::Grammar, rest));
    }
    Ok(((Spec::EqSpec(place, found), 1), rest))
}

/// Behind `sharing type`.
fn share_types(alloc: Global, place: Place, tokens: &[Token]) -> Read<'_, Spec>
    ensures { Gives (λ x. (x.0, x.1.now)) result (mapped (λ x. grammar.sharing_in place (grammar.Shared.OfTypes x)) (read.equal_read (token_by tokens_spec.long_tycon)) tokens.now) }
{
    let (first, rest) = long_tycon(alloc, tokens)?;
    let rest = behind(EQUALS, rest)?;
    let (others, rest) = equal_types(alloc, rest)?;
    Ok((Spec::ShareTy(place, first, others), rest))
}

/// Behind `sharing`, where no `type` stands.
fn share_structures(alloc: Global, place: Place, tokens: &[Token]) -> Read<'_, Spec>
    ensures { Gives (λ x. (x.0, x.1.now)) result (mapped (λ x. grammar.sharing_in place (grammar.Shared.OfStructures x)) (read.equal_read (token_by tokens_spec.long_strid)) tokens.now) }
{
    let (first, rest) = long_strid(alloc, tokens)?;
    let rest = behind(EQUALS, rest)?;
    let (others, rest) = equal_structures(alloc, rest)?;
    Ok((Spec::ShareStr(place, first, others), rest))
}

/// Behind `sharing`.
fn shared(alloc: Global, place: Place, tokens: &[Token]) -> Read<'_, Spec>
    ensures { Gives (λ x. (x.0, x.1.now)) result (mapped (grammar.sharing_in place) levels.shared tokens.now) }
{
    if is_next(TYPE, tokens) {
        let rest = behind(TYPE, tokens)?;
        return share_types(alloc, place, rest);
    }
    share_structures(alloc, place, tokens)
}

/// What is made equal, and the height beside it.
fn sharing_parts(alloc: Global, place: Place, tokens: &[Token]) -> Read<'_, (Spec, u32)>
    ensures { Gives (λ x. (x.0, x.1.now)) result (mapped rows.sharing (ended (tokens_of read.spec_goes) (mapped (grammar.sharing_in place) levels.shared)) tokens.now) }
{
    let (found, rest) = shared(alloc, place, tokens)?;
    if goes_in_spec(rest) {
        return Err(ReadError::Refused(Code::Grammar, rest));
    }
    Ok(((found, 1), rest))
}

/// Behind `sharing`, whose place is given.
pub fn sharing(alloc: Global, place: Place, tokens: &[Token]) -> Read<'_, (Spec, u32)>
    ensures { Gives (λ x. (x.0, x.1.now)) result (mapped (λ x. grammar.sharing_of (place, x)) (ended (tokens_of read.spec_goes) levels.shared) tokens.now) }
{
    sharing_parts(alloc, place, tokens)
}

/// What follows the first name behind `type`, nothing too: further names, or its right side and further bindings.
#[derive(Drop)]
enum Behind {
    Names(List<(Tyvars, Ident)>),
    Equal(Ty, List<TyBind>),
}

/// `= t and 'a u = v`
fn equal(alloc: Global, room: u32, tokens: &[Token]) -> Read<'_, (Behind, u32)>
    ensures { Gives (λ x. (x.0, x.1.now)) result (mapped rows.behind (levels.equal room) tokens.now) }
{
    if !is_next(EQUALS, tokens) {
        return Err(ReadError::Refused(Code::Grammar, tokens));
    }
    if room < 1 {
        return Err(ReadError::Refused(Code::Depth, tokens));
    }
    let rest = behind(EQUALS, tokens)?;
    let (first, rest) = ty(alloc, room, rest)?;
    let ((others, height), rest) = more_tybinds(alloc, room, rest)?;
    let height = higher(first.1, height);
    Ok(((Behind::Equal(first.0, others), height), rest))
}

/// Further names behind the first, each behind `and`.
fn further_names(alloc: Global, tokens: &[Token]) -> Read<'_, (Behind, u32)>
    ensures { Gives (λ x. (x.0, x.1.now)) result (mapped rows.names_behind (row (is SEPARATES) (skip (is SEPARATES) descs.named_read)) tokens.now) }
{
    let (others, rest) = more_names(alloc, tokens)?;
    Ok(((Behind::Names(others), 0), rest))
}

/// Behind the first name.
fn behind_name(alloc: Global, room: u32, tokens: &[Token]) -> Read<'_, (Behind, u32)>
    ensures { Gives (λ x. (x.0, x.1.now)) result (mapped rows.some_behind (levels.behind_name room) tokens.now) }
{
    if is_next(EQUALS, tokens) {
        return equal(alloc, room, tokens);
    }
    further_names(alloc, tokens)
}

/// Names of types, where this one is the first.
fn type_names(
    place: Place,
    first: (Tyvars, Ident),
    others: List<(Tyvars, Ident)>,
) -> Result<Spec, NoMemory>
    ensures { IfOk result (λ x. x ≡ rows.types_tree place first (behinds.Names others)) }
{
    let mut all = others.into_vec();
    all.insert(0, first)?;
    Ok(Spec::TySpec(place, List::from_vec(all)))
}

/// Bindings of types, where the first one binds this name to this type.
fn synonyms(
    place: Place,
    first: (Tyvars, Ident),
    ty: Ty,
    others: List<TyBind>,
) -> Result<Spec, NoMemory>
    ensures { IfOk result (λ x. x ≡ rows.types_tree place first (behinds.Equal ty others)) }
{
    let mut all = others.into_vec();
    all.insert(0, (first.0, first.1, ty))?;
    Ok(Spec::SynSpec(place, List::from_vec(all)))
}

/// The specification of a first name and what follows it.
fn types_tree(
    place: Place,
    first: (Tyvars, Ident),
    others: (Behind, u32),
) -> Result<(Spec, u32), NoMemory>
    ensures { IfOk result (λ x. x ≡ rows.types place first others) }
{
    let height = above(others.1, 0)?;
    match others.0 {
        Behind::Names(names) => Ok((type_names(place, first, names)?, height)),
        Behind::Equal(ty, binds) => Ok((synonyms(place, first, ty, binds)?, height)),
    }
}

/// The first name, and what follows it with its height.
fn types_parts(alloc: Global, place: Place, room: u32, tokens: &[Token]) -> Read<'_, (Spec, u32)>
    ensures { Gives (λ x. (x.0, x.1.now)) result (mapped (λ x. rows.types place x.0 x.1) (ended (tokens_of read.spec_goes) (both descs.named_read (mapped rows.some_behind (levels.behind_name room)))) tokens.now) }
{
    let (first, rest) = named(alloc, tokens)?;
    let (others, rest) = behind_name(alloc, room, rest)?;
    if goes_in_spec(rest) {
        return Err(ReadError::Refused(Code::Grammar, rest));
    }
    Ok((types_tree(place, first, others)?, rest))
}

/// Behind `type`, whose place is given.
pub fn types(alloc: Global, place: Place, room: u32, tokens: &[Token]) -> Read<'_, (Spec, u32)>
    ensures { Gives (λ x. (x.0, x.1.now)) result (mapped (λ x. read.types_of (place, x)) (levels.types room) tokens.now) }
{
    types_parts(alloc, place, room, tokens)
}

/// The exceptions without heights, and the height of the highest.
fn exceptions_parts(
    alloc: Global,
    place: Place,
    room: u32,
    tokens: &[Token],
) -> Read<'_, (Spec, u32)>
    ensures { Gives (λ x. (x.0, x.1.now)) result (mapped (rows.exceptions place) (ended (tokens_of read.spec_goes) (mapped rows.cons (seps (is SEPARATES) (descs.con_read (ty_read room) room)))) tokens.now) }
{
    let ((found, height), rest) = cons(alloc, AND, room, tokens)?;
    if goes_in_spec(rest) {
        return Err(ReadError::Refused(Code::Grammar, rest));
    }
    let height = above(height, 0)?;
    Ok(((Spec::ExnSpec(place, found), height), rest))
}

/// Behind `exception`, whose place is given.
pub fn exceptions(alloc: Global, place: Place, room: u32, tokens: &[Token]) -> Read<'_, (Spec, u32)>
    ensures { Gives (λ x. (x.0, x.1.now)) result (mapped (λ x. grammar.exns_of (place, x)) (ended (tokens_of read.spec_goes) (seps (is SEPARATES) (descs.con_read (ty_read room) room))) tokens.now) }
{
    exceptions_parts(alloc, place, room, tokens)
}

/// The values without heights, and the height of the highest.
fn values_parts(alloc: Global, place: Place, room: u32, tokens: &[Token]) -> Read<'_, (Spec, u32)>
    ensures { Gives (λ x. (x.0, x.1.now)) result (mapped (rows.values place) (ended (tokens_of read.spec_goes) (mapped rows.vals (seps (is SEPARATES) (read.val_read (ty_read room))))) tokens.now) }
{
    let ((found, height), rest) = vals(alloc, room, tokens)?;
    if goes_in_spec(rest) {
        return Err(ReadError::Refused(Code::Grammar, rest));
    }
    let height = above(height, 0)?;
    Ok(((Spec::ValSpec(place, found), height), rest))
}

/// Behind `val`, whose place is given.
pub fn values(alloc: Global, place: Place, room: u32, tokens: &[Token]) -> Read<'_, (Spec, u32)>
    ensures { Gives (λ x. (x.0, x.1.now)) result (mapped (λ x. grammar.vals_of (place, x)) (ended (tokens_of read.spec_goes) (seps (is SEPARATES) (read.val_read (ty_read room)))) tokens.now) }
{
    values_parts(alloc, place, room, tokens)
}
