ghost use Rattle.std.specs.Prelude.{◌≡◌, ◌+◌, IfOk, max, None};
ghost use Rattle.readers.specs.declared.floor.Fixity.{Fixity};
ghost use Rattle.sml_fix.specs.Fixities.{settings};
ghost use Rattle.sml_grammar.specs.Pats as grammar;
ghost use Rattle.sml_scan.specs.Fixed.{fixity_at};
ghost use Rattle.sml_ast.specs.declared.pat.AtPat.TheVariants as at;
ghost use Rattle.sml_ast.specs.declared.pat.Pat.TheVariants as pats;
ghost use Rattle.sml_grammar.specs.Types.{Label as Labelled};
ghost use Rattle.sml_parse_pat.specs.Rows as rows;

use readers::Fixity;
use sml_ast::{AtPat, Ident, Label, LongIdent, PField, Pat, Ty};
use sml_fix::Fixities;
use sml_scan::{above, fixity_of};
use std::alloc::Global;
use tl_text::{Boxed, List, Name, NoMemory, Place};

/// The greater height.
pub fn higher(left: u32, right: u32) -> u32
    ensures { result ≡ max left right }
{
    left.max(right)
}

/// The place of the first token.
fn at_place(atom: &AtPat) -> Place
    ensures { result ≡ grammar.at_pat_place atom.now }
{
    match atom {
        AtPat::Any(place) => *place,
        AtPat::PLit(place, _) => *place,
        AtPat::PId(place, _, _) => *place,
        AtPat::PFields(place, _) => *place,
        AtPat::PUnit(place) => *place,
        AtPat::PTuple(place, _, _) => *place,
        AtPat::PItems(place, _) => *place,
        AtPat::PParen(place, _) => *place,
    }
}

/// The place of the first token.
fn pat_place(pat: &Pat) -> Place
    ensures { result ≡ grammar.pat_place pat.now }
{
    match pat {
        Pat::PAtom(place, _) => *place,
        Pat::PCon(place, _, _, _) => *place,
        Pat::PInfix(place, _, _, _) => *place,
        Pat::PTyped(place, _, _) => *place,
        Pat::Layer(place, _, _, _, _) => *place,
    }
}

/// Whether a field may stand behind it: not behind `...`.
pub fn goes_on(field: &(PField, u32)) -> bool
    ensures { result ≡ grammar.goes_on field.now }
{
    match &field.0 {
        PField::Rest(_) => false,
        _ => true,
    }
}

/// `(p)`
fn paren(place: Place, inner: (Boxed<Pat>, u32)) -> Result<(AtPat, u32), NoMemory>
    ensures { IfOk result (λ x. x ≡ (at.PParen place inner.0, inner.1 + 1)) }
{
    let height = above(inner.1, 0)?;
    Ok((AtPat::PParen(place, inner.0), height))
}

/// `(p, q)`, where the patterns behind the first have at most this height.
fn tupled(
    place: Place,
    first: (Boxed<Pat>, u32),
    others: (List<Pat>, u32),
) -> Result<(AtPat, u32), NoMemory>
    ensures { IfOk result (λ x. x ≡ (at.PTuple place first.0 others.0, max first.1 others.1 + 1)) }
{
    let height = above(first.1, others.1)?;
    Ok((AtPat::PTuple(place, first.0, others.0), height))
}

/// `(p)`, `(p, q)`
pub fn closed(
    place: Place,
    first: (Boxed<Pat>, u32),
    others: Option<(List<Pat>, u32)>,
) -> Result<(AtPat, u32), NoMemory>
    ensures { IfOk result (λ x. x ≡ rows.closed place first others) }
{
    match others {
        None => paren(place, first),
        Some(others) => tupled(place, first, others),
    }
}

/// `C`, `C p`
pub fn constructed(
    alloc: Global,
    name: (Place, bool, LongIdent),
    arg: Option<(AtPat, u32)>,
) -> Result<(Boxed<Pat>, u32), NoMemory>
    ensures { IfOk result (λ x. x ≡ grammar.operand_of (grammar.Operand.Con ((name, 1), arg))) }
{
    match arg {
        None => {
            let pat = Pat::PAtom(name.0, AtPat::PId(name.0, name.1, name.2));
            Ok((Boxed::new(alloc, pat)?, 2))
        }
        Some((atom, height)) => {
            let height = above(1, height)?;
            let pat = Pat::PCon(name.0, name.1, name.2, atom);
            Ok((Boxed::new(alloc, pat)?, height))
        }
    }
}

/// An atomic pattern that is no identifier.
pub fn atomic(alloc: Global, atom: (AtPat, u32)) -> Result<(Boxed<Pat>, u32), NoMemory>
    ensures { IfOk result (λ x. x ≡ grammar.operand_of (grammar.Operand.Atom atom)) }
{
    let height = above(atom.1, 0)?;
    let place = at_place(&atom.0);
    Ok((Boxed::new(alloc, Pat::PAtom(place, atom.0))?, height))
}

/// `p :: q`, where the higher one has this height.
fn infix_node(
    alloc: Global,
    left: Boxed<Pat>,
    op: Ident,
    right: Boxed<Pat>,
    height: u32,
) -> Result<(Boxed<Pat>, u32), NoMemory>
    ensures { IfOk result (λ x. x ≡ (pats.PInfix (grammar.pat_place left) left op right, height)) }
{
    let place = pat_place(left.get());
    Ok((
        Boxed::new(alloc, Pat::PInfix(place, left, op, right))?,
        height,
    ))
}

/// `p :: q`
pub fn infixed(
    alloc: Global,
    left: (Boxed<Pat>, u32),
    op: Ident,
    right: (Boxed<Pat>, u32),
) -> Result<(Boxed<Pat>, u32), NoMemory>
    ensures { IfOk result (λ x. x ≡ grammar.infix_of left op right) }
{
    match left.1.max(right.1).checked_add(1) {
        Some(height) => infix_node(alloc, left.0, op, right.0, height),
        None => Err(NoMemory),
    }
}

/// How the operator at the top binds.
pub fn top_fixity(fix: &Fixities, pat: &Boxed<Pat>) -> Option<Fixity>
    ensures { result ≡ rows.top_fixity (settings fix.now) pat.now }
{
    match pat.get() {
        Pat::PInfix(_, _, op, _) => Some(fixity_of(fix, &op.1)),
        _ => None,
    }
}

/// `p : t`
pub fn typed(
    alloc: Global,
    pat: (Boxed<Pat>, u32),
    ty: (Ty, u32),
) -> Result<(Boxed<Pat>, u32), NoMemory>
    ensures { IfOk result (λ x. x ≡ grammar.typed_of pat ty) }
{
    let height = above(pat.1, ty.1)?;
    let place = pat_place(pat.0.get());
    Ok((Boxed::new(alloc, Pat::PTyped(place, pat.0, ty.0))?, height))
}

/// `x`
pub fn pun(vid: Ident) -> (PField, u32)
    ensures { (l : Labelled) → result ≡ grammar.vid_field_of ((l, vid), None) }
{
    (PField::Pun(vid.0, vid, None, None), 1)
}

/// `x : t`, `x : t as p`
pub fn typed_pun(
    vid: Ident,
    ty: (Ty, u32),
    pat: Option<(Boxed<Pat>, u32)>,
) -> Result<(PField, u32), NoMemory>
    ensures { IfOk result (λ x. x ≡ rows.typed_field vid ty pat) }
{
    match pat {
        None => {
            let height = above(ty.1, 0)?;
            Ok((PField::Pun(vid.0, vid, Some(ty.0), None), height))
        }
        Some(pat) => {
            let height = above(ty.1, pat.1)?;
            Ok((
                PField::Pun(vid.0, vid, Some(ty.0), Some(pat.0.into_inner())),
                height,
            ))
        }
    }
}

/// `x as p`
pub fn layered_pun(vid: Ident, pat: (Boxed<Pat>, u32)) -> Result<(PField, u32), NoMemory>
    ensures { IfOk result (λ x. x ≡ rows.layered_field vid pat) }
{
    let height = above(pat.1, 0)?;
    Ok((
        PField::Pun(vid.0, vid, None, Some(pat.0.into_inner())),
        height,
    ))
}

/// `a = p`
pub fn named(label: Label, pat: (Boxed<Pat>, u32)) -> Result<(PField, u32), NoMemory>
    ensures { IfOk result (λ x. x ≡ grammar.named_of (label, pat)) }
{
    let height = above(pat.1, 0)?;
    Ok((PField::Named(label.0, label, pat.0.into_inner()), height))
}

fn is_bare_atom(atom: &AtPat) -> bool
    ensures { result ≡ rows.is_bare_atom atom.now }
{
    match atom {
        AtPat::PId(_, _, name) => name.1.parts().len() == 1,
        _ => false,
    }
}

/// Whether it is an identifier, perhaps with a type, behind which `as` may stand.
pub fn is_bare(pat: &(Boxed<Pat>, u32)) -> bool
    ensures { result ≡ grammar.is_bare pat.now }
{
    match pat.0.get() {
        Pat::PAtom(_, atom) => is_bare_atom(atom),
        Pat::PTyped(_, inner, _) => match inner.get() {
            Pat::PAtom(_, atom) => is_bare_atom(atom),
            _ => false,
        },
        _ => false,
    }
}

/// The identifier before `as`, whether `op` is before it, and its type; None where it is no identifier.
fn bare_atom(
    alloc: Global,
    ty: Option<Ty>,
    atom: &AtPat,
) -> Result<Option<(bool, Ident, Option<Ty>)>, NoMemory>
    ensures { IfOk result (λ x. x ≡ rows.bare_of_atom ty atom.now) }
{
    match atom {
        AtPat::PId(_, op, name) => match name.1.parts() {
            [only] => {
                let vid = (name.0, Name::new(alloc, only.bytes())?);
                Ok(Some((*op, vid, ty)))
            }
            _ => Ok(None),
        },
        _ => Ok(None),
    }
}

fn bare(alloc: Global, pat: Pat) -> Result<Option<(bool, Ident, Option<Ty>)>, NoMemory>
    ensures { IfOk result (λ x. x ≡ rows.bare_of pat) }
{
    if let Pat::PAtom(_, atom) = &pat {
        return bare_atom(alloc, None, atom);
    }
    match pat.into_typed() {
        Some((inner, ty)) => match inner.get() {
            Pat::PAtom(_, atom) => bare_atom(alloc, Some(ty), atom),
            _ => Ok(None),
        },
        None => Ok(None),
    }
}

fn layer_node(
    alloc: Global,
    place: Place,
    bare: Option<(bool, Ident, Option<Ty>)>,
    inner: Boxed<Pat>,
) -> Result<Boxed<Pat>, NoMemory>
    ensures { IfOk result (λ x. x ≡ grammar.layer_in place bare inner) }
{
    match bare {
        None => Ok(inner),
        Some((op, vid, ty)) => Ok(Boxed::new(alloc, Pat::Layer(place, op, vid, ty, inner))?),
    }
}

fn layer(alloc: Global, pat: Boxed<Pat>, inner: Boxed<Pat>) -> Result<Boxed<Pat>, NoMemory>
    ensures { IfOk result (λ x. x ≡ grammar.layer_in (grammar.pat_place pat) (rows.bare_of pat) inner) }
{
    let place = pat_place(pat.get());
    let bare = bare(alloc, pat.into_inner())?;
    layer_node(alloc, place, bare, inner)
}

/// `x as p`, `x : t as p`
pub fn layered(
    alloc: Global,
    pat: (Boxed<Pat>, u32),
    inner: (Boxed<Pat>, u32),
) -> Result<(Boxed<Pat>, u32), NoMemory>
    ensures { IfOk result (λ x. x ≡ grammar.layer_of pat inner) }
{
    let height = pat.1.max(above(inner.1, 0)?);
    Ok((layer(alloc, pat.0, inner.0)?, height))
}
