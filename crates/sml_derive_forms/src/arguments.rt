//! The arguments of a clause: one pattern for its rule.

ghost use Rattle.std.specs.Prelude.{◌≡◌, ◌++◌, IfOk, map};
ghost use Rattle.sml_ast.specs.declared.bare_pat.BarePat.TheVariants as pat;
ghost use Rattle.sml_derive_forms.specs.Functions as spec;

use crate::rows::{number_pats, one, two};
use sml_ast::{BareAtPat, BarePField, BarePat, Lab};
use std::alloc::Global;
use tl_text::{Boxed, List, NoMemory, Place};

/// The two sides of an infix clause as one argument.
fn pair_pat(
    alloc: Global,
    place: Place,
    left: BareAtPat,
    right: BareAtPat,
) -> Result<BareAtPat, NoMemory>
    ensures { IfOk result (λ q. q ≡ spec.pair_pat place left right) }
{
    let left = BarePat::PAtom(place, left);
    let right = BarePat::PAtom(place, right);
    let left = BarePField::Named(place, (place, Lab::Num(1)), left);
    let right = BarePField::Named(place, (place, Lab::Num(2)), right);
    let fields = two(alloc, left, right)?;
    Ok(BareAtPat::PFields(place, fields))
}

/// A row of patterns, and atomic patterns after it.
fn with_atoms(
    place: Place,
    mut done: List<BarePat>,
    args: List<BareAtPat>,
) -> Result<List<BarePat>, NoMemory>
    ensures { IfOk result (λ qs. qs ≡ done ++ map (pat.PAtom place) args) }
{
    for one in args.into_vec() {
        done.push(BarePat::PAtom(place, one))?;
    }
    Ok(done)
}

/// The arguments of a clause as patterns.
fn patterns(
    alloc: Global,
    place: Place,
    pair: Option<(BareAtPat, BareAtPat)>,
    args: List<BareAtPat>,
) -> Result<List<BarePat>, NoMemory>
    ensures { IfOk result (λ qs. qs ≡ map (pat.PAtom place) (spec.first_argument place pair ++ args)) }
{
    match pair {
        None => with_atoms(place, List::new(alloc), args),
        Some((left, right)) => {
            let first = pair_pat(alloc, place, left, right)?;
            let first = one(alloc, BarePat::PAtom(place, first))?;
            with_atoms(place, first, args)
        },
    }
}

/// `(p, .., q)`
fn tuple_pat(alloc: Global, place: Place, pats: List<BarePat>) -> Result<BareAtPat, NoMemory>
    ensures { IfOk result (λ q. q ≡ spec.tuple_pat place pats) }
{
    match pats.items() {
        [] => Ok(BareAtPat::PFields(place, List::new(alloc))),
        [_] => {
            let mut items = pats.into_vec();
            let only = items.remove(0);
            Ok(BareAtPat::PParen(place, Boxed::new(alloc, only)?))
        },
        [_, _, ..] => Ok(BareAtPat::PFields(place, number_pats(alloc, place, pats)?)),
    }
}

/// The arguments of a clause as the pattern of its rule.
pub(crate) fn argument_pat(
    alloc: Global,
    place: Place,
    pair: Option<(BareAtPat, BareAtPat)>,
    args: List<BareAtPat>,
) -> Result<BarePat, NoMemory>
    ensures { IfOk result (λ q. q ≡ spec.argument_pat place (spec.first_argument place pair ++ args)) }
{
    let pats = patterns(alloc, place, pair, args)?;
    let tuple = tuple_pat(alloc, place, pats)?;
    Ok(BarePat::PAtom(place, tuple))
}
