ghost use Rattle.std.specs.Prelude.{◌≡◌, ◌∷◌, ◌+◌, IfOk, max};
ghost use Rattle.sml_grammar.specs.Types as grammar;
ghost use Rattle.sml_ast.specs.declared.ty.Ty.TheVariants as made;

use sml_ast::{LongIdent, Ty};
use sml_scan::above;
use std::alloc::Global;
use tl_text::{Boxed, List, NoMemory, Place};

/// The greater height.
pub fn higher(left: u32, right: u32) -> u32
    ensures { result ≡ max left right }
{
    left.max(right)
}

/// The place of the first token.
fn place_of(ty: &Ty) -> Place
    ensures { result ≡ grammar.ty_place ty.now }
{
    match ty {
        Ty::Tyvar(place, _) => *place,
        Ty::TFields(place, _) => *place,
        Ty::TCon(place, _, _) => *place,
        Ty::TTuple(place, _, _) => *place,
        Ty::Arrow(place, _, _) => *place,
        Ty::TParen(place, _) => *place,
    }
}

/// `t c`
pub fn applied(
    alloc: Global,
    ty: (Boxed<Ty>, u32),
    name: LongIdent,
) -> Result<(Boxed<Ty>, u32), NoMemory>
    ensures { IfOk result (λ x. x ≡ grammar.applied ty name) }
{
    let place = place_of(ty.0.get());
    let height = above(ty.1, 0)?;
    let mut args = List::new(alloc);
    args.push(ty.0.into_inner())?;
    Ok((Boxed::new(alloc, Ty::TCon(place, args, name))?, height))
}

/// `t * u * v`, where the parts behind the first have at most this height.
pub fn tupled(
    alloc: Global,
    first: (Boxed<Ty>, u32),
    others: (List<Ty>, u32),
) -> Result<(Boxed<Ty>, u32), NoMemory>
    ensures { IfOk result (λ x. x ≡ (made.TTuple (grammar.ty_place first.0) first.0 others.0, max first.1 others.1 + 1)) }
{
    let place = place_of(first.0.get());
    let height = above(first.1, others.1)?;
    Ok((
        Boxed::new(alloc, Ty::TTuple(place, first.0, others.0))?,
        height,
    ))
}

/// `t -> u`
pub fn arrow(
    alloc: Global,
    from: (Boxed<Ty>, u32),
    to: (Boxed<Ty>, u32),
) -> Result<(Boxed<Ty>, u32), NoMemory>
    ensures { IfOk result (λ x. x ≡ grammar.mapped_to from to) }
{
    let place = place_of(from.0.get());
    let height = above(from.1, to.1)?;
    Ok((Boxed::new(alloc, Ty::Arrow(place, from.0, to.0))?, height))
}

/// `(t)`
pub fn paren(
    alloc: Global,
    place: Place,
    ty: (Boxed<Ty>, u32),
) -> Result<(Boxed<Ty>, u32), NoMemory>
    ensures { IfOk result (λ x. x ≡ (made.TParen place ty.0, ty.1 + 1)) }
{
    let height = above(ty.1, 0)?;
    Ok((Boxed::new(alloc, Ty::TParen(place, ty.0))?, height))
}

/// `(t, u) c`, where the arguments behind the first have at most this height.
pub fn put_into(
    alloc: Global,
    place: Place,
    first: (Boxed<Ty>, u32),
    others: (List<Ty>, u32),
    name: LongIdent,
) -> Result<(Boxed<Ty>, u32), NoMemory>
    ensures { IfOk result (λ x. x ≡ (made.TCon place (first.0 ∷ others.0) name, max first.1 others.1 + 1)) }
{
    let height = above(first.1, others.1)?;
    let mut args = others.0.into_vec();
    args.insert(0, first.0.into_inner())?;
    let ty = Ty::TCon(place, List::from_vec(args), name);
    Ok((Boxed::new(alloc, ty)?, height))
}
