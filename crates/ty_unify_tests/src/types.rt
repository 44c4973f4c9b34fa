ghost use Rattle.std.specs.Prelude.{◌≡◌, ℕ, [], ◌∷◌, IfOk};
ghost use Rattle.sml_static.specs.declared.ty.Label.TheVariants as lab;
ghost use Rattle.ty_unify.specs.Trees.{Tree, Fork, Arrow};
ghost use Rattle.ty_unify.specs.Building.{under, fields_tree, named_tree};

use sml_static::{Label, Ty, TyName};
use std::alloc::Global;
use tl_text::{Boxed, List, NoMemory};

/// A type name without an argument.
pub fn named(alloc: Global, name: TyName) -> Ty
    ensures { (θ : ℕ → Tree) → under θ result ≡ named_tree name [] }
{
    Ty::Con(name, List::new(alloc))
}

/// A type name at one argument.
pub fn applied(alloc: Global, name: TyName, argument: Ty) -> Result<Ty, NoMemory>
    ensures { IfOk result (λ t. (θ : ℕ → Tree) → under θ t ≡ named_tree name (under θ argument ∷ [])) }
{
    let mut arguments = List::new(alloc);
    arguments.push(argument)?;
    Ok(Ty::Con(name, arguments))
}

/// A record of two fields, the first one with the label 1.
pub fn record(alloc: Global, first: Ty, label: Label, second: Ty) -> Result<Ty, NoMemory>
    ensures { IfOk result (λ t. (θ : ℕ → Tree) → under θ t ≡ fields_tree ((lab.Num 1, under θ first) ∷ ((label, under θ second) ∷ []))) }
{
    let mut fields = List::new(alloc);
    fields.push((Label::Num(1), first))?;
    fields.push((label, second))?;
    Ok(Ty::Fields(fields))
}

/// The type of functions from one type to another.
pub fn arrow(alloc: Global, from: Ty, to: Ty) -> Result<Ty, NoMemory>
    ensures { IfOk result (λ t. (θ : ℕ → Tree) → under θ t ≡ Fork Arrow (under θ from) (under θ to)) }
{
    let from = Boxed::new(alloc, from)?;
    let to = Boxed::new(alloc, to)?;
    Ok(Ty::Arrow(from, to))
}
