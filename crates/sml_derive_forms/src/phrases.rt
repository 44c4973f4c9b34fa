//! The phrases that derived forms bring in.

ghost use Rattle.std.specs.Prelude.{◌≡◌, IfOk};
ghost use Rattle.sml_ast.specs.declared.bare_exp.BareAtExp.TheVariants as at_exp;
ghost use Rattle.sml_derive_core.specs.Names.{fresh_name};
ghost use Rattle.sml_derive_core.specs.Patterns.{variable_pat};
ghost use Rattle.sml_derive_forms.specs.Expressions as spec;

use crate::rows::one;
use sml_ast::{BareAtExp, BareExp, BarePat, BareRule};
use sml_derive_core::{fresh, variable};
use std::alloc::Global;
use tl_text::{Boxed, List, Name, NoMemory, Path, Place};

/// An atomic expression as an expression.
pub fn atom(alloc: Global, place: Place, exp: BareAtExp) -> Result<BareExp, NoMemory>
    ensures { IfOk result (λ e. e ≡ spec.atom place exp) }
{
    Ok(BareExp::Apply(place, one(alloc, exp)?))
}

/// An expression in parentheses.
pub(crate) fn paren(alloc: Global, place: Place, exp: BareExp) -> Result<BareAtExp, NoMemory>
    ensures { IfOk result (λ a. a ≡ at_exp.Paren place exp) }
{
    Ok(BareAtExp::Paren(place, Boxed::new(alloc, exp)?))
}

/// `()`
pub fn unit(alloc: Global, place: Place) -> BareAtExp
    ensures { result ≡ spec.unit place }
{
    BareAtExp::Fields(place, List::new(alloc))
}

/// The identifier of a name.
fn name_exp(alloc: Global, place: Place, name: Name) -> Result<BareAtExp, NoMemory>
    ensures { IfOk result (λ a. a ≡ spec.name_exp place name) }
{
    let mut path = Path::new(alloc);
    path.push(name)?;
    Ok(BareAtExp::Id(place, false, (place, path)))
}

/// The identifier that a form binds.
pub(crate) fn new_exp(alloc: Global, place: Place) -> Result<BareAtExp, NoMemory>
    ensures { IfOk result (λ a. a ≡ spec.name_exp place (fresh_name 1)) }
{
    let name = fresh(alloc, 1)?;
    name_exp(alloc, place, name)
}

/// The pattern of the identifier that a form binds.
pub(crate) fn new_pat(alloc: Global, place: Place) -> Result<BarePat, NoMemory>
    ensures { IfOk result (λ q. q ≡ variable_pat place (place, fresh_name 1)) }
{
    let name = fresh(alloc, 1)?;
    variable(alloc, place, &(place, name))
}

/// `true`
pub(crate) fn true_exp(alloc: Global, place: Place) -> Result<BareExp, NoMemory>
    ensures { IfOk result (λ e. e ≡ spec.true_exp place) }
{
    let name = Name::new(alloc, b"true")?;
    let exp = name_exp(alloc, place, name)?;
    atom(alloc, place, exp)
}

/// `false`
pub(crate) fn false_exp(alloc: Global, place: Place) -> Result<BareExp, NoMemory>
    ensures { IfOk result (λ e. e ≡ spec.false_exp place) }
{
    let name = Name::new(alloc, b"false")?;
    let exp = name_exp(alloc, place, name)?;
    atom(alloc, place, exp)
}

/// `fn pat => exp`
pub(crate) fn lambda(
    alloc: Global,
    place: Place,
    pat: BarePat,
    exp: BareExp,
) -> Result<BareExp, NoMemory>
    ensures { IfOk result (λ e. e ≡ spec.lambda place pat exp) }
{
    let rules = one(alloc, BareRule::Arm(place, pat, exp))?;
    Ok(BareExp::Fn(place, rules))
}

/// Between `in` and `end`: one expression as it is, and several as a sequence.
pub fn sequence(alloc: Global, place: Place, exps: List<BareExp>) -> Result<BareExp, NoMemory>
    ensures { IfOk result (λ e. e ≡ spec.body place exps) }
{
    match exps.items() {
        [] => atom(alloc, place, unit(alloc, place)),
        [_] => {
            let mut items = exps.into_vec();
            Ok(items.remove(0))
        },
        [_, _, ..] => {
            let mut items = exps.into_vec();
            let first = items.remove(0);
            let first = Boxed::new(alloc, first)?;
            let seq = BareAtExp::Seq(place, first, List::from_vec(items));
            atom(alloc, place, seq)
        },
    }
}
