ghost use Rattle.std.specs.Prelude.{◌≡◌, map};
ghost use Rattle.std.specs.List.{list_all};
ghost use Rattle.tl_text.specs.Pairs.{map_second, seconds};
ghost use Rattle.ty_unify_tests.specs.Over as over;

use sml_static::{Label, Ty};

/// Whether a type has no bound variable, and no free one but these.
#[cycle(over)]
pub fn is_over(ty: &Ty, a: u32, b: u32) -> bool
    ensures { result ≡ over.is_over a b ty.now }
{
    match ty {
        Ty::Free(n) => *n == a || *n == b,
        Ty::Bound(_) => false,
        Ty::Fields(fields) => fields_over(fields.items(), a, b),
        Ty::Arrow(from, to) => is_over(from.get(), a, b) && is_over(to.get(), a, b),
        Ty::Con(_, args) => all_over(args.items(), a, b),
    }
}

#[cycle(over)]
fn fields_over(fields: &[(Label, Ty)], a: u32, b: u32) -> bool
    ensures { result ≡ list_all (λ f. f) (seconds (map_second (over.is_over a b) fields.now)) }
{
    for field in fields {
        if !is_over(&field.1, a, b) {
            return false;
        }
    }
    true
}

#[cycle(over)]
fn all_over(tys: &[Ty], a: u32, b: u32) -> bool
    ensures { result ≡ list_all (λ t. t) (map (over.is_over a b) tys.now) }
{
    for ty in tys {
        if !is_over(ty, a, b) {
            return false;
        }
    }
    true
}
