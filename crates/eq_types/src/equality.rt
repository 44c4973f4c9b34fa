ghost use Rattle.std.specs.Prelude.{◌≡◌, ℕ, map};
ghost use Rattle.std.specs.List.{list_all};
ghost use Rattle.tl_text.specs.Pairs.{map_second, seconds};
ghost use Rattle.sml_static.specs.Equality as rule;
ghost use Rattle.sml_static.specs.declared.ty.VarKind.TheVariants as kind;
ghost use Rattle.eq_types.specs.Premises.{kind_at, kind_in, supposes, admits_by};

use crate::premises::{Premises, name_admits, variable_admits};
use sml_static::{Label, Ty, TyName, VarKind};

/// The number of the type name `ref`.
const REF: u32 = 7;

/// Whether a type admits equality, where `Bound(i)` is a variable of the kind at place i, and the names of `equal` are
/// supposed to admit it (the Definition, section 4.4). It is meant for types without free variables, whose bound ones
/// all have a place: any other variable counts as plain. It takes no memory.
pub fn admits(ty: &Ty, kinds: &[VarKind], equal: &[TyName]) -> bool
    ensures { result ≡ rule.admits (λ n. kind.Plain) (kind_at kinds.now) equal.now ty.now }
{
    admits_in(Premises::Given(kinds, equal), ty)
}

/// Whether a type admits equality by these premises.
#[cycle(admits_in)]
pub fn admits_in(premises: Premises<'_>, ty: &Ty) -> bool
    ensures { result ≡ admits_by (kind_in premises.entry) (supposes premises.entry) ty.now }
{
    match ty {
        Ty::Free(_) => false,
        Ty::Bound(place) => variable_admits(premises, *place),
        Ty::Fields(fields) => fields_admit(premises, fields.items()),
        Ty::Arrow(_, _) => false,
        Ty::Con(name, args) => {
            if name.id == REF {
                return true;
            }
            (name.equality || name_admits(premises, name.id)) && all_admit(premises, args.items())
        }
    }
}

#[cycle(admits_in)]
fn fields_admit(premises: Premises<'_>, fields: &[(Label, Ty)]) -> bool
    ensures { result ≡ list_all (λ f. f) (seconds (map_second (admits_by (kind_in premises.entry) (supposes premises.entry)) fields.now)) }
{
    for field in fields {
        if !admits_in(premises, &field.1) {
            return false;
        }
    }
    true
}

#[cycle(admits_in)]
fn all_admit(premises: Premises<'_>, tys: &[Ty]) -> bool
    ensures { result ≡ list_all (λ a. a) (map (admits_by (kind_in premises.entry) (supposes premises.entry)) tys.now) }
{
    for ty in tys {
        if !admits_in(premises, ty) {
            return false;
        }
    }
    true
}
