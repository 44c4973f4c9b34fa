ghost use Rattle.std.specs.Prelude.{◌≡◌, ◌==◌};
ghost use Rattle.std.specs.List.{list_any};
ghost use Rattle.eq_types.specs.Premises.{kind_in, supposes};

use sml_static::{TyName, VarKind};
use std::collections::BTreeSet;

/// What is supposed of the variables and of the type names of a type.
#[derive(Clone, Copy)]
pub enum Premises<'a> {
    /// Variables have these kinds by their places, and these names admit equality.
    Given(&'a [VarKind], &'a [TyName]),
    /// All variables admit equality, and the names with these numbers do.
    Row(&'a BTreeSet<u32>),
}

/// Whether the variable at that place admits equality. One without a place does not.
pub fn variable_admits(premises: Premises<'_>, place: u32) -> bool
    ensures { result ≡ kind_in premises.entry place }
{
    match premises {
        Premises::Given(kinds, _) => {
            let index = place as usize;
            index < kinds.len() && kinds[index] == VarKind::Equal
        }
        Premises::Row(_) => true,
    }
}

/// Whether the type name with that number is supposed to admit equality.
pub fn name_admits(premises: Premises<'_>, id: u32) -> bool
    ensures { result ≡ supposes premises.entry id }
{
    match premises {
        Premises::Given(_, names) => is_named(names, id),
        Premises::Row(set) => set.contains(&id),
    }
}

// Whether the number is that of one of the names.
fn is_named(names: &[TyName], id: u32) -> bool
    ensures { result ≡ list_any (λ n. n.id == id) names.now }
{
    for name in names {
        if name.id == id {
            return true;
        }
    }
    false
}
