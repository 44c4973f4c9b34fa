ghost use Rattle.std.specs.Prelude.{◌≡◌, ◌==◌, ◌&&◌, not, ℕ, IfOk};
ghost use Rattle.std.specs.List.{list_any};
ghost use Rattle.sml_static.specs.Equality.{IsEqualitySet};
ghost use Rattle.eq_types.specs.Rows.{is_bound, in_set, data_by, Holds, StrikeEnd};

use crate::equality::admits_in;
use crate::premises::Premises;
use sml_static::{MidData, TyName};
use std::alloc::{AllocError, Global};
use std::collections::BTreeSet;
use tl_text::{List, NoMemory};

/// The names of a row of datatypes that admit equality: the greatest set of them such that each constructor's argument
/// admits equality, the parameters and the set being supposed to (the Definition, section 4.9). NoMemory where none
/// is left.
pub fn equality_set(alloc: Global, binds: &[MidData]) -> Result<List<TyName>, NoMemory>
    ensures { IfOk result (λ set. IsEqualitySet binds.now set) }
{
    let mut set = all_numbers(alloc, binds)?;
    while strike(binds, &mut set) {}
    let names = names_of(alloc, binds, &set)?;
    Ok(names)
}

// The numbers of all datatypes of the row.
fn all_numbers(alloc: Global, binds: &[MidData]) -> Result<BTreeSet<u32>, NoMemory>
    ensures { IfOk result (λ set. (n : ℕ) → in_set set n ≡ is_bound binds.now n) }
{
    let mut set = BTreeSet::new(alloc);
    for data in binds {
        set.insert(data.name.id).map_err(AllocError::from)?;
    }
    Ok(set)
}

// Whether the arguments of all constructors admit equality, the parameters and the set being supposed to.
fn data_admits(set: &BTreeSet<u32>, data: &MidData) -> bool
    ensures { result ≡ data_by (in_set set.now) data.now }
{
    for con in data.cons.items() {
        if let Some(ty) = &con.1 {
            if !admits_in(Premises::Row(set), ty) {
                return false;
            }
        }
    }
    true
}

// Whether a datatype of the set does not fit.
fn is_unfit(set: &BTreeSet<u32>, data: &MidData) -> bool
    ensures { result ≡ (in_set set.now data.now.name.id && not (data_by (in_set set.now) data.now)) }
{
    set.contains(&data.name.id) && !data_admits(set, data)
}

// Strikes out the names of the row that do not fit. True where there was one.
fn strike(binds: &[MidData], set: &mut BTreeSet<u32>) -> bool
    requires { Holds binds.now set.old }
    ensures holds { Holds binds.now set.new }
    ensures end { StrikeEnd result binds.now set.old set.new }
{
    let mut struck = false;
    for data in binds {
        if is_unfit(set, data) {
            set.remove(&data.name.id);
            struck = true;
        }
    }
    struck
}

// The names of the row that are in the set, in the order of the row.
fn names_of(alloc: Global, binds: &[MidData], set: &BTreeSet<u32>) -> Result<List<TyName>, NoMemory>
    ensures { IfOk result (λ names. (n : ℕ) → list_any (λ m. m.id == n) names ≡ (in_set set.now n && is_bound binds.now n)) }
{
    let mut names = List::new(alloc);
    for data in binds {
        if set.contains(&data.name.id) {
            names.push(data.name)?;
        }
    }
    Ok(names)
}
