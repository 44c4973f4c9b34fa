//! Descriptions of datatypes.

ghost use Rattle.std.specs.Prelude.{◌≡◌, ◌++◌, map};
ghost use Rattle.sml_restrict_core.specs.Bindings as spec;
ghost use Rattle.sml_restrict_core.specs.Breaches.{after, joined};
ghost use Rattle.sml_restrict_core.specs.Repeats.{again, crossed, twice};

use crate::bindings::check_opt_closed;
use crate::fixed::check_con_name;
use crate::named::{check_again, check_twice};
use sml_ast::{DatDesc, Ident, Ty};
use tl_text::{Name, Refusal};

/// The breaches in the constructors of a description.
#[tactic(auto, using(crate::proofs::After::breaches))]
fn check_described(
    params: &[Ident],
    cons: &[(Ident, Option<Ty>)],
    mut found: Option<Refusal>,
) -> Option<Refusal>
    ensures { result ≡ after found (joined (map (spec.described_breaches params.now) cons.now)) }
{
    for one in cons {
        found = check_con_name(&one.0, found);
        found = check_opt_closed(params, &one.1, found);
    }
    found
}

/// The breaches in a description of a datatype.
#[tactic(auto, using(crate::proofs::After::breaches))]
fn check_dat_desc(bind: &DatDesc, found: Option<Refusal>) -> Option<Refusal>
    ensures { result ≡ after found (spec.dat_desc_breaches bind.now) }
{
    let DatDesc::Desc(_, params, _, cons) = bind;
    let found = check_twice(params.items(), found);
    check_described(params.items(), cons.items(), found)
}

/// The breaches in a row of descriptions of datatypes, but for names that stand twice.
#[tactic(auto, using(crate::proofs::After::breaches))]
fn check_dat_descs(binds: &[DatDesc], mut found: Option<Refusal>) -> Option<Refusal>
    ensures { result ≡ after found (joined (map spec.dat_desc_breaches binds.now)) }
{
    for one in binds {
        found = check_dat_desc(one, found);
    }
    found
}

/// A breach at each constructor of the datatypes that has the name.
#[tactic(auto, using(crate::proofs::After::repeats))]
fn check_described_again(
    name: &Name,
    binds: &[DatDesc],
    mut found: Option<Refusal>,
) -> Option<Refusal>
    ensures { result ≡ after found (again name.now (joined (map spec.dat_desc_cons binds.now))) }
{
    let mut rest = binds;
    while let Some((one, others)) = rest.split_first() {
        let DatDesc::Desc(_, _, _, cons) = one;
        found = check_again(name, cons.items(), found);
        rest = others;
    }
    found
}

/// A breach at each constructor that has the name of an earlier one of a row, in the row and in the datatypes after it.
#[tactic(auto, using(crate::proofs::After::repeats))]
fn check_described_crossed(
    cons: &[(Ident, Option<Ty>)],
    binds: &[DatDesc],
    mut found: Option<Refusal>,
) -> Option<Refusal>
    ensures { result ≡ after found (crossed (map (λ c. c.0) cons.now) (joined (map spec.dat_desc_cons binds.now))) }
{
    let mut rest = cons;
    while let Some((one, others)) = rest.split_first() {
        found = check_again(&one.0.1, others, found);
        found = check_described_again(&one.0.1, binds, found);
        rest = others;
    }
    found
}

/// A breach at each constructor of a `datatype` specification that has the name of an earlier one.
#[tactic(auto, using(crate::proofs::After::repeats))]
fn check_described_names(binds: &[DatDesc], mut found: Option<Refusal>) -> Option<Refusal>
    ensures { result ≡ after found (twice (joined (map spec.dat_desc_cons binds.now))) }
{
    let mut rest = binds;
    while let Some((one, others)) = rest.split_first() {
        let DatDesc::Desc(_, _, _, cons) = one;
        found = check_described_crossed(cons.items(), others, found);
        rest = others;
    }
    found
}

/// The breaches in one `datatype` specification.
#[tactic(auto, using(crate::proofs::After::breaches))]
pub fn check_descs(descs: &[DatDesc], found: Option<Refusal>) -> Option<Refusal>
    ensures { result ≡ after found (spec.descs_breaches descs.now) }
{
    let found = check_twice(descs, found);
    let found = check_described_names(descs, found);
    check_dat_descs(descs, found)
}
