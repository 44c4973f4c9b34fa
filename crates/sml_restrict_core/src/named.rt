//! Rows of named parts in which no name may stand twice.

ghost use Rattle.std.specs.Prelude.{◌≡◌, map};
ghost use Rattle.tl_text.specs.declared.name.Name.{Name};
ghost use Rattle.tl_text.specs.declared.place.Place.{Place};
ghost use Rattle.sml_restrict_core.specs.Bindings.{dat_bind_name, dat_desc_name, ex_bind_name, fun_bind_name, sig_bind_name};
ghost use Rattle.sml_restrict_core.specs.Breaches.{after};
ghost use Rattle.sml_restrict_core.specs.Repeats.{again, twice};

use crate::breach::add;
use crate::fixed::same_name;
use sml_ast::{DatBind, DatDesc, ExBind, FunBind, Ident, SigBind, SigExp, Ty, Tyvars};
use tl_text::{Code, Name, Refusal};

/// A part of a row that has a name.
pub trait Named {
    ghost named: { Self → Place × Name };

    /// Its name.
    fn name(&self) -> &Ident
        ensures { result.now ≡ named self.now };
}

impl Named for Ident {
    ghost named = { λ x. x };

    fn name(&self) -> &Ident {
        self
    }
}

impl Named for (Tyvars, Ident) {
    ghost named = { λ x. x.1 };

    fn name(&self) -> &Ident {
        &self.1
    }
}

impl Named for (Tyvars, Ident, Ty) {
    ghost named = { λ x. x.1 };

    fn name(&self) -> &Ident {
        &self.1
    }
}

impl Named for (bool, Ident, Option<Ty>) {
    ghost named = { λ x. x.1 };

    fn name(&self) -> &Ident {
        &self.1
    }
}

impl Named for (Ident, Option<Ty>) {
    ghost named = { λ x. x.0 };

    fn name(&self) -> &Ident {
        &self.0
    }
}

impl Named for (Ident, Ty) {
    ghost named = { λ x. x.0 };

    fn name(&self) -> &Ident {
        &self.0
    }
}

impl Named for (Ident, SigExp) {
    ghost named = { λ x. x.0 };

    fn name(&self) -> &Ident {
        &self.0
    }
}

impl Named for DatBind {
    ghost named = { dat_bind_name };

    fn name(&self) -> &Ident {
        let DatBind::Data(_, _, name, _) = self;
        name
    }
}

impl Named for DatDesc {
    ghost named = { dat_desc_name };

    fn name(&self) -> &Ident {
        let DatDesc::Desc(_, _, name, _) = self;
        name
    }
}

impl Named for ExBind {
    ghost named = { ex_bind_name };

    fn name(&self) -> &Ident {
        match self {
            ExBind::NewExn(_, _, name, _) => name,
            ExBind::SameExn(_, _, name, _, _) => name,
        }
    }
}

impl Named for SigBind {
    ghost named = { sig_bind_name };

    fn name(&self) -> &Ident {
        let SigBind::SigAs(_, name, _) = self;
        name
    }
}

impl Named for FunBind {
    ghost named = { fun_bind_name };

    fn name(&self) -> &Ident {
        match self {
            FunBind::FunOf(_, name, _, _, _, _) => name,
            FunBind::FunSpecs(_, name, _, _, _) => name,
        }
    }
}

/// A breach at each part that has the name.
pub fn check_again<T: Named>(
    name: &Name,
    others: &[T],
    mut found: Option<Refusal>,
) -> Option<Refusal>
    ensures { result ≡ after found (again name.now (map T.named others.now)) }
{
    for other in others {
        let other = other.name();
        if same_name(&other.1, name) {
            found = add(found, Code::Repeated, other.0);
        }
    }
    found
}

/// A breach at each part that has the name of an earlier one.
#[tactic(auto, using(crate::proofs::After::breaches))]
pub fn check_twice<T: Named>(row: &[T], mut found: Option<Refusal>) -> Option<Refusal>
    ensures { result ≡ after found (twice (map T.named row.now)) }
{
    let mut rest = row;
    while let Some((one, others)) = rest.split_first() {
        found = check_again(&one.name().1, others, found);
        rest = others;
    }
    found
}
