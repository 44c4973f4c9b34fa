//! Names that may not be bound.

ghost use Rattle.std.specs.Prelude.{◌≡◌};
ghost use Rattle.sml_restrict_core.specs.Breaches.{after};
ghost use Rattle.sml_restrict_core.specs.Repeats as spec;

use crate::breach::add;
use sml_ast::Ident;
use tl_text::{Code, Name, Place, Refusal};

/// Whether two names are spelled alike.
pub fn same_name(a: &Name, b: &Name) -> bool
    ensures { result ≡ spec.same_name a.now b.now }
{
    *a == *b
}

/// Whether a name is spelled so.
pub(crate) fn is_spelled(name: &Name, bytes: &[u8]) -> bool
    ensures { result ≡ spec.same_name name.now bytes.now }
{
    name.bytes() == bytes
}

/// Whether nothing may bind the name.
fn is_fixed(name: &Name) -> bool
    ensures { result ≡ spec.is_fixed name.now }
{
    is_spelled(name, b"true")
        || is_spelled(name, b"false")
        || is_spelled(name, b"nil")
        || is_spelled(name, b"::")
        || is_spelled(name, b"ref")
        || is_spelled(name, b"=")
}

/// A breach where a name is bound that may not be, and stands at a place.
pub fn check_name_at(place: Place, name: &Name, found: Option<Refusal>) -> Option<Refusal>
    ensures { result ≡ after found (spec.rebinds (place, name.now)) }
{
    if is_fixed(name) {
        add(found, Code::Rebinds, place)
    } else {
        found
    }
}

/// A breach where a name is bound that may not be.
pub fn check_name(name: &Ident, found: Option<Refusal>) -> Option<Refusal>
    ensures { result ≡ after found (spec.rebinds name.now) }
{
    check_name_at(name.0, &name.1, found)
}

/// The same of a constructor or an exception.
pub fn check_con_name(name: &Ident, found: Option<Refusal>) -> Option<Refusal>
    ensures { result ≡ after found (spec.con_rebinds name.now) }
{
    if is_fixed(&name.1) || is_spelled(&name.1, b"it") {
        add(found, Code::Rebinds, name.0)
    } else {
        found
    }
}
