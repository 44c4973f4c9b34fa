ghost use Rattle.std.specs.Prelude.{◌≡◌};
ghost use Rattle.sml_static.specs.Shapes.{datatype_of, last_part, key_of};
ghost use Rattle.match_use.specs.Keys.{shared_key};

use sml_static::Ty;
use tl_text::{Name, Path};

/// A constructor as far as it tells values apart: of a datatype, by the number of the datatype's name and the last part
/// of the constructor's path, or an exception, by the parts of its path. Two are equal where they are alike.
#[derive(Clone, Copy, PartialEq, Eq, Hash)]
pub enum Key<'a> {
    Of(u32, &'a [u8]),
    Exception(&'a [Name]),
}

/// The constructor that a pattern has with this path, type and number of constructors.
pub fn key_at<'a>(path: &'a Path, ty: &Ty, count: u32) -> Key<'a>
    ensures { shared_key result ≡ key_of path.now ty.now count }
{
    if count == 0 {
        Key::Exception(path.parts())
    } else {
        Key::Of(datatype(ty), last(path.parts()))
    }
}

// The number of the type name of what a constructor of this type makes, and 0 for another type.
fn datatype(ty: &Ty) -> u32
    ensures { result ≡ datatype_of ty.now }
{
    match ty {
        Ty::Arrow(_, to) => datatype(to.get()),
        Ty::Con(name, _) => name.id,
        _ => 0,
    }
}

// The last part of a path, or no bytes where it has none.
fn last<'a>(parts: &'a [Name]) -> &'a [u8]
    ensures { result.now ≡ last_part parts.now }
{
    match parts.last() {
        Some(name) => name.bytes(),
        None => &[],
    }
}
