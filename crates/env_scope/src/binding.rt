ghost use Rattle.std.specs.Prelude.{◌≡◌, Some};
ghost use Rattle.env_scope.specs.Index.{bound};

use crate::number::number_of;
use crate::tree::{Binding, Tree};

// The binding of a name.
pub fn find<'a>(tree: &Tree<'a>, name: &[u8]) -> Option<Binding<'a>>
    ensures { result ≡ bound tree.now name.now }
{
    let mut bits = number_of(name);
    let mut tree = *tree;
    'levels: loop {
        match tree {
            Tree::Empty => return None,
            Tree::One(binding, rest) => {
                if binding.name == name {
                    return Some(*binding);
                }
                tree = *rest;
            }
            Tree::Fork(even, odd) => {
                tree = if bits % 2 == 0 { *even } else { *odd };
                bits /= 2;
            }
        }
    }
}
