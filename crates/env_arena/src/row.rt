//! Rows of named items, in which the last item of a name counts.

ghost use Rattle.std.specs.Prelude.{◌≡◌};
ghost use Rattle.sml_static.specs.Lookups.{last_named};

use crate::node::{StrNode, TyNode, ValNode};

/// What an environment's rows hold.
pub trait Named<'a>: Copy {
    ghost use Rattle.std.specs.Prelude.{ℕ, List};

    ghost name_of: { Self → List ℕ };

    fn name(&self) -> &'a [u8]
        ensures { result.now ≡ name_of self.now };
}

impl<'a> Named<'a> for ValNode<'a> {
    ghost name_of = { λ v. v.name.now };

    fn name(&self) -> &'a [u8] {
        self.name
    }
}

impl<'a> Named<'a> for TyNode<'a> {
    ghost name_of = { λ t. t.name.now };

    fn name(&self) -> &'a [u8] {
        self.name
    }
}

impl<'a> Named<'a> for StrNode<'a> {
    ghost use Rattle.env_arena.specs.Spelling.{spelled_str};

    ghost name_of = { λ s. (spelled_str s).0 };

    fn name(&self) -> &'a [u8] {
        self.name
    }
}

// The last item of that name. It is sought from the end.
pub fn last_of<'a, T: Named<'a>>(row: &[T], name: &[u8]) -> Option<T>
    ensures { result ≡ last_named T.name_of name.now row.now }
{
    let mut left = row.len();
    while left > 0 {
        left -= 1;
        let item = row[left];
        if item.name() == name {
            return Some(item);
        }
    }
    None
}
