//! A set of names.

ghost use Rattle.std.specs.Prelude.{◌≡◌, ◌||◌, ℕ, List, false, OnOk};
ghost use Rattle.std.specs.Str.{bytes_eq};
ghost use Rattle.env_arena.specs.Names.{has};

use bumpalo::Bump;
use std::collections::HashSet;
use std::hash::{BuildHasherDefault, FoldHasher};
use tl_text::NoMemory;

/// A set of names, each a part of an arena.
#[derive(Drop)]
pub struct Names<'a, 'b> {
    pub names: HashSet<&'a [u8], BuildHasherDefault<FoldHasher>, &'b Bump>,
}

// The set without names. It takes no memory.
pub fn no_names<'a, 'b>(scratch: &'b Bump) -> Names<'a, 'b>
    ensures { (n : List ℕ) → has result n ≡ false }
{
    Names {
        names: HashSet::new(scratch),
    }
}

// Whether the set has the name.
pub fn has_name(seen: &Names<'_, '_>, name: &[u8]) -> bool
    ensures { result ≡ has seen.now name.now }
{
    seen.names.contains(name)
}

// Adds a name.
pub fn add_name<'a>(seen: &mut Names<'a, '_>, name: &'a [u8]) -> Result<(), NoMemory>
    ensures { OnOk result ((n : List ℕ) → has seen.new n ≡ (bytes_eq name.now n || has seen.old n)) }
{
    let _ = seen.names.insert(name)?;
    Ok(())
}
