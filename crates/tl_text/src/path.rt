ghost use Rattle.std.specs.Prelude.{◌≡◌, [], ◌∷◌, ◌++◌, OnOk, OnErr};

use crate::{Name, NoMemory};
use smallvec::SmallVec;
use std::alloc::Global;
use std::marker::Model;

/// A long identifier. Contracts see the list of its parts, the outermost structure first.
/// Up to four parts lie in the value itself.
#[derive(Debug)]
pub struct Path {
    parts: SmallVec<Name, 4>,
}

impl Drop for Path {
    fn drop(self) {
        let Path { parts: _ } = self;
    }
}

impl Model for Path {
    ghost use Rattle.std.specs.Prelude.{ℕ, List};

    ghost Value = { List (List ℕ) };

    ghost view = { λ p. p.parts.items };
}

impl Path {
    /// The path without parts. It takes no memory.
    pub fn new(alloc: Global) -> Path
        ensures { result ≡ [] }
    {
        Path {
            parts: SmallVec::new(alloc),
        }
    }

    /// Adds a part at the end. NoMemory where none is left, and the path is then as before.
    pub fn push(&mut self, part: Name) -> Result<(), NoMemory>
        ensures ok { OnOk result (self.new ≡ self.old ++ part ∷ []) }
        ensures err { OnErr result (self.new ≡ self.old) }
    {
        self.parts.push(part)?;
        Ok(())
    }

    /// The parts, the outermost structure first.
    pub fn parts(&self) -> &[Name]
        ensures { result.now ≡ self.now }
    {
        self.parts.as_slice()
    }
}
