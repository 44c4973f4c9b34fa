ghost use Rattle.std.specs.Prelude.{◌≡◌, IfOk, OnOk, OnErr, map};
ghost use Rattle.sml_fix.specs.Fixities as spec;

use indexmap::IndexMap;
use std::alloc::Global;
use tl_text::{Name, NoMemory};

/// The side to which operators of one precedence group.
#[derive(Clone, Copy, Debug, PartialEq, Eq)]
pub enum Side {
    Left,
    Right,
}

/// Which identifiers are operators, with precedence and side. Contracts see the function `settings` from identifiers.
pub struct Fixities {
    alloc: Global,
    table: IndexMap<Name, Option<(u8, Side)>>,
}

impl Drop for Fixities {
    fn drop(self) {
        let Fixities { alloc: _, table: _ } = self;
    }
}

impl Fixities {
    /// The fixities at the start (the Definition, appendix C). NoMemory where none is left.
    pub fn start(alloc: Global) -> Result<Fixities, NoMemory>
        ensures { IfOk result (λ f. spec.settings f ≡ spec.start) }
    {
        let mut fixities = Fixities::none(alloc);
        fixities.set_all(&[b"*", b"/", b"div", b"mod"], 7, Side::Left)?;
        fixities.set_all(&[b"+", b"-", b"^"], 6, Side::Left)?;
        fixities.set_all(&[b"::", b"@"], 5, Side::Right)?;
        fixities.set_all(&[b"=", b"<>", b">", b">=", b"<", b"<="], 4, Side::Left)?;
        fixities.set_all(&[b":=", b"o"], 3, Side::Left)?;
        fixities.set_all(&[b"before"], 0, Side::Left)?;
        Ok(fixities)
    }

    /// Those under which no identifier is an operator.
    pub fn none(alloc: Global) -> Fixities
        ensures { spec.settings result ≡ spec.none }
    {
        Fixities {
            alloc,
            table: IndexMap::new(alloc),
        }
    }

    /// Makes each word an operator.
    fn set_all(&mut self, words: &[&[u8]], precedence: u8, side: Side) -> Result<(), NoMemory>
        ensures { OnOk result (spec.settings self.new ≡ spec.all_assigned (spec.settings self.old) (map (λ w. w.now) words.now) (precedence, side)) }
    {
        for word in words {
            self.set(Name::new(self.alloc, word)?, Some((precedence, side)))?;
        }
        Ok(())
    }

    /// Makes the identifier an operator, or a plain identifier. NoMemory where none is left, and all is then as before.
    pub fn set(&mut self, vid: Name, fixity: Option<(u8, Side)>) -> Result<(), NoMemory>
        ensures ok { OnOk result (spec.settings self.new ≡ spec.assigned (spec.settings self.old) vid fixity) }
        ensures err { OnErr result (spec.settings self.new ≡ spec.settings self.old) }
    {
        self.table.insert(vid, fixity)?;
        Ok(())
    }

    /// The identifier's precedence and side. None where it is no operator.
    pub fn get(&self, vid: &Name) -> Option<(u8, Side)>
        ensures { result ≡ spec.settings self.now vid.now }
    {
        match self.table.get(vid) {
            None => None,
            Some(fixity) => *fixity,
        }
    }

    /// The same fixities once more. NoMemory where none is left.
    pub fn copy(&self) -> Result<Fixities, NoMemory>
        ensures { IfOk result (λ f. spec.settings f ≡ spec.settings self.now) }
    {
        let mut copy = Fixities::none(self.alloc);
        for (vid, fixity) in self.table.iter() {
            copy.set(Name::new(self.alloc, vid.bytes())?, *fixity)?;
        }
        Ok(copy)
    }

    /// The identifiers that were ever set, each with what it is. NoMemory where none is left.
    pub fn entries(&self) -> Result<Vec<(Name, Option<(u8, Side)>)>, NoMemory>
        ensures { IfOk result (λ v. v.items ≡ spec.entries self.now) }
    {
        let mut found = Vec::new(self.alloc);
        for (vid, fixity) in self.table.iter() {
            found.push((Name::new(self.alloc, vid.bytes())?, *fixity))?;
        }
        Ok(found)
    }
}
