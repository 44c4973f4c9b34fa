//! What is still to be let go of, when a program without derived forms is taken apart in a loop.

use crate::bare_exp::{BareAtExp, BareDec, BareExp, BareRule};
use crate::bare_pat::BarePat;
use crate::bare_program::{BareFunBind, BareStrBind, BareStrDec, BareStrExp, BareTop};
use crate::name::Label;
use std::alloc::Global;
use tl_text::{Boxed, List};

/// Parts of one kind that are still to be let go of.
pub enum Part {
    Expression(Boxed<BareExp>),
    Atoms(Vec<BareAtExp>),
    Expressions(Vec<BareExp>),
    Fields(Vec<(Label, BareExp)>),
    Rules(Vec<BareRule>),
    Bindings(Vec<(BarePat, BareExp)>),
    Declarations(Vec<BareDec>),
    Structure(Boxed<BareStrExp>),
    Outer(Vec<BareStrDec>),
    Structures(Vec<BareStrBind>),
    Functors(Vec<BareFunBind>),
    Tops(Vec<BareTop>),
}

impl Drop for Part {
    fn drop(self) {
        match self {
            Part::Expression(_) => {}
            Part::Atoms(_) => {}
            Part::Expressions(_) => {}
            Part::Fields(_) => {}
            Part::Rules(_) => {}
            Part::Bindings(_) => {}
            Part::Declarations(_) => {}
            Part::Structure(_) => {}
            Part::Outer(_) => {}
            Part::Structures(_) => {}
            Part::Functors(_) => {}
            Part::Tops(_) => {}
        }
    }
}

impl Part {
    /// Takes one item off, and keeps what it is made of.
    fn scatter(self, pile: &mut Pile) {
        match self {
            Part::Expression(inner) => inner.into_inner().scatter(pile),
            Part::Atoms(row) => pile.atoms(row),
            Part::Expressions(row) => pile.expressions(row),
            Part::Fields(row) => pile.fields(row),
            Part::Rules(row) => pile.rules(row),
            Part::Bindings(row) => pile.bindings(row),
            Part::Declarations(row) => pile.declarations(row),
            Part::Structure(inner) => inner.into_inner().scatter(pile),
            Part::Outer(row) => pile.outer(row),
            Part::Structures(row) => pile.structures(row),
            Part::Functors(row) => pile.functors(row),
            Part::Tops(row) => pile.tops(row),
        }
    }
}

/// What is still to be let go of.
pub struct Pile {
    parts: Vec<Part>,
}

impl Drop for Pile {
    fn drop(self) {
        let Pile { parts: _ } = self;
    }
}

impl Pile {
    /// With nothing on it. It takes no memory.
    pub fn new(alloc: Global) -> Pile {
        Pile {
            parts: Vec::new(alloc),
        }
    }

    /// Keeps a part for later. Where there is no memory for that it is dropped as it is.
    pub fn keep(&mut self, part: Part) {
        if let Err(_full) = self.parts.push(part) {}
    }

    /// Keeps the rest of a row, and then what its last item is made of.
    fn atoms(&mut self, mut row: Vec<BareAtExp>) {
        if let Some(last) = row.pop() {
            self.keep(Part::Atoms(row));
            last.scatter(self);
        }
    }

    fn expressions(&mut self, mut row: Vec<BareExp>) {
        if let Some(last) = row.pop() {
            self.keep(Part::Expressions(row));
            last.scatter(self);
        }
    }

    fn fields(&mut self, mut row: Vec<(Label, BareExp)>) {
        if let Some((_, last)) = row.pop() {
            self.keep(Part::Fields(row));
            last.scatter(self);
        }
    }

    fn rules(&mut self, mut row: Vec<BareRule>) {
        if let Some(last) = row.pop() {
            self.keep(Part::Rules(row));
            last.scatter(self);
        }
    }

    fn bindings(&mut self, mut row: Vec<(BarePat, BareExp)>) {
        if let Some((_, last)) = row.pop() {
            self.keep(Part::Bindings(row));
            last.scatter(self);
        }
    }

    fn declarations(&mut self, mut row: Vec<BareDec>) {
        if let Some(last) = row.pop() {
            self.keep(Part::Declarations(row));
            last.scatter(self);
        }
    }

    fn outer(&mut self, mut row: Vec<BareStrDec>) {
        if let Some(last) = row.pop() {
            self.keep(Part::Outer(row));
            last.scatter(self);
        }
    }

    fn structures(&mut self, mut row: Vec<BareStrBind>) {
        if let Some(last) = row.pop() {
            self.keep(Part::Structures(row));
            last.scatter(self);
        }
    }

    fn functors(&mut self, mut row: Vec<BareFunBind>) {
        if let Some(last) = row.pop() {
            self.keep(Part::Functors(row));
            last.scatter(self);
        }
    }

    fn tops(&mut self, mut row: Vec<BareTop>) {
        if let Some(last) = row.pop() {
            self.keep(Part::Tops(row));
            last.scatter(self);
        }
    }

    /// Lets go of everything on it.
    pub fn clear(mut self) {
        // Each turn takes one item, of which there are fewer than bytes of memory.
        for _ in 0..usize::MAX {
            let Some(part) = self.parts.pop() else {
                return;
            };
            part.scatter(&mut self);
        }
    }
}
