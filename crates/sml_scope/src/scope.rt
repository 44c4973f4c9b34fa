ghost use Rattle.std.specs.Prelude.{◌≡◌, ◌<◌, ◌≤◌, ◌++◌, ◌∷◌, [], IfOk, IfSome, IsSome, OnOk, OnErr, drop, length, reverse, take};
ghost use Rattle.sml_fix.specs.Fixities.{entries, settings};
ghost use Rattle.sml_grammar_exp.specs.Decs.{fixed, started};
ghost use Rattle.sml_grammar_exp.specs.ReadLevels as read;
ghost use Rattle.sml_scope.specs.Scope.{said};

use crate::change::{Change, first_changes, some_operator};
use sml_fix::{Fixities, Side};
use std::alloc::Global;
use std::marker::Model;
use tl_text::{Name, NoMemory};

/// The fixity directives in force. Contracts see the row of them: of each an identifier, and what it is from there on.
///
/// Each change has a log entry with what was before it, so a scope is left without a copy of the fixities.
pub struct Scope {
    alloc: Global,
    fix: Fixities,
    log: Vec<Change>,
}

impl Drop for Scope {
    fn drop(self) {
        let Scope {
            alloc: _,
            fix: _,
            log: _,
        } = self;
    }
}

impl Model for Scope {
    ghost use Rattle.sml_fix.specs.Fixities.{none, settings};
    ghost use Rattle.sml_grammar_exp.specs.Decs.{Changes};
    ghost use Rattle.sml_scope.specs.Scope.{Leads, said};

    ghost Value = { Changes };

    ghost view = { λ s. said s.log.items };

    ghost invariant = { λ s. Leads none s.log.items (settings s.fix) };
}

impl Scope {
    /// The directives of the start (the Definition, appendix C). NoMemory where none is left.
    pub fn start(alloc: Global) -> Result<Scope, NoMemory>
        ensures { IfOk result (λ s. s ≡ started) }
    {
        let fix = Fixities::start(alloc)?;
        let log = first_changes(alloc)?;
        Ok(Scope { alloc, fix, log })
    }

    /// A directive for each identifier that was ever set in these fixities, with what it is there. NoMemory where none is left.
    pub fn of(alloc: Global, fix: &Fixities) -> Result<Scope, NoMemory>
        ensures { IfOk result (λ s. s ≡ entries fix.now) }
    {
        let mut scope = Scope {
            alloc,
            fix: Fixities::none(alloc),
            log: Vec::new(alloc),
        };
        for (name, fixity) in fix.entries()? {
            scope.note(&name, fixity)?;
        }
        Ok(scope)
    }

    /// How many directives are in force, which names this point for `leave`.
    pub fn count(&self) -> usize
        ensures { result ≡ length self.now }
    {
        self.log.len()
    }

    /// The fixities that the directives leave.
    pub fn fixities(&self) -> &Fixities
        ensures { settings result.now ≡ fixed self.now }
    {
        &self.fix
    }

    /// Whether some identifier is an operator.
    pub fn has_operator(&self) -> bool
        ensures { result ≡ read.some_operator self.now }
    {
        let fix = self.fixities();
        some_operator(fix, self.log.as_slice())
    }

    /// One more directive. NoMemory where none is left, and all is then as before.
    pub fn note(&mut self, name: &Name, fixity: Option<(u8, Side)>) -> Result<(), NoMemory>
        ensures ok { OnOk result (self.new ≡ self.old ++ (name.now, fixity) ∷ []) }
        ensures err { OnErr result (self.new ≡ self.old) }
    {
        let before = self.fix.get(name);
        let noted = Name::new(self.alloc, name.bytes())?;
        let changed = Name::new(self.alloc, name.bytes())?;
        self.log.push(Change {
            name: noted,
            before,
            after: fixity,
        })?;
        if let Err(error) = self.fix.set(changed, fixity) {
            self.log.pop();
            return Err(error);
        }
        Ok(())
    }

    /// Takes the last directive off. NoMemory where none is left, and all is then as before.
    fn undo(&mut self) -> Result<Option<Change>, NoMemory>
        requires { 0 < length self.old }
        ensures ok { IfOk result (λ o. IfSome o (λ c. self.old ≡ self.new ++ (c.name, c.after) ∷ [])) }
        ensures some { IfOk result (λ o. IsSome o) }
    {
        let last = &self.log[self.log.len() - 1];
        let name = Name::new(self.alloc, last.name.bytes())?;
        self.fix.set(name, last.before)?;
        Ok(self.log.pop())
    }

    /// Leaves a scope: only the directives before it stay in force. NoMemory where none is left, and some of those inside
    /// may then be in force still.
    pub fn leave(&mut self, outer: usize) -> Result<(), NoMemory>
        requires { outer ≤ length self.old }
        ensures { OnOk result (self.new ≡ take outer self.old) }
    {
        'inside: while self.count() > outer {
            self.undo()?;
        }
        Ok(())
    }

    /// Leaves a `local`: the directives between the two points, those before its `in`, are no longer in force. NoMemory where
    /// none is left, and which are in force is then not said.
    pub fn leave_local(&mut self, outer: usize, inner: usize) -> Result<(), NoMemory>
        requires order { outer ≤ inner }
        requires within { inner ≤ length self.old }
        ensures { OnOk result (self.new ≡ take outer self.old ++ drop inner self.old) }
    {
        let shown = self.take_off(inner)?;
        self.leave(outer)?;
        self.put_back(shown)
    }

    /// Takes off what is behind a point, the last first.
    fn take_off(&mut self, inner: usize) -> Result<Vec<Change>, NoMemory>
        requires { inner ≤ length self.old }
        ensures left { OnOk result (self.new ≡ take inner self.old) }
        ensures taken { IfOk result (λ v. reverse (said v.items) ≡ drop inner self.old) }
    {
        let mut taken = Vec::new(self.alloc);
        'shown: while self.count() > inner {
            if let Some(change) = self.undo()? {
                taken.push(change)?;
            }
        }
        Ok(taken)
    }

    /// Notes again what was taken off.
    fn put_back(&mut self, mut taken: Vec<Change>) -> Result<(), NoMemory>
        ensures { OnOk result (self.new ≡ self.old ++ reverse (said taken.items)) }
    {
        'shown: while let Some(change) = taken.pop() {
            self.note(&change.name, change.after)?;
        }
        Ok(())
    }
}
