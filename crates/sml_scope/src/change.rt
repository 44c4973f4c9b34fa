ghost use Rattle.std.specs.Prelude.{◌≡◌, ◌++◌, IfOk, OnOk, map};
ghost use Rattle.sml_fix.specs.Fixities.{settings};
ghost use Rattle.sml_grammar_exp.specs.ReadLevels as read;
ghost use Rattle.sml_scope.specs.Scope as spec;

use sml_fix::{Fixities, Side};
use std::alloc::Global;
use tl_text::{Name, NoMemory};

/// What a directive makes of one identifier, and what it was before.
pub(crate) struct Change {
    pub(crate) name: Name,
    pub(crate) before: Option<(u8, Side)>,
    pub(crate) after: Option<(u8, Side)>,
}

impl Drop for Change {
    fn drop(self) {
        let Change {
            name: _,
            before: _,
            after: _,
        } = self;
    }
}

/// The directives of the start (the Definition, appendix C).
pub(crate) fn first_changes(alloc: Global) -> Result<Vec<Change>, NoMemory>
    ensures { IfOk result (λ v. v.items ≡ spec.first_changes) }
{
    let mut log = Vec::new(alloc);
    add_all(
        alloc,
        &mut log,
        &[b"*", b"/", b"div", b"mod"],
        7,
        Side::Left,
    )?;
    add_all(alloc, &mut log, &[b"+", b"-", b"^"], 6, Side::Left)?;
    add_all(alloc, &mut log, &[b"::", b"@"], 5, Side::Right)?;
    add_all(
        alloc,
        &mut log,
        &[b"=", b"<>", b">", b">=", b"<", b"<="],
        4,
        Side::Left,
    )?;
    add_all(alloc, &mut log, &[b":=", b"o"], 3, Side::Left)?;
    add_all(alloc, &mut log, &[b"before"], 0, Side::Left)?;
    Ok(log)
}

/// Makes each word an operator that was none.
fn add_all(
    alloc: Global,
    log: &mut Vec<Change>,
    words: &[&[u8]],
    precedence: u8,
    side: Side,
) -> Result<(), NoMemory>
    ensures { OnOk result (log.new.items ≡ log.old.items ++ spec.made_operators (precedence, side) (map (λ w. w.now) words.now)) }
{
    for word in words {
        let name = Name::new(alloc, word)?;
        log.push(Change {
            name,
            before: None,
            after: Some((precedence, side)),
        })?;
    }
    Ok(())
}

/// Whether some identifier that was changed is an operator.
pub(crate) fn some_operator(fix: &Fixities, log: &[Change]) -> bool
    ensures { result ≡ read.some_listed (settings fix.now) (spec.said log.now) }
{
    for change in log {
        if fix.get(&change.name).is_some() {
            return true;
        }
    }
    false
}
