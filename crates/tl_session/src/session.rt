ghost use Rattle.std.specs.Prelude.{◌≡◌, ◌<◌, ◌≤◌, ◌+◌, suc, length, IfOk, IfErr, OnErr};
ghost use Rattle.tl_text.specs.declared.fault.Refusal.{Refusal};
ghost use Rattle.tl_text.specs.declared.fault.Fault.TheVariants as fault_is;
ghost use Rattle.built_items.specs.Built.{IfRefused};
ghost use Rattle.oc_layout.specs.Layout.{Layout};
ghost use Rattle.tl_session.specs.Answers.{IsTaken, IsFailure, AnswersFailure};
ghost use Rattle.tl_session.specs.Faithful.{IsTranslation, no_sources};
ghost use Rattle.tl_session.specs.Refused.{first_place};
ghost use Rattle.tl_session.specs.Written.{rt_tree};

use crate::source::source_items;
use crate::unit::{rt_text, unit_text};
use built_items::SourceItem;
use bumpalo::Bump;
use sml_fix::Fixities;
use std::alloc::Global;
use std::marker::Model;
use tl_text::{Code, Fault, List, Name, NoMemory, Place, Refusal};

/// How many bytes a source may have.
const SOURCE_LIMIT: usize = 1_048_576;

/// How many bytes all sources of a session may have together.
const TOTAL_LIMIT: usize = 33_554_432;

/// The text of a source's unit, and the notes on the source, a line each.
#[derive(Debug, Drop)]
pub struct Unit {
    pub text: List<u8>,
    pub notes: List<u8>,
}

/// A source that was accepted.
#[derive(Drop)]
struct Accepted {
    name: Name,
    bytes: List<u8>,
    program: List<SourceItem>,
}

/// The refusal of a whole source.
fn at_first_place(source: u32, code: Code) -> Fault
    ensures { result ≡ fault_is.Refused (record { place = first_place source; code = code }) }
{
    let place = Place {
        source,
        line: 1,
        col: 1,
        byte: 0,
    };
    Fault::Refused(Refusal { place, code })
}

/// A source to be kept.
fn kept(
    alloc: Global,
    name: &str,
    bytes: &[u8],
    program: List<SourceItem>,
) -> Result<Accepted, NoMemory>
    ensures { IfOk result (λ a. a ≡ record { name = name.now; bytes = bytes.now; program = program }) }
{
    let name = Name::new(alloc, name.as_bytes())?;
    let bytes = Vec::from_slice(alloc, bytes)?;
    Ok(Accepted {
        name,
        bytes: List::from_vec(bytes),
        program,
    })
}

/// Sources one after another. Contracts see the accepted ones and their programs.
#[derive(Drop)]
pub struct Session<'a> {
    alloc: Global,
    arena: &'a Bump,
    accepted: List<Accepted>,
    total: usize,
    fix: Fixities,
}

impl<'a> Model for Session<'a> {
    ghost use Rattle.tl_session.specs.Faithful.{Standing};
    ghost use Rattle.sml_fix.specs.Fixities.{settings};
    ghost use Rattle.tl_session.specs.Sessions.{standing_of, IsKept};

    ghost Value = { Standing };

    ghost view = { λ s. standing_of s.accepted };

    ghost invariant = { λ s. IsKept s.accepted s.total (settings s.fix) };
}

impl<'a> Session<'a> {
    /// A session without sources. The arena is for the environments of later forms.
    pub fn new(alloc: Global, arena: &'a Bump) -> Result<Session<'a>, NoMemory>
        ensures none { IfOk result (λ s. s ≡ no_sources) }
        ensures translation { IfOk result (λ s. IsTranslation s) }
    {
        Ok(Session {
            alloc,
            arena,
            accepted: List::new(alloc),
            total: 0,
            fix: Fixities::start(alloc)?,
        })
    }

    /// The text of the module `Rt`, which stands before all units.
    pub fn start(&self) -> Result<Vec<u8>, NoMemory>
        ensures { IfOk result (λ text. text.items ≡ Layout rt_tree) }
    {
        rt_text(self.alloc)
    }

    /// Adds a source, and gives its unit.
    ///
    /// # Errors
    ///
    /// Refused exactly where the source fails after those of the session; NoMemory where none is left. After both the
    /// session is as it was.
    pub fn add(&mut self, name: &str, bytes: &[u8]) -> Result<Unit, Fault>
        requires { length self.old.sources < 65536 }
        ensures taken { IfOk result (λ unit. IsTaken self.old (record { name = name.now; bytes = bytes.now }) self.new unit.text unit.notes) }
        ensures translation { IsTranslation self.old → IsTranslation self.new }
        ensures refused { IfErr result (λ fault. IfRefused fault (IsFailure self.old (record { name = name.now; bytes = bytes.now }))) }
        ensures fails { (refusal : Refusal) → IsFailure self.old (record { name = name.now; bytes = bytes.now }) refusal → AnswersFailure result refusal }
        ensures unchanged { OnErr result (self.new ≡ self.old) }
    {
        let number = self.accepted.items().len() as u32 + 1;
        if bytes.len() > SOURCE_LIMIT {
            return Err(at_first_place(number, Code::SourceSize));
        }
        if self.total + bytes.len() > TOTAL_LIMIT {
            return Err(at_first_place(number, Code::TotalSize));
        }
        let (items, left) = source_items(self.alloc, number, bytes, &self.fix)?;
        let text = unit_text(self.alloc, number, name, items.items())?;
        let source = kept(self.alloc, name, bytes, items)?;
        self.accepted.push(source)?;
        self.total += bytes.len();
        self.fix = left;
        Ok(Unit {
            text: List::from_vec(text),
            notes: List::new(self.alloc),
        })
    }
}
