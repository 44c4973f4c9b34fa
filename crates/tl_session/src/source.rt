ghost use Rattle.std.specs.Prelude.{◌-◌, ◌<◌, ◌^◌, length, IfOk, IfErr};
ghost use Rattle.tl_text.specs.declared.code.Code.{Code};
ghost use Rattle.tl_text.specs.declared.place.Place.{Place};
ghost use Rattle.sml_fix.specs.Fixities.{settings};
ghost use Rattle.built_items.specs.Built.{IfRefused};
ghost use Rattle.tl_session.specs.Answers.{AnswersFailure};
ghost use Rattle.tl_session.specs.Faithful.{IsItems};
ghost use Rattle.tl_session.specs.Refused.{FailsUnder, LeavesOnly};

use built_items::{SourceItem, built_items};
use sml_fix::Fixities;
use sml_front::read_source;
use std::alloc::Global;
use tl_text::{Fault, List};

/// The items that the source of this number is under the fixities before it, and the fixities behind it.
///
/// # Errors
///
/// Refused exactly where the source is no lawful program, or one with a declaration that is not built; NoMemory where none is left.
pub fn source_items(
    alloc: Global,
    number: u32,
    bytes: &[u8],
    fix: &Fixities,
) -> Result<(List<SourceItem>, Fixities), Fault>
    requires { length bytes.now < 2 ^ 32 - 1 }
    ensures found { IfOk result (λ x. IsItems number (settings fix.now) bytes.now x.0 (settings x.1)) }
    ensures only { IfOk result (λ x. LeavesOnly number (settings fix.now) bytes.now (settings x.1)) }
    ensures refused { IfErr result (λ fault. IfRefused fault (λ r. FailsUnder number (settings fix.now) bytes.now r.place r.code)) }
    ensures fails { (place : Place) (code : Code) → FailsUnder number (settings fix.now) bytes.now place code → AnswersFailure result (record { place = place; code = code }) }
{
    let (program, left) = read_source(alloc, number, bytes, fix)?;
    let read = built_items(alloc, &program);
    program.release(alloc);
    let items = read?;
    Ok((items, left))
}
