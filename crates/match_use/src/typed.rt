ghost use Rattle.std.specs.Prelude.{◌↔◌, IfOk, IsTrue};
ghost use Rattle.match_use.specs.Alike.{AreOfOneType};
ghost use Rattle.match_use.specs.Answer.{patterns_of};

use crate::agree::all_agree;
use crate::constructor::{are_few, constructors, counts_are_same};
use mid_ast::MidRule;
use std::alloc::Global;
use tl_text::NoMemory;

/// Whether the patterns of the rules are of one type, as `usefulness` needs it. NoMemory where none is left.
pub fn are_of_one_type(alloc: Global, rules: &[MidRule]) -> Result<bool, NoMemory>
    ensures { IfOk result (λ typed. IsTrue typed ↔ AreOfOneType (patterns_of rules.now)) }
{
    if !all_agree(rules) {
        return Ok(false);
    }
    let found = constructors(alloc, rules)?;
    if !counts_are_same(&found) {
        return Ok(false);
    }
    Ok(are_few(&found))
}
