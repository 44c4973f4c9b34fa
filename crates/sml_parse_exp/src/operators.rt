ghost use Rattle.std.specs.Prelude.{◌≡◌, IfOk};
ghost use Rattle.readers.specs.Reader.{first, head_is};
ghost use Rattle.sml_fix.specs.Fixities.{settings};
ghost use Rattle.sml_parse_exp.specs.Levels as levels;

use readers::Floor;
use sml_fix::Fixities;
use sml_lex::Token;
use sml_parse_bind::next_operator;
use std::alloc::Global;
use tl_text::NoMemory;

/// Whether an operator comes that may follow on this floor. NoMemory where none is left.
pub fn is_taken(
    alloc: Global,
    fix: &Fixities,
    floor: Floor,
    tokens: &[Token],
) -> Result<bool, NoMemory>
    ensures { IfOk result (λ b. b ≡ head_is (levels.taken (settings fix.now) floor) (first tokens.now)) }
{
    match next_operator(alloc, fix, tokens)? {
        None => Ok(false),
        Some(fixity) => Ok(floor.is_reached(fixity)),
    }
}
