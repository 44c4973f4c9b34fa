ghost use Rattle.std.specs.Prelude.{◌≡◌};
ghost use Rattle.tl_text.specs.declared.code.Code.TheVariants as code;
ghost use Rattle.tl_text.specs.declared.place.Place.{Place};
ghost use Rattle.sml_ast.specs.declared.bare_program.BareProgram.TheVariants as program_is;
ghost use Rattle.built_items.specs.Built.{Answers};
ghost use Rattle.built_items.specs.Built as spec;

use crate::forms::{Reading, place_of, read_top};
use crate::item::SourceItem;
use sml_ast::{BareProgram, BareTop};
use std::alloc::Global;
use tl_text::{Code, Fault, List, Refusal};

/// The items of a program.
///
/// # Errors
/// - Unbuilt at the first token of the first top-level declaration that is not built: one that is neither a directive nor
///   `val pat = exp`, where pat is `_` or a variable and exp a literal or `print` of a string, or that has a name of the
///   initial basis other than that `print`.
/// - NoMemory where none is left.
pub fn built_items(alloc: Global, program: &BareProgram) -> Result<List<SourceItem>, Fault>
    ensures { Answers program.now result }
{
    match program {
        BareProgram::Tops(_, tops) => read_tops(alloc, tops.items()),
    }
}

/// The items of a row of top-level declarations.
fn read_tops(alloc: Global, tops: &[BareTop]) -> Result<List<SourceItem>, Fault>
    ensures { (p : Place) → Answers (program_is.Tops p tops.now) result }
{
    let mut items = List::new(alloc);
    for top in tops {
        match read_top(alloc, top)? {
            Reading::Item(item) => items.push(item)?,
            Reading::Directive => {},
            Reading::Unbuilt => return Err(Fault::Refused(unbuilt(top))),
        }
    }
    Ok(items)
}

/// That a top-level declaration is not built.
fn unbuilt(top: &BareTop) -> Refusal
    ensures place { result.place ≡ spec.place_of top.now }
    ensures code { result.code ≡ code.Unbuilt }
{
    Refusal {
        place: place_of(top),
        code: Code::Unbuilt,
    }
}
