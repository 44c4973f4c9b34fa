ghost use Rattle.std.specs.Prelude.{◌≡◌};
ghost use Rattle.sml_parse_mod.specs.Late as spec;

use sml_ast::{Program, Top};
use sml_lex::Token;
use sml_scan::is_next;
use tl_text::{Code, Place, Refusal};

const ABSTYPE: u32 = 0;

/// The place of the first `abstype`.
fn abstype_place(tokens: &[Token]) -> Option<Place>
    ensures { result ≡ spec.abstype_place tokens.now }
{
    let mut rest = tokens;
    'tokens: while let [token, after @ ..] = rest {
        if is_next(ABSTYPE, rest) {
            return Some(token.place);
        }
        rest = after;
    }
    None
}

/// The place of the first expression that stands as a top-level declaration.
fn run_place(tops: &[Top]) -> Option<Place>
    ensures { result ≡ spec.run_place tops.now }
{
    for top in tops {
        if let Top::Run(place, _) = top {
            return Some(*place);
        }
    }
    None
}

/// The first phrase of the program of these tokens that is not supported, and its code: an `abstype`, or an expression that
/// stands as a top-level declaration.
pub fn unsupported(tokens: &[Token], program: &Program) -> Option<Refusal>
    ensures { result ≡ spec.unsupported tokens.now program.now }
{
    let Program::Tops(_, tops) = program;
    first_of(abstype_place(tokens), run_place(tops.items()))
}

/// The one of the two that comes first in the source.
fn first_of(abstype: Option<Place>, run: Option<Place>) -> Option<Refusal>
    ensures { result ≡ spec.first_of abstype run }
{
    match (abstype, run) {
        (Some(abstype), Some(run)) => {
            if abstype.byte < run.byte {
                Some(refusal(abstype, Code::Abstype))
            } else {
                Some(refusal(run, Code::TopExp))
            }
        }
        (Some(abstype), None) => Some(refusal(abstype, Code::Abstype)),
        (None, Some(run)) => Some(refusal(run, Code::TopExp)),
        (None, None) => None,
    }
}

fn refusal(place: Place, code: Code) -> Refusal
    ensures { result ≡ spec.refusal place code }
{
    Refusal { place, code }
}
