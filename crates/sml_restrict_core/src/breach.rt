//! Which of several breaches stands first.

ghost use Rattle.std.specs.Prelude.{◌≡◌, [], ◌∷◌, Some};
ghost use Rattle.sml_restrict_core.specs.Breaches as spec;

use tl_text::{Code, Place, Refusal, code_number};

/// Whether a breach stands before another.
fn stands_before(a: &Refusal, b: &Refusal) -> bool
    ensures { result ≡ spec.stands_before a.now b.now }
{
    if a.place.source == b.place.source {
        if a.place.byte == b.place.byte {
            code_number(a.code) < code_number(b.code)
        } else {
            a.place.byte < b.place.byte
        }
    } else {
        a.place.source < b.place.source
    }
}

/// The one of a breach that was found, and a breach of the rule of `code` at `place`, that stands first.
pub fn add(found: Option<Refusal>, code: Code, place: Place) -> Option<Refusal>
    ensures { result ≡ spec.after found (spec.breach code place ∷ []) }
{
    let breach = Refusal { place, code };
    match found {
        None => Some(breach),
        Some(other) => {
            if stands_before(&breach, &other) {
                Some(breach)
            } else {
                Some(other)
            }
        },
    }
}
