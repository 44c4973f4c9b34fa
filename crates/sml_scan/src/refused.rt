ghost use Rattle.std.specs.Prelude.{◌≡◌};
ghost use Rattle.sml_scan.specs.Faults as spec;

use readers::ReadError;
use sml_lex::Token;
use tl_text::{Code, Fault, NoMemory, Refusal};

/// The fault of a refused token. NoMemory where no token is left to name.
pub fn fault(error: ReadError<'_, Token>) -> Fault
    ensures { spec.FaultOf error.entry result }
{
    match error {
        ReadError::Refused(cause, [token, ..]) => Fault::Refused(Refusal {
            place: token.place,
            code: named(cause),
        }),
        _ => Fault::NoMemory(NoMemory),
    }
}

fn named(cause: readers::Code) -> Code
    ensures { result ≡ spec.named cause }
{
    match cause {
        readers::Code::Grammar => Code::Grammar,
        readers::Code::Depth => Code::Depth,
        readers::Code::FixityClash => Code::FixityClash,
    }
}
