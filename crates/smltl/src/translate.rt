ghost use Rattle.std.specs.Prelude.{◌≡◌, ◌≤◌, ℕ, List, map, length};
ghost use Rattle.src_io.specs.Written.{Appends};
ghost use Rattle.smltl.specs.declared.translate.Stop.TheVariants as stop;
ghost use Rattle.smltl.specs.Listing.{names_limit};
ghost use Rattle.smltl.specs.Translating.{Translated, StopCounts};

use bumpalo::Bump;
use src_io::{ReadEnd, Sink, Sources, read_named, write_all};
use std::alloc::Global;
use tl_session::{Session, Unit};
use tl_text::{Fault, Refusal};

/// How many bytes a source may have; one more is read, so that a larger one is seen.
const SOURCE_LIMIT: usize = 1_048_576;

/// Why the translation of named sources stops.
#[derive(Clone, Copy, Debug)]
pub enum Stop {
    /// The name at this place, from 0, is not held.
    Missing(usize),
    /// The source of the name at this place, from 0, is refused.
    Refused(usize, Refusal),
    /// Reading failed.
    Reading,
    /// Writing failed.
    Writing,
    /// The machine gave no memory.
    Memory,
}

/// Translates the sources of these names, and writes the text of `Rt` and then one unit a source.
pub fn translate<S: Sources, O: Sink>(
    alloc: Global,
    names: &[&str],
    src: &mut S,
    out: &mut O,
) -> Result<(), Stop>
    requires { length names.now ≤ names_limit }
    ensures translated { (grown : List ℕ) × Translated (S.told src.old) (map (λ n. n.now) names.now) result grown
        × Appends (O.written out.old) (O.written out.new) grown }
    ensures counts { StopCounts result (S.faults src.old) (S.faults src.new) (O.faults out.old) (O.faults out.new) }
{
    let arena = Bump::new(alloc);
    let Ok(mut session) = Session::new(alloc, &arena) else {
        return Err(Stop::Memory);
    };
    let Ok(text) = session.start() else {
        return Err(Stop::Memory);
    };
    if let Err(_failed) = write_all(out, &text) {
        return Err(Stop::Writing);
    }
    for (at, name) in names.iter().enumerate() {
        let bytes = match read_named(alloc, src, name, SOURCE_LIMIT) {
            Ok(bytes) => bytes,
            Err(ReadEnd::Missing) => return Err(Stop::Missing(at)),
            Err(ReadEnd::Failed) => return Err(Stop::Reading),
            Err(ReadEnd::NoMemory) => return Err(Stop::Memory),
        };
        let unit = match session.add(name, &bytes) {
            Ok(unit) => unit,
            Err(Fault::Refused(refusal)) => return Err(Stop::Refused(at, refusal)),
            Err(Fault::NoMemory(_)) => return Err(Stop::Memory),
        };
        if let Err(_failed) = write_all(out, unit.text.items()) {
            return Err(Stop::Writing);
        }
    }
    Ok(())
}
