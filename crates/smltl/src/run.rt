ghost use Rattle.std.specs.Prelude.{◌≡◌, ◌⊎◌, ℕ, List, map, string_bytes, Some};
ghost use Rattle.src_io.specs.Written.{Appends};
ghost use Rattle.src_io.specs.Faults.{Rose};
ghost use Rattle.src_io.specs.Holding.{Holding};
ghost use Rattle.smltl.specs.declared.end.End.{End};
ghost use Rattle.smltl.specs.declared.end.End.TheVariants as end_is;
ghost use Rattle.smltl.specs.Complete.{IsGood};
ghost use Rattle.smltl.specs.Outcome.{Outcome, Counts};

use crate::command::list_word;
use crate::end::End;
use crate::lines::{READING_FAILED, USAGE};
use crate::list::{LIST_LIMIT, ListEnd, names_in};
use crate::tell::{tell, tell_bad_list, tell_missing, tell_no_memory, tell_refused};
use crate::translate::{Stop, translate};
use src_io::{ReadEnd, Sink, Sources, read_named};
use std::alloc::Global;

/// Reads the list that the words name and then each source that it names, and writes on `out` the text of `Rt` and
/// one unit for each source; what goes wrong is told on `notes`, in one line.
///
/// What is on `out` is always a front of whole texts, each a faithful translation of its source.
pub fn run<S: Sources, O: Sink, N: Sink>(
    alloc: Global,
    words: &[String],
    src: &mut S,
    out: &mut O,
    notes: &mut N,
) -> End
    ensures outcome { (grown said : List ℕ) × Outcome (map string_bytes words.now) (S.told src.old) result grown said
        × Appends (O.written out.old) (O.written out.new) grown
        × Appends (N.written notes.old) (N.written notes.new) said }
    ensures counts { Counts result (S.faults src.old) (S.faults src.new) (O.faults out.old) (O.faults out.new) (N.faults notes.old) (N.faults notes.new) }
{
    let Some(list) = list_word(words) else {
        return tell(notes, USAGE, End::BadWords);
    };
    let bytes = match read_named(alloc, src, list, LIST_LIMIT) {
        Ok(bytes) => bytes,
        Err(ReadEnd::Missing) => return tell_missing(alloc, notes, list, 0),
        Err(ReadEnd::Failed) => return tell(notes, READING_FAILED, End::ReadFault),
        Err(ReadEnd::NoMemory) => return tell_no_memory(notes),
    };
    let names = match names_in(alloc, &bytes) {
        Ok(names) => names,
        Err(ListEnd::Bad { line }) => return tell_bad_list(alloc, notes, list, line),
        Err(ListEnd::NoMemory) => return tell_no_memory(notes),
    };
    match translate(alloc, &names, src, out) {
        Ok(()) => End::Done,
        Err(Stop::Missing(at)) => tell_missing(alloc, notes, names[at], at as u32 + 1),
        Err(Stop::Refused(at, refusal)) => tell_refused(alloc, notes, names[at], refusal),
        Err(Stop::Reading) => tell(notes, READING_FAILED, End::ReadFault),
        Err(Stop::Writing) => End::WriteFault,
        Err(Stop::Memory) => tell_no_memory(notes),
    }
}

/// The law that what has to succeed does: where words, list and sources are good, as the devices tell, and no count of
/// faults rises, a call of `run` ends with Done, or there is no memory.
pub fn completeness()
    ensures { (words : List (List ℕ)) (h : Holding) (answer : End) (grown said : List ℕ) (src src2 out out2 notes notes2 : ℕ)
        → IsGood words h → Outcome words (Some h) answer grown said → Counts answer src src2 out out2 notes notes2
        → (Rose src src2 → ⊥) → (Rose out out2 → ⊥) → (Rose notes notes2 → ⊥)
        → (answer ≡ end_is.Done) ⊎ (answer ≡ end_is.NoMemory) }
{}
