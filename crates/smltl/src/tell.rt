ghost use Rattle.std.specs.Prelude.{◌≡◌, ℕ, List};
ghost use Rattle.src_io.specs.Written.{Appends};
ghost use Rattle.smltl.specs.declared.end.End.TheVariants as end_is;
ghost use Rattle.smltl.specs.Lines.{bad_list_line, missing_line, error_line, out_of_memory};
ghost use Rattle.smltl.specs.Telling.{Tells, TellsAtBest};

use crate::end::End;
use crate::lines::{OUT_OF_MEMORY, bad_list_line, error_line, missing_line};
use src_io::{Sink, write_all};
use std::alloc::{AllocError, Global};
use tl_text::Refusal;

/// Writes a line and ends so; where it cannot be written, the end is a write fault.
pub fn tell<N: Sink>(notes: &mut N, line: &[u8], end: End) -> End
    ensures { (said : List ℕ) × Tells end line.now result said (N.faults notes.old) (N.faults notes.new)
        × Appends (N.written notes.old) (N.written notes.new) said }
{
    match write_all(notes, line) {
        Ok(()) => end,
        Err(_failed) => End::WriteFault,
    }
}

/// Tells that there is no memory, and ends so.
pub fn tell_no_memory<N: Sink>(notes: &mut N) -> End
    ensures { (said : List ℕ) × Tells end_is.NoMemory out_of_memory result said (N.faults notes.old) (N.faults notes.new)
        × Appends (N.written notes.old) (N.written notes.new) said }
{
    tell(notes, OUT_OF_MEMORY, End::NoMemory)
}

/// Tells of a bad line of the list, and ends so.
pub fn tell_bad_list<N: Sink>(alloc: Global, notes: &mut N, list: &str, line: u32) -> End
    ensures { (said : List ℕ) × TellsAtBest (end_is.BadList line) (bad_list_line list.now line) result said (N.faults notes.old) (N.faults notes.new)
        × Appends (N.written notes.old) (N.written notes.new) said }
{
    match bad_list_line(alloc, list, line) {
        Ok(text) => tell(notes, text.as_bytes(), End::BadList { line }),
        Err(AllocError) => tell_no_memory(notes),
    }
}

/// Tells of a name that is not held, and ends so.
pub fn tell_missing<N: Sink>(alloc: Global, notes: &mut N, name: &str, number: u32) -> End
    ensures { (said : List ℕ) × TellsAtBest (end_is.Missing number) (missing_line name.now) result said (N.faults notes.old) (N.faults notes.new)
        × Appends (N.written notes.old) (N.written notes.new) said }
{
    match missing_line(alloc, name) {
        Ok(text) => tell(notes, text.as_bytes(), End::Missing { name: number }),
        Err(AllocError) => tell_no_memory(notes),
    }
}

/// Tells of a refused source, and ends so.
pub fn tell_refused<N: Sink>(alloc: Global, notes: &mut N, name: &str, refusal: Refusal) -> End
    ensures { (said : List ℕ) × TellsAtBest (end_is.Refused refusal) (error_line name.now refusal) result said (N.faults notes.old) (N.faults notes.new)
        × Appends (N.written notes.old) (N.written notes.new) said }
{
    match error_line(alloc, name, &refusal) {
        Ok(text) => tell(notes, text.as_bytes(), End::Refused(refusal)),
        Err(AllocError) => tell_no_memory(notes),
    }
}
