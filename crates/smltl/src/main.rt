//! The program `smltl`: from the sources that a list names to one OCaml text.
//!
//! `run` is the whole of it, over any devices: it reads the list, then each source, and writes the text of the module
//! `Rt` and one unit for each source, or tells in one line what is wrong. Its contract is the promise of this program:
//! what was written is a faithful translation of the sources that were accepted, a source is refused exactly where it
//! has to be, and each end has its cause. `main` calls `run` on the files and the standard streams of the system, of
//! which nothing is promised but that their faults are counted.
//!
//! It stands above `tl_session`, which translates one source after another, and `src_io`, the devices.
#![tactic(auto)]

mod command;
mod end;
mod lines;
mod list;
mod run;
#[cfg(test)]
mod source_tests;
mod tell;
#[cfg(test)]
mod tests;
mod translate;

use end::{End, status};
use lines::USAGE;
use run::run;
use src_io::{FileSources, StdSink};
use std::alloc::Global;
use std::process::ExitCode;
use std::rt::Env;
use std::{env, io};
use tell::{tell, tell_no_memory};

/// The words of the command. Words that are no text are no command.
fn words_of<R: Env + Alloc<A = Global>>(rt: &R) -> Result<Vec<String>, End> {
    let mut words = Vec::new(rt.alloc());
    let given = env::args(rt).map_err(|e| match e.kind() {
        io::ErrorKind::OutOfMemory => End::NoMemory,
        _ => End::BadWords,
    })?;
    for word in given {
        if words.push(word).is_err() {
            return Err(End::NoMemory);
        }
    }
    Ok(words)
}

fn main(rt: HostRuntime) -> ExitCode {
    let mut src = FileSources::new(&rt);
    let mut out = StdSink::new(rt.stdout());
    let mut notes = StdSink::new(rt.stderr());
    let end = match words_of(&rt) {
        Ok(words) => run(rt.alloc(), &words, &mut src, &mut out, &mut notes),
        Err(End::BadWords) => tell(&mut notes, USAGE, End::BadWords),
        Err(_) => tell_no_memory(&mut notes),
    };
    ExitCode::from(status(&end))
}
