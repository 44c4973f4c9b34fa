ghost use Rattle.std.specs.Prelude.{◌≡◌, IfOk, string_bytes};
ghost use Rattle.smltl.specs.Lines.{bad_list_line, missing_line, error_line};

use std::alloc::{AllocError, Global};
use tl_text::{Refusal, code_number, code_text};

/// What is said of faulty words.
pub const USAGE: &[u8] =
    b"usage: smltl LIST [--mode translate|check|demo] [--quiet] [--basis] [--seed N] [--size N]\n";

/// What is said where reading failed.
pub const READING_FAILED: &[u8] = b"smltl: reading failed\n";

/// What is said where there is no memory.
pub const OUT_OF_MEMORY: &[u8] = b"smltl: out of memory\n";

/// What is said of a bad line of the list.
pub fn bad_list_line(alloc: Global, list: &str, line: u32) -> Result<String, AllocError>
    ensures { IfOk result (λ text. string_bytes text ≡ bad_list_line list.now line) }
{
    format!(in alloc; "{list}:{line}: bad list line\n")
}

/// What is said of a name that is not held.
pub fn missing_line(alloc: Global, name: &str) -> Result<String, AllocError>
    ensures { IfOk result (λ text. string_bytes text ≡ missing_line name.now) }
{
    format!(in alloc; "smltl: {name}: cannot be opened\n")
}

/// What is said of a refused source.
pub fn error_line(alloc: Global, name: &str, refusal: &Refusal) -> Result<String, AllocError>
    ensures { IfOk result (λ text. string_bytes text ≡ error_line name.now refusal.now) }
{
    let line = refusal.place.line;
    let column = refusal.place.col;
    let number = code_number(refusal.code);
    let text = code_text(refusal.code);
    format!(in alloc; "{name}:{line}:{column}: error {number}: {text}\n")
}
