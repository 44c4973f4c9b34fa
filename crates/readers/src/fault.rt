ghost use Rattle.std.specs.Prelude.{◌≡◌, if◌then◌else◌};
ghost use Rattle.readers.specs.Reader.{no_more};
ghost use Rattle.readers.specs.Given.{Gives};
ghost use Rattle.readers.specs.declared.code.Code.TheVariants.{Depth, Grammar};
ghost use Rattle.readers.specs.declared.fault.ReadError.TheVariants as errors;

use crate::code::Code;
use std::alloc::{AllocError, AllocFailed};
use tl_text::NoMemory;

/// Why nothing was read: the machine gave no memory, or the first of these tokens is refused, the end where there is none.
#[derive(Drop)]
pub enum ReadError<'a, K> {
    NoMemory,
    Refused(Code, &'a [K]),
}

impl<'a, K> From<AllocError> for ReadError<'a, K> {
    ghost from_gives = { λ _ e. e ≡ errors.NoMemory };

    fn from(_: AllocError) -> ReadError<'a, K> {
        ReadError::NoMemory
    }
}

impl<'a, K, T: Drop> From<AllocFailed<T>> for ReadError<'a, K> {
    ghost from_gives = { λ _ e. e ≡ errors.NoMemory };

    fn from(_: AllocFailed<T>) -> ReadError<'a, K> {
        ReadError::NoMemory
    }
}

impl<'a, K> From<NoMemory> for ReadError<'a, K> {
    ghost from_gives = { λ _ e. e ≡ errors.NoMemory };

    fn from(_: NoMemory) -> ReadError<'a, K> {
        ReadError::NoMemory
    }
}

/// Nothing, where no token is left; else the next one is refused.
pub fn at_end<K>(tokens: &[K]) -> Result<(), ReadError<'_, K>>
    ensures { Gives (λ x. (tt, tokens.now)) result (no_more tokens.now) }
{
    match tokens {
        [] => Ok(()),
        _ => Err(ReadError::Refused(Code::Grammar, tokens)),
    }
}

/// The code where there is no room at all: Depth if the next token begins a phrase, and else Grammar.
pub fn refusal(begins: bool) -> Code
    ensures { result ≡ (if begins then Depth else Grammar) }
{
    if begins { Code::Depth } else { Code::Grammar }
}
