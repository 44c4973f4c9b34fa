use crate::source::stands_at;
use readers::{Code, ReadError};
use sml_lex::Token;
use std::test::Fail;

/// Whether the call reads a tree or is refused with this code, and stops at the token of this byte.
pub fn stops<T: Drop>(
    found: Result<(T, &[Token]), ReadError<'_, Token>>,
    byte: usize,
    refusal: Option<Code>,
) -> Result<bool, Fail> {
    match found {
        Ok((_, rest)) => Ok(refusal.is_none() && stands_at(rest, byte)),
        Err(ReadError::Refused(code, rest)) => Ok(refusal == Some(code) && stands_at(rest, byte)),
        Err(ReadError::NoMemory) => Err("no memory".into()),
    }
}
