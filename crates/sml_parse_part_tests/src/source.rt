//! Sources in two halves, and where the tokens that are left begin.

ghost use Rattle.std.specs.Prelude.{◌≡◌, ◌++◌, ◌==◌, IfOk};
ghost use Rattle.readers.specs.Reader.{first, head_is};

use sml_lex::Token;
use std::alloc::{AllocError, Global};

/// The first half and the rest behind it.
///
/// # Errors
/// Where no memory is left.
pub fn joined(alloc: Global, front: &[u8], rest: &[u8]) -> Result<Vec<u8>, AllocError>
    ensures { IfOk result (λ s. s.items ≡ front.now ++ rest.now) }
{
    let mut source = Vec::from_slice(alloc, front)?;
    source.extend_from_slice(rest)?;
    Ok(source)
}

/// Whether there is a token left, and the first one begins at this byte.
pub fn stands_at(tokens: &[Token], byte: usize) -> bool
    ensures { result ≡ head_is (λ t. t.place.byte == byte) (first tokens.now) }
{
    match tokens {
        [] => false,
        [token, ..] => token.place.byte as usize == byte,
    }
}
