//! Sources that the tests make: with one byte changed, or with a name of a given length.

ghost use Rattle.std.specs.Prelude.{◌≡◌, ◌++◌, ◌<◌, IfOk, length, replicate, slice_set};

use std::alloc::{AllocError, Global};

/// The source with another byte at that place.
pub fn damaged(alloc: Global, source: &[u8], at: usize, byte: u8) -> Result<Vec<u8>, AllocError>
    requires { at < length source.now }
    ensures { IfOk result (λ s. s.items ≡ slice_set source.now at byte) }
{
    let mut items = Vec::from_slice(alloc, source)?;
    items[at] = byte;
    Ok(items)
}

/// Some bytes, a name of `long` times the letter n, and further bytes.
pub fn around(alloc: Global, front: &[u8], long: usize, back: &[u8]) -> Result<Vec<u8>, AllocError>
    ensures { IfOk result (λ s. s.items ≡ front.now ++ replicate long 110 ++ back.now) }
{
    let mut source = Vec::from_slice(alloc, front)?;
    let name = vec![in alloc; b'n'; long]?;
    source.extend_from_slice(name.as_slice())?;
    source.extend_from_slice(back)?;
    Ok(source)
}
