//! Sources made of parts.

ghost use Rattle.std.specs.Prelude.{◌≡◌, ◌++◌, IfOk};
ghost use Rattle.std.specs.List.{repeat};

use std::alloc::{AllocError, Global};

/// The first half and the rest behind it.
///
/// # Errors
/// Where no memory is left.
pub fn joined(alloc: Global, front: &[u8], rest: &[u8]) -> Result<Vec<u8>, AllocError>
    ensures { IfOk result (λ s. s.items ≡ front.now ++ rest.now) }
{
    let mut source = Vec::from_slice(alloc, front)?;
    source.extend_from_slice(rest)?;
    Ok(source)
}

/// A front, an item as many times, and a back.
///
/// # Errors
/// Where no memory is left.
pub fn repeated(
    alloc: Global,
    front: &[u8],
    item: &[u8],
    times: usize,
    back: &[u8],
) -> Result<Vec<u8>, AllocError>
    ensures { IfOk result (λ s. s.items ≡ front.now ++ (repeat times item.now ++ back.now)) }
{
    let items = item.repeat(alloc, times)?;
    let rest = joined(alloc, items.as_slice(), back)?;
    joined(alloc, front, rest.as_slice())
}

/// The openings one behind the other, what stands in the middle, and as many closings.
///
/// # Errors
/// Where no memory is left.
pub fn nested(
    alloc: Global,
    opening: &[u8],
    middle: &[u8],
    closing: &[u8],
    times: usize,
) -> Result<Vec<u8>, AllocError>
    ensures { IfOk result (λ s. s.items ≡ repeat times opening.now ++ (middle.now ++ repeat times closing.now)) }
{
    let openings = opening.repeat(alloc, times)?;
    let rest = repeated(alloc, middle, closing, times, b"")?;
    joined(alloc, openings.as_slice(), rest.as_slice())
}
