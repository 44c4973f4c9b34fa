ghost use Rattle.std.specs.Prelude.{◌≡◌, ◌+◌, IfOk, max};

use tl_text::NoMemory;

/// The height of a node over parts of these heights. NoMemory where it is too great.
pub fn above(left: u32, right: u32) -> Result<u32, NoMemory>
    ensures { IfOk result (λ n. n ≡ max left right + 1) }
{
    match left.max(right).checked_add(1) {
        Some(next) => Ok(next),
        None => Err(NoMemory),
    }
}
