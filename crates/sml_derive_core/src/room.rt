//! How far types may grow.
//!
//! What a `withtype` puts in place may make a type grow without bound, in width and in depth, where the source is small.
//! There is no memory for more than `MOST_NODES` nodes of one declaration, nor for a type that nests deeper than
//! `MOST_LEVELS`, as no source does.

use tl_text::NoMemory;

/// The nodes that the types of one declaration may have after a `withtype` is put in place.
pub(crate) const MOST_NODES: u32 = 4_194_304;

/// The levels that such a type may have.
pub(crate) const MOST_LEVELS: u32 = 1_000;

/// Takes a node from those left, and gives the levels that are left below it.
pub(crate) fn descend(levels: u32, nodes: &mut u32) -> Result<u32, NoMemory> {
    *nodes = nodes.checked_sub(1).ok_or(NoMemory)?;
    levels.checked_sub(1).ok_or(NoMemory)
}
