/// A type of a store, by its number there.
#[derive(Clone, Copy, Debug, PartialEq, Eq)]
pub struct Node {
    pub number: u32,
}

/// Why two nodes were not made equal: no types for the store's variables make them so, or memory ended.
#[derive(Clone, Copy, Debug, PartialEq, Eq)]
pub enum UnifyFault {
    Clash,
    NoMemory,
}
