//! What the fields of an order file state.

/// A pair as a file states it.
#[derive(Clone, Copy, PartialEq, Eq, Debug)]
pub struct StatedPair {
    pub left: u8,
    pub right: u8,
    pub cost: i64,
}

/// What one field states.
#[derive(Clone, Copy, PartialEq, Eq, Debug)]
pub enum Record {
    /// The number of blocks of a plane.
    Size(u8),
    /// A standing pair and its cost.
    Pair(StatedPair),
    /// Nothing follows.
    End,
}

/// How far the fields of a file have come.
#[derive(Clone, Copy, PartialEq, Eq, Debug)]
pub enum Stage {
    /// Nothing was read: the size has to come.
    Start,
    /// The size was read: pairs may come, and the end has to.
    Sized(u8),
    /// The end was read, of a file with this size: nothing may come.
    Ended(u8),
}
